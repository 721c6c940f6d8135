//! Dates of a row, as strftime shows what a clock says at an offset from UTC.

ghost use Rattle.std.specs.Prelude.{◌≡◌, ◌+ℤ◌, Some, IfOk, option_map};
ghost use Rattle.jiff_core.specs.Date.{epoch_day};
ghost use Rattle.jiff_core.specs.Time.{time_seconds};
ghost use Rattle.jiff_strtime.specs.Text.{parts_of};
ghost use Rattle.index_rows.specs.Date as spec;

use crate::text::shown;
use jiff_core::civil::{Date, DateTime, Time};
use jiff_strtime::{BrokenDownTime, Config, Locale, to_bytes};
use mail_base::{Line, NoMemory};
use std::alloc::Global;

// The parts of a clock. The week of the year, which no letter of a date's format shows, stands
// there so that what is shown depends on the parts alone.
fn parts_on(clock: DateTime) -> BrokenDownTime<'static>
    ensures { parts_of result
        ≡ spec.parts_on (epoch_day clock.date) (time_seconds clock.time) }
{
    let DateTime { date, time } = clock;
    BrokenDownTime {
        year: Some(date.year),
        month: Some(date.month),
        day: Some(date.day),
        day_of_year: Some(date.day_of_year()),
        iso_week_year: Some(0),
        iso_week: Some(0),
        hour: Some(time.hour),
        minute: Some(time.minute),
        second: Some(time.second),
        weekday: Some(date.weekday()),
        ..BrokenDownTime::empty()
    }
}

// What a clock says at a moment and an offset from UTC, where the calendar has the day.
fn clock_at(seconds: i64, offset: i32) -> Option<DateTime>
    ensures { option_map (λ c. spec.parts_on (epoch_day c.date) (time_seconds c.time)) result
        ≡ spec.parts_at (seconds +ℤ offset) }
{
    let seconds = seconds.checked_add(i64::from(offset))?;
    let Ok(date) = Date::from_unix_epoch_day(seconds.div_euclid(86_400)) else {
        return None;
    };
    let time = Time::from_second(seconds.rem_euclid(86_400) as u32, 0);
    Some(DateTime { date, time })
}

// What a format shows of a clock; none is refused.
fn clock_text(alloc: Global, format: &[u8], clock: DateTime) -> Result<Line, NoMemory>
    ensures { IfOk result (λ line. line.items ≡ spec.format_text format.now
        (Some (spec.parts_on (epoch_day clock.date) (time_seconds clock.time)))) }
{
    let config = Config {
        locale: Locale::Default,
        lenient: true,
    };
    let Ok(text) = to_bytes(alloc, config, format, &parts_on(clock)) else {
        return Err(NoMemory);
    };
    shown(alloc, text.as_slice())
}

/// What a format, as UTF-8, shows of a moment in seconds since 1970, at an offset from UTC in
/// seconds.
#[tactic(auto, unfolding(crate::specs::Date::format_text))]
pub fn date_text(alloc: Global, format: &[u8], seconds: i64, offset: i32) -> Result<Line, NoMemory>
    ensures { IfOk result (λ line. line.items ≡ spec.date_text format.now seconds offset) }
{
    let format = shown(alloc, format)?;
    match clock_at(seconds, offset) {
        Some(clock) => clock_text(alloc, format.as_slice(), clock),
        None => Ok(Line::new(alloc)),
    }
}
