//! Days of messages, in ranges of a pattern.

ghost use Rattle.std.specs.Prelude.{◌≡◌};
ghost use Rattle.jiff_core.specs.Date.{epoch_day};
ghost use Rattle.patterns_match.specs.Days.{day_number};
ghost use Rattle.patterns_match.specs.Entries.{plain_entry};
ghost use Rattle.patterns_match.specs.Ranges.{range_map};
ghost use Rattle.patterns_match.specs.Satisfies as spec;

use crate::entry::Entry;
use crate::letter::Day;
use crate::range::Range;
use jiff::civil::Date;

// The day on which a moment falls, counted from 1970, by an offset from UTC.
fn day_number(moment: i64, offset: i32) -> i128
    ensures { result ≡ day_number moment offset }
{
    (i128::from(moment) + i128::from(offset)).div_euclid(86_400)
}

// A day, counted from 1970.
fn number(day: Date) -> i128
    ensures { result ≡ epoch_day day }
{
    i128::from(day.to_plain().to_unix_epoch_day())
}

fn holds_day(days: Range<Date>, day: i128) -> bool
    ensures { result ≡ spec.holds_day (range_map epoch_day days) day }
{
    match days {
        Range::Exactly(only) => day == number(only),
        Range::Between(low, high) => number(low) <= day && day <= number(high),
        Range::UpTo(high) => day <= number(high),
        Range::From(low) => number(low) <= day,
        Range::Below(end) => day < number(end),
        Range::Above(end) => number(end) < day,
    }
}

// When a message was sent, in seconds since 1970: received, where its date cannot be read.
fn sent_at(entry: &Entry<'_>) -> i64
    ensures { result ≡ spec.sent_at (plain_entry entry.now) }
{
    match entry.header.sent {
        Some(date) => date.seconds,
        None => entry.row.received,
    }
}

/// Whether a date of a message lies in the range, by an offset from UTC.
pub fn is_dated(day: Day, days: Range<Date>, offset: i32, entry: &Entry<'_>) -> bool
    ensures { result
        ≡ spec.dated offset (plain_entry entry.now) (range_map epoch_day days) day }
{
    match day {
        Day::Received => holds_day(days, day_number(entry.row.received, offset)),
        Day::Sent => holds_day(days, day_number(sent_at(entry), offset)),
    }
}
