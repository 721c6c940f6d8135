//! Ranges of days in a pattern.

ghost use Rattle.std.specs.Prelude.{◌≡◌, ◌≤◌, option_map, IfSome};
ghost use Rattle.std.specs.Str.{byte};
ghost use Rattle.jiff_core.specs.Date.{epoch_day};
ghost use Rattle.mail_base.specs.Places.{split_once};
ghost use Rattle.patterns.specs.Dates as spec;
ghost use Rattle.patterns_match.specs.Ranges.{range_map};

use crate::day::{days_back, months_back, read_day};
use crate::number::number_of;
use jiff::civil::Date;
use mail_base::split_once;
use patterns_match::Range;

// A number of units of time, which ends the text before its letter.
fn count_of(digits: &[u8], behind: &[u8]) -> Option<u32>
    ensures value { result ≡ spec.ago_count (digits.now, behind.now) }
    ensures within { IfSome result (λ n. n ≤ 9999) }
{
    if !behind.is_empty() {
        return None;
    }
    match number_of(digits) {
        Some(number) if number <= 9_999 => Some(number as u32),
        _ => None,
    }
}

// The day that a number and a unit go back to from today.
fn ago(today: Date, text: &[u8]) -> Option<Date>
    ensures { option_map epoch_day result ≡ spec.ago today text.now }
{
    if let Some((digits, behind)) = split_once(b'y', text) {
        return months_back(today, 12 * count_of(digits, behind)?);
    }
    if let Some((digits, behind)) = split_once(b'm', text) {
        return months_back(today, count_of(digits, behind)?);
    }
    if let Some((digits, behind)) = split_once(b'w', text) {
        return days_back(today, 7 * count_of(digits, behind)?);
    }
    let (digits, behind) = split_once(b'd', text)?;
    days_back(today, count_of(digits, behind)?)
}

// The range between two days, where both are there.
fn from_to(first: Option<Date>, last: Option<Date>) -> Option<Range<Date>>
    ensures { option_map (range_map epoch_day) result
        ≡ spec.from_to (option_map epoch_day first) (option_map epoch_day last) }
{
    Some(Range::Between(first?, last?))
}

// The range between two days of which one may be left out.
fn days_between(today: Date, low: &[u8], high: &[u8]) -> Option<Range<Date>>
    ensures { option_map (range_map epoch_day) result
        ≡ spec.days_between today (low.now, high.now) }
{
    match (low, high) {
        ([], []) => None,
        ([], _) => Some(Range::UpTo(read_day(today, high)?)),
        (_, []) => Some(Range::From(read_day(today, low)?)),
        _ => from_to(read_day(today, low), read_day(today, high)),
    }
}

// The range of a day, or of two with a dash between them.
fn plain_days(today: Date, text: &[u8]) -> Option<Range<Date>>
    ensures { option_map (range_map epoch_day) result
        ≡ spec.day_or_between today text.now (split_once (byte "-") text.now) }
{
    match split_once(b'-', text) {
        Some((low, high)) => days_between(today, low, high),
        None => Some(Range::Exactly(read_day(today, text)?)),
    }
}

/// The range of days that an argument writes. Less than so long ago is after that day.
pub fn read_days(today: Date, text: &[u8]) -> Option<Range<Date>>
    ensures { option_map (range_map epoch_day) result ≡ spec.days_of today text.now }
{
    match text {
        [] => None,
        [b'<', rest @ ..] => Some(Range::Above(ago(today, rest)?)),
        [b'>', rest @ ..] => Some(Range::Below(ago(today, rest)?)),
        [b'=', rest @ ..] => Some(Range::Exactly(ago(today, rest)?)),
        _ => plain_days(today, text),
    }
}
