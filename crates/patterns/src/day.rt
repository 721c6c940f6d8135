//! Days of a pattern.

ghost use Rattle.std.specs.Prelude.{◌≡◌, ◌<◌, ◌≤◌, ◌≤ℤ◌, neg_ℤ, pos, option_map, IfSome};
ghost use Rattle.jiff_core.specs.Date.{epoch_day};
ghost use Rattle.patterns.specs.Days as spec;
ghost use Rattle.patterns_match.specs.Days.{day_number};

use jiff::ToSpan;
use jiff::civil::Date;
use jiff_core::civil;
use mail_base::{read_decimal, split_once};

// A day or a month.
fn two_digits(text: &[u8]) -> Option<u8>
    ensures value { result ≡ spec.two_digits text.now }
    ensures bound { IfSome result (λ n. n < 100) }
{
    if text.len() > 2 {
        return None;
    }
    let number = read_decimal(text, 0, 99)?;
    Some(number as u8)
}

fn century(number: u16) -> u16
    requires { number < 100 }
    ensures value { result ≡ spec.century number }
    ensures bound { result ≤ 9999 }
{
    if number < 70 {
        2000 + number
    } else {
        1900 + number
    }
}

fn year_of(text: &[u8]) -> Option<u16>
    ensures value { result ≡ spec.year_of text.now }
    ensures bound { IfSome result (λ n. n ≤ 9999) }
{
    match text.len() {
        2 => {
            let number = read_decimal(text, 0, 99)?;
            Some(century(number as u16))
        }
        4 => {
            let number = read_decimal(text, 0, 9999)?;
            Some(number as u16)
        }
        _ => None,
    }
}

// The date, where the calendar has it.
fn date_of(year: i16, month: u8, day: u8) -> Option<Date>
    requires low { neg_ℤ (pos 9999) ≤ℤ year }
    requires high { year ≤ℤ pos 9999 }
    requires month { month < 100 }
    requires day { day < 100 }
    ensures { option_map epoch_day result ≡ spec.civil_day year month day }
{
    match Date::new(year, month as i8, day as i8) {
        Ok(date) => Some(date),
        Err(_) => None,
    }
}

/// The day that a text writes: an omitted month or year is that of today.
pub fn read_day(today: Date, text: &[u8]) -> Option<Date>
    ensures { option_map epoch_day result ≡ spec.day_of today text.now }
{
    let Some((day, rest)) = split_once(b'/', text) else {
        return date_of(today.year(), today.month() as u8, two_digits(text)?);
    };
    let Some((month, year)) = split_once(b'/', rest) else {
        return date_of(today.year(), two_digits(rest)?, two_digits(day)?);
    };
    date_of(year_of(year)? as i16, two_digits(month)?, two_digits(day)?)
}

/// So many days before.
pub fn days_back(today: Date, count: u32) -> Option<Date>
    requires { count ≤ 70_000 }
    ensures { option_map epoch_day result ≡ spec.days_back today count }
{
    match today.checked_add((-i64::from(count)).days()) {
        Ok(date) => Some(date),
        Err(_) => None,
    }
}

/// So many months before.
pub fn months_back(today: Date, count: u32) -> Option<Date>
    requires { count ≤ 120_000 }
    ensures { option_map epoch_day result ≡ spec.months_back today count }
{
    match today.checked_add((-i64::from(count)).months()) {
        Ok(date) => Some(date),
        Err(_) => None,
    }
}

/// The day on which a moment of a clock falls, by an offset from UTC.
pub fn day_at(moment: i64, offset: i32) -> Date
    requires low { pos 0 ≤ℤ moment }
    requires high { moment ≤ℤ pos 253_000_000_000 }
    requires west { neg_ℤ (pos 86_400) ≤ℤ offset }
    requires east { offset ≤ℤ pos 86_400 }
    ensures { epoch_day result ≡ day_number moment offset }
{
    let number = (moment + i64::from(offset)).div_euclid(86_400);
    let Ok(day) = civil::Date::from_unix_epoch_day(number) else {
        unreachable!()
    };
    Date::from_plain(day)
}
