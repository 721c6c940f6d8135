//! The time stamps of postmarks.

ghost use Rattle.std.specs.Prelude.{◌≡◌, ◌<◌, ◌≤◌, pos, ◌+ℤ◌, ◌-ℤ◌, IfSome};
ghost use Rattle.std.specs.Char.{is_ascii_alphabetic};
ghost use Rattle.std.specs.List.{list_all};
ghost use Rattle.folder_core.specs.Mbox as spec;
ghost use Rattle.mail_base.specs.Words as words;
ghost use Rattle.mail_base.specs.Zone.{IsOffset};
ghost use Rattle.mbox_text.specs.Stamp.{IsEnding, IsMidnight, IsMonth};

use jiff::civil::{Date, date};
use mail_base::{blank_at, read_zone, two_digits, without_blanks};

// The last second that a clock gives.
const LAST_SECOND: i64 = 253_000_000_000;

/// The moment of a time stamp as `Thu Jan  1 00:00:10 1970`, which has to be the whole text.
#[tactic(auto, unfolding(folder_core::specs::Mbox::stamp))]
pub fn read_stamp(text: &[u8]) -> Option<i64>
    ensures value { result ≡ spec.stamp text.now }
    ensures range { IfSome result spec.IsClockMoment }
{
    let (weekday, behind_weekday) = split_word(text);
    if !is_weekday(weekday) {
        return None;
    }
    let (month, behind_month) = split_word(behind_weekday);
    let (day, behind_day) = split_word(behind_month);
    let (clock, ending) = split_word(behind_day);
    moment_of(
        month_of(month)?,
        day_of(day)?,
        clock_of(clock)?,
        ending_of(ending)?,
    )
}

// The first word, and what stands behind it and the blanks after it.
fn split_word(text: &[u8]) -> (&[u8], &[u8])
    ensures first { result.0.now ≡ words.first_word text.now }
    ensures behind { result.1.now ≡ words.behind_word text.now }
{
    match blank_at(text) {
        Some(at) => (&text[..at], without_blanks(&text[at + 1..])),
        None => (text, &[]),
    }
}

#[tactic(auto, unfolding(folder_core::specs::Mbox::is_weekday))]
fn is_weekday(word: &[u8]) -> bool
    ensures { result ≡ spec.is_weekday word.now }
{
    word == b"Sun".as_slice()
        || word == b"Mon".as_slice()
        || word == b"Tue".as_slice()
        || word == b"Wed".as_slice()
        || word == b"Thu".as_slice()
        || word == b"Fri".as_slice()
        || word == b"Sat".as_slice()
}

#[tactic(auto, unfolding(folder_core::specs::Mbox::month_of))]
fn month_of(word: &[u8]) -> Option<u8>
    ensures month { result ≡ spec.month_of word.now }
    ensures bound { IfSome result IsMonth }
{
    if word == b"Jan".as_slice() {
        Some(1)
    } else if word == b"Feb".as_slice() {
        Some(2)
    } else if word == b"Mar".as_slice() {
        Some(3)
    } else if word == b"Apr".as_slice() {
        Some(4)
    } else if word == b"May".as_slice() {
        Some(5)
    } else if word == b"Jun".as_slice() {
        Some(6)
    } else if word == b"Jul".as_slice() {
        Some(7)
    } else if word == b"Aug".as_slice() {
        Some(8)
    } else if word == b"Sep".as_slice() {
        Some(9)
    } else if word == b"Oct".as_slice() {
        Some(10)
    } else if word == b"Nov".as_slice() {
        Some(11)
    } else if word == b"Dec".as_slice() {
        Some(12)
    } else {
        None
    }
}

fn one_digit(a: u8) -> Option<u8>
    ensures digit { result ≡ spec.one_digit a }
    ensures bound { IfSome result (λ n. n < 10) }
{
    if a.is_ascii_digit() {
        Some(a - b'0')
    } else {
        None
    }
}

fn day_of(word: &[u8]) -> Option<u8>
    ensures day { result ≡ spec.day_of word.now }
    ensures bound { IfSome result (λ day. day < 100) }
{
    match word {
        [a] => one_digit(*a),
        [a, b] => two_digits(*a, *b),
        _ => None,
    }
}

fn year_of(word: &[u8]) -> Option<u16>
    ensures year { result ≡ spec.year_of word.now }
    ensures bound { IfSome result (λ year. year ≤ 9999) }
{
    match word {
        [a, b, c, d] => Some(u16::from(two_digits(*a, *b)?) * 100 + u16::from(two_digits(*c, *d)?)),
        _ => None,
    }
}

// The seconds since midnight.
fn clock_of(word: &[u8]) -> Option<u32>
    ensures clock { result ≡ spec.clock_of word.now }
    ensures bound { IfSome result (λ seconds. seconds < 86_400) }
{
    match word {
        [h, i, b':', m, n] => clock_at(two_digits(*h, *i)?, two_digits(*m, *n)?, 0),
        [h, i, b':', m, n, b':', s, t] => clock_at(
            two_digits(*h, *i)?,
            two_digits(*m, *n)?,
            two_digits(*s, *t)?,
        ),
        _ => None,
    }
}

fn clock_at(hour: u8, minute: u8, second: u8) -> Option<u32>
    ensures clock { result ≡ spec.clock_at (Some hour) (Some minute) (Some second) }
    ensures bound { IfSome result (λ seconds. seconds < 86_400) }
{
    if hour <= 23 && minute <= 59 && second <= 60 {
        Some(u32::from(hour) * 3600 + u32::from(minute) * 60 + u32::from(second.min(59)))
    } else {
        None
    }
}

fn are_letters(word: &[u8]) -> bool
    ensures { result ≡ list_all is_ascii_alphabetic word.now }
{
    word.iter().all(|b| b.is_ascii_alphabetic())
}

fn is_zone_name(word: &[u8]) -> bool
    ensures { result ≡ spec.is_zone_name word.now }
{
    1 <= word.len() && word.len() <= 5 && are_letters(word)
}

// Seconds east of Greenwich.
fn zone_of(word: &[u8]) -> Option<i32>
    ensures offset { result ≡ spec.zone_of word.now }
    ensures bound { IfSome result IsOffset }
{
    if is_zone_name(word) {
        return Some(0);
    }
    read_zone(word)
}

// The year and the offset of the zone, with which a stamp ends.
fn ending_of(text: &[u8]) -> Option<(u16, i32)>
    ensures ending { result ≡ spec.ending_of text.now }
    ensures bound { IfSome result IsEnding }
{
    if let Some(year) = year_of(text) {
        return Some((year, 0));
    }
    let (first, last) = split_word(text);
    if let Some(year) = year_of(last)
        && let Some(offset) = zone_of(first)
    {
        return Some((year, offset));
    }
    Some((year_of(first)?, zone_of(last)?))
}

// The seconds from 1970 to the start of a day, if the calendar has it.
fn midnight(year: u16, month: u8, day: u8) -> Option<i64>
    requires year { year ≤ 9999 }
    requires month { IsMonth month }
    requires day { day < 100 }
    ensures start { result ≡ spec.midnight year month day }
    ensures bound { IfSome result IsMidnight }
{
    let Ok(day) = Date::new(year as i16, month as i8, day as i8) else {
        return None;
    };
    Some(day.duration_since(date(1970, 1, 1)).as_secs())
}

// The moment of a time of day, in seconds since midnight, on a day of the calendar.
fn moment_of(month: u8, day: u8, clock: u32, ending: (u16, i32)) -> Option<i64>
    requires month { IsMonth month }
    requires day { day < 100 }
    requires clock { clock < 86_400 }
    requires ending { IsEnding ending }
    ensures value { result ≡ spec.moment_of (Some month) (Some day) (Some clock) (Some ending) }
    ensures range { IfSome result spec.IsClockMoment }
{
    let (year, offset) = ending;
    let start = midnight(year, month, day)?;
    Some(moment_at(start, clock, offset))
}

// The moment at a time of day, brought into the range of a clock.
fn moment_at(start: i64, clock: u32, offset: i32) -> i64
    requires start { IsMidnight start }
    requires clock { clock < 86_400 }
    requires offset { IsOffset offset }
    ensures value { result ≡ spec.in_clock_range (start +ℤ pos clock -ℤ offset) }
    ensures range { spec.IsClockMoment result }
{
    (start + i64::from(clock) - i64::from(offset)).clamp(0, LAST_SECOND)
}
