//! Moments as asctime(3) writes them.

ghost use Rattle.std.specs.Prelude.{◌≡◌, ◌<◌, ◌≤◌, ◌≤ℤ◌, pos, unsigned_abs};
ghost use Rattle.folder_letters.specs.Moments.{IsClockMoment};
ghost use Rattle.jiff_core.specs.Weekday.{monday_zero};
ghost use Rattle.folder_drivers.specs.MboxStamp as spec;

use jiff_core::civil::{Date, Weekday};

fn weekday_name(weekday: Weekday) -> &'static [u8; 3]
    ensures { result.now ≡ spec.weekday_name (monday_zero weekday) }
{
    match weekday {
        Weekday::Monday => b"Mon",
        Weekday::Tuesday => b"Tue",
        Weekday::Wednesday => b"Wed",
        Weekday::Thursday => b"Thu",
        Weekday::Friday => b"Fri",
        Weekday::Saturday => b"Sat",
        Weekday::Sunday => b"Sun",
    }
}

fn month_name(month: u8) -> &'static [u8; 3]
    requires low { 1 ≤ month }
    requires high { month ≤ 12 }
    ensures { result.now ≡ spec.month_name month }
{
    match month {
        1 => b"Jan",
        2 => b"Feb",
        3 => b"Mar",
        4 => b"Apr",
        5 => b"May",
        6 => b"Jun",
        7 => b"Jul",
        8 => b"Aug",
        9 => b"Sep",
        10 => b"Oct",
        11 => b"Nov",
        _ => b"Dec",
    }
}

fn two_digits(number: u8) -> [u8; 2]
    requires { number < 100 }
    ensures { result ≡ spec.two_digits number }
{
    [b'0' + number / 10, b'0' + number % 10]
}

// The number with a blank in place of a first zero.
fn padded(number: u8) -> [u8; 2]
    requires { number < 100 }
    ensures { result ≡ spec.padded number }
{
    let first = if number < 10 {
        b' '
    } else {
        b'0' + number / 10
    };
    [first, b'0' + number % 10]
}

// A second of a day.
fn asctime(date: Date, second: u32) -> [u8; 24]
    requires year { pos 0 ≤ℤ date.year }
    requires second { second < 86_400 }
    ensures { result ≡ spec.asctime (unsigned_abs date.year) date.month date.day second }
{
    let year = date.year as u16;
    let [w0, w1, w2] = *weekday_name(date.weekday());
    let [n0, n1, n2] = *month_name(date.month);
    let [d0, d1] = padded(date.day);
    let [h0, h1] = two_digits((second / 3600) as u8);
    let [m0, m1] = two_digits((second % 3600 / 60) as u8);
    let [s0, s1] = two_digits((second % 60) as u8);
    let [c0, c1] = two_digits((year / 100) as u8);
    let [y0, y1] = two_digits((year % 100) as u8);
    [
        w0, w1, w2, b' ', n0, n1, n2, b' ', d0, d1, b' ', h0, h1, b':', m0, m1, b':', s0, s1, b' ',
        c0, c1, y0, y1,
    ]
}

/// A moment as `Thu Jan  1 00:00:00 1970`, in UTC.
pub fn stamp_text(moment: i64) -> [u8; 24]
    requires { IsClockMoment moment }
    ensures { result ≡ spec.stamp_text moment }
{
    let Ok(date) = Date::from_unix_epoch_day(moment / 86_400) else {
        unreachable!()
    };
    asctime(date, (moment % 86_400) as u32)
}
