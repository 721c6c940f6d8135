//! Time zones as offsets in digits (RFC 5322, section 3.3).

ghost use Rattle.std.specs.Prelude.{◌≡◌, ◌<◌, ◌≤◌, ◌+◌, ◌*◌, ◌≤ℤ◌, neg_ℤ, pos, Some, IfSome};
ghost use Rattle.mail_base.specs.Zone as spec;

/// The number that two decimal digits write.
pub fn two_digits(a: u8, b: u8) -> Option<u8>
    ensures number { result ≡ spec.two_digits a b }
    ensures bound { IfSome result (λ n. n < 100) }
{
    if a.is_ascii_digit() && b.is_ascii_digit() {
        Some((a - b'0') * 10 + (b - b'0'))
    } else {
        None
    }
}

/// The seconds east of Greenwich that `+hhmm` or `-hhmm` writes, which has to be the whole text.
pub fn read_zone(text: &[u8]) -> Option<i32>
    ensures value { result ≡ spec.numeric_zone text.now }
    ensures bound { IfSome result spec.IsOffset }
{
    match text {
        [sign, a, b, c, d] => offset_at(*sign, two_digits(*a, *b)?, two_digits(*c, *d)?),
        _ => None,
    }
}

fn offset_at(sign: u8, hours: u8, minutes: u8) -> Option<i32>
    ensures offset { result ≡ spec.offset_at sign (Some hours) (Some minutes) }
    ensures bound { IfSome result spec.IsOffset }
{
    if hours > 23 || minutes > 59 {
        return None;
    }
    let seconds = seconds_of(hours, minutes);
    match sign {
        b'+' => Some(seconds),
        b'-' => Some(-seconds),
        _ => None,
    }
}

fn seconds_of(hours: u8, minutes: u8) -> i32
    requires hours { hours ≤ 23 }
    requires minutes { minutes ≤ 59 }
    ensures value { result ≡ pos (hours * 3600 + minutes * 60) }
    ensures low { neg_ℤ (pos 86_399) ≤ℤ result }
    ensures high { result ≤ℤ pos 86_399 }
{
    i32::from(hours) * 3600 + i32::from(minutes) * 60
}
