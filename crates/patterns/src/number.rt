//! Numbers of a pattern: decimal digits without a leading zero.

ghost use Rattle.std.specs.Prelude.{◌≡◌, ◌≤◌, Some, IfSome};
ghost use Rattle.patterns.specs.Numbers as spec;

use mail_base::{number_text, split_once};

// The greatest number of a pattern.
const GREATEST: u64 = 9_223_372_036_854_775_807;

/// The number, unless it is past the greatest.
pub fn number_of(text: &[u8]) -> Option<u64>
    ensures value { result ≡ spec.number_of text.now }
    ensures within { IfSome result (λ n. n ≤ spec.greatest) }
{
    match number_text(text)?.parse::<u64>() {
        Ok(number) if number <= GREATEST => Some(number),
        _ => None,
    }
}

// A number times a unit.
fn times(unit: u64, number: u64) -> Option<u64>
    ensures { result ≡ spec.times unit (Some number) }
{
    match number.checked_mul(unit) {
        Some(product) if product <= GREATEST => Some(product),
        _ => None,
    }
}

// The number before the letter of a unit.
fn in_unit(unit: u64, digits: &[u8], behind: &[u8]) -> Option<u64>
    ensures { result ≡ spec.in_unit unit (digits.now, behind.now) }
{
    if behind.is_empty() {
        times(unit, number_of(digits)?)
    } else {
        None
    }
}

/// A number of bytes: K is 1,024 of them, and M the square of that.
pub fn size_of(text: &[u8]) -> Option<u64>
    ensures { result ≡ spec.size_of text.now }
{
    if let Some((digits, behind)) = split_once(b'K', text) {
        return in_unit(1_024, digits, behind);
    }
    match split_once(b'M', text) {
        Some((digits, behind)) => in_unit(1_048_576, digits, behind),
        None => number_of(text),
    }
}
