//! Numbers in a format: decimal digits without a leading zero.

ghost use Rattle.std.specs.Prelude.{◌≡◌, ◌<◌, ◌≤◌, not, IfSome};
ghost use Rattle.std.specs.Prelude.{length, position};
ghost use Rattle.std.specs.Char.{is_ascii_digit};
ghost use Rattle.expando.specs.Numbers as spec;

use mail_base::number_text;

/// The most columns of a field that has no limit.
pub const NO_LIMIT: usize = usize::MAX;

/// The greatest width of a field.
const MOST_WIDTH: usize = 500;

// The place of the first byte that is no digit.
fn digits_end(text: &[u8]) -> Option<usize>
    ensures value { result ≡ position (λ b. not (is_ascii_digit b)) text.now }
    ensures within { IfSome result (λ end. end < length text.now) }
{
    text.iter().position(|b| !b.is_ascii_digit())
}

// How many digits stand at the front.
#[tactic(auto, using(mail_base::proofs::PlacesLemmas::place_or_len))]
fn digits_len(text: &[u8]) -> usize
    ensures value { result ≡ spec.digits_len text.now }
    ensures within { result ≤ length text.now }
{
    digits_end(text).unwrap_or(text.len())
}

/// The digits at the front, and what stands behind them.
pub fn digits_at(text: &[u8]) -> (&[u8], &[u8])
    ensures { (result.0.now, result.1.now) ≡ spec.digits_at text.now }
{
    text.split_at(digits_len(text))
}

/// The number, or no limit where it is past that.
pub fn number_of(text: &[u8]) -> Option<usize>
    ensures { result ≡ spec.number_of text.now }
{
    let digits = number_text(text)?;
    Some(digits.parse::<usize>().unwrap_or(NO_LIMIT))
}

/// A width; no digits are a width of none.
pub fn width_of(text: &[u8]) -> Option<usize>
    ensures { result ≡ spec.width_of text.now }
{
    if text.is_empty() {
        return Some(0);
    }
    match number_of(text) {
        Some(width) if width <= MOST_WIDTH => Some(width),
        _ => None,
    }
}
