//! Numbers of decimal digits.

ghost use Rattle.std.specs.Prelude.{◌≡◌, ◌≤◌, true, false, IfSome, IfNone};
ghost use Rattle.std.specs.Str.{all_ascii_digits};
ghost use Rattle.mail_base.specs.Decimal as spec;

/// The number from `low` to `high` that a text of decimal digits alone writes. Zeros may stand in
/// front, a sign may not.
pub fn read_decimal(text: &[u8], low: u32, high: u32) -> Option<u32>
    ensures value { result ≡ spec.decimal_in low high text.now }
    ensures low { IfSome result (λ number. low ≤ number) }
    ensures high { IfSome result (λ number. number ≤ high) }
{
    let digits = digits(text)?;
    match digits.parse::<u32>() {
        Ok(number) if low <= number && number <= high => Some(number),
        _ => None,
    }
}

// The text, if it is digits alone.
fn digits(text: &[u8]) -> Option<&str>
    ensures some { IfSome result (λ digits. (digits.now ≡ text.now) ×
        (spec.is_digits text.now ≡ true)) }
    ensures none { IfNone result (spec.is_digits text.now ≡ false) }
{
    if text.is_empty() || !are_digits(text) {
        return None;
    }
    let Ok(digits) = str::from_utf8(text) else {
        unreachable!()
    };
    Some(digits)
}

/// Whether a text has no byte but decimal digits.
pub(crate) fn are_digits(text: &[u8]) -> bool
    ensures { result ≡ all_ascii_digits text.now }
{
    let mut left = text;
    while let [first, rest @ ..] = left {
        if !first.is_ascii_digit() {
            return false;
        }
        left = rest;
    }
    true
}
