//! Numbers as they are written where no leading zero may stand: decimal digits alone.

ghost use Rattle.std.specs.Prelude.{◌≡◌, true, false, IfSome, IfNone};
ghost use Rattle.mail_base.specs.Number as spec;

use crate::decimal::are_digits;

/// The text, if it is a number: decimal digits alone, the first of several no zero.
pub fn number_text(text: &[u8]) -> Option<&str>
    ensures some { IfSome result
        (λ digits. (digits.now ≡ text.now) × (spec.is_number text.now ≡ true)) }
    ensures none { IfNone result (spec.is_number text.now ≡ false) }
{
    if !is_number(text) {
        return None;
    }
    let Ok(digits) = str::from_utf8(text) else {
        unreachable!()
    };
    Some(digits)
}

fn is_number(text: &[u8]) -> bool
    ensures { result ≡ spec.is_number text.now }
{
    match text {
        [] => false,
        [_] => are_digits(text),
        [first, ..] => *first != b'0' && are_digits(text),
    }
}
