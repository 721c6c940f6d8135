//! Numbers as values of variables.

ghost use Rattle.std.specs.Prelude.{◌≡◌};
ghost use Rattle.rc_lang.specs.Numbers as spec;

use mail_base::read_decimal;

/// The number, if the text is decimal digits without a leading zero and the number is at most
/// `most`.
pub fn number_within(most: u32, text: &[u8]) -> Option<u32>
    ensures { result ≡ spec.number_within most text.now }
{
    if let [b'0', _, ..] = text {
        return None;
    }
    read_decimal(text, 0, most)
}
