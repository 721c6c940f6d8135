//! Bytes as two hexadecimal digits.

ghost use Rattle.std.specs.Prelude.{◌≡◌, ◌<◌, length, option_map, IfSome};
ghost use Rattle.mail_base.specs.Hex as spec;

/// The value of a hexadecimal digit, in either case.
pub fn hex_value(digit: u8) -> Option<u8>
    ensures value { result ≡ spec.hex_value digit }
    ensures small { IfSome result (λ value. value < 16) }
{
    let value = char::from(digit).to_digit(16)?;
    Some(value as u8)
}

/// The byte that two hexadecimal digits write, and what follows them.
pub fn read_hex_byte(text: &[u8]) -> Option<(u8, &[u8])>
    ensures value { option_map (λ p. (p.0, p.1.now)) result ≡ spec.hex_byte text.now }
    ensures shorter { IfSome result (λ p. length p.1.now < length text.now) }
{
    let [high, low, rest @ ..] = text else {
        return None;
    };
    let high = hex_value(*high)?;
    let low = hex_value(*low)?;
    Some((high * 16 + low, rest))
}
