//! The first place of a byte in a text, and what stands round a place.

ghost use Rattle.std.specs.Prelude.{◌≡◌, ◌==◌, ◌<◌, length, position, option_map, IfSome};
ghost use Rattle.mail_base.specs.Places as spec;

use memchr::memchr;

/// The first place of the byte.
pub fn place_of(byte: u8, text: &[u8]) -> Option<usize>
    ensures value { result ≡ position (λ b. b == byte) text.now }
    ensures within { IfSome result (λ place. place < length text.now) }
{
    memchr(byte, text)
}

/// What stands before and behind a place.
pub fn split_around<T>(items: &[T], place: usize) -> (&[T], &[T])
    requires { place < length items.now }
    ensures value { (result.0.now, result.1.now) ≡ spec.around items.now place }
    ensures shorter { length result.1.now < length items.now }
{
    let (before, tail) = items.split_at(place);
    let (_, behind) = tail.split_at(1);
    (before, behind)
}

/// What stands before and behind the first such byte.
pub fn split_once(byte: u8, text: &[u8]) -> Option<(&[u8], &[u8])>
    ensures value { option_map (λ p. (p.0.now, p.1.now)) result ≡ spec.split_once byte text.now }
    ensures shorter { IfSome result (λ p. length p.1.now < length text.now) }
{
    let place = place_of(byte, text)?;
    Some(split_around(text, place))
}
