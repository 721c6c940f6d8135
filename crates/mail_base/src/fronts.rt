//! What follows the front of a text.

ghost use Rattle.std.specs.Prelude.{◌≡◌, ◌<◌, ◌≤◌, length, option_map, IfSome};
ghost use Rattle.mail_base.specs.Fronts as spec;

/// What follows the byte, where it stands at the front.
pub fn behind(byte: u8, text: &[u8]) -> Option<&[u8]>
    ensures value { option_map (λ r. r.now) result ≡ spec.behind byte text.now }
    ensures shorter { IfSome result (λ rest. length rest.now < length text.now) }
{
    match text {
        [first, rest @ ..] if *first == byte => Some(rest),
        _ => None,
    }
}

/// What follows the front, where the text begins with it.
pub fn behind_text<'a>(front: &[u8], text: &'a [u8]) -> Option<&'a [u8]>
    ensures value { option_map (λ r. r.now) result ≡ spec.behind_text front.now text.now }
    ensures shorter { IfSome result (λ rest. length rest.now ≤ length text.now) }
{
    text.strip_prefix(front)
}
