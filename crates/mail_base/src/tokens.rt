//! Tokens of a structured field (RFC 2045, section 5.1).

ghost use Rattle.std.specs.Prelude.{◌≡◌, ◌≤◌, ◌<◌, length, not, position, IfSome};
ghost use Rattle.mail_base.specs.Tokens as spec;

fn is_special(byte: u8) -> bool
    ensures { result ≡ spec.is_special byte }
{
    b"()<>@,;:\\\"/[]?=".iter().any(|s| *s == byte)
}

/// Whether the byte may stand in a token.
pub fn is_token_byte(byte: u8) -> bool
    ensures { result ≡ spec.is_token_byte byte }
{
    b' ' < byte && byte < 127 && !is_special(byte)
}

// The place of the first byte that stands in no token.
fn token_end(text: &[u8]) -> Option<usize>
    ensures value { result ≡ position (λ b. not (spec.is_token_byte b)) text.now }
    ensures within { IfSome result (λ end. end < length text.now) }
{
    text.iter().position(|b| !is_token_byte(*b))
}

/// How many bytes of a token stand at the front.
#[tactic(auto, using(crate::proofs::PlacesLemmas::place_or_len))]
pub fn token_len(text: &[u8]) -> usize
    ensures value { result ≡ spec.token_len text.now }
    ensures within { result ≤ length text.now }
{
    token_end(text).unwrap_or(text.len())
}
