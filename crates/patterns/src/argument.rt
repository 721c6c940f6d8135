//! Arguments of patterns.

ghost use Rattle.std.specs.Prelude.{◌≡◌, ◌≤◌, ◌<◌, position, length, option_map, IfSome};
ghost use Rattle.patterns.specs.Arguments as spec;

use mail_base::{is_blank, split_once, without_blanks};

/// Whether the byte ends an argument without quotes.
pub fn is_end(byte: u8) -> bool
    ensures { result ≡ spec.is_end byte }
{
    is_blank(byte) || byte == b'|' || byte == b')'
}

// The place of the first byte that ends an argument.
fn plain_end(text: &[u8]) -> Option<usize>
    ensures value { result ≡ position spec.is_end text.now }
    ensures within { IfSome result (λ end. end < length text.now) }
{
    text.iter().position(|b| is_end(*b))
}

#[tactic(auto, using(mail_base::proofs::PlacesLemmas::place_or_len))]
fn plain_len(text: &[u8]) -> usize
    ensures value { result ≡ spec.plain_len text.now }
    ensures within { result ≤ length text.now }
{
    plain_end(text).unwrap_or(text.len())
}

/// The argument at the front of a text, behind blanks, and what follows it; nothing where its quote
/// is not closed.
pub fn read_argument(text: &[u8]) -> Option<(&[u8], &[u8])>
    ensures { option_map (λ p. (p.0.now, p.1.now)) result ≡ spec.argument text.now }
{
    argument_at(without_blanks(text))
}

/// The same at the front.
pub fn argument_at(text: &[u8]) -> Option<(&[u8], &[u8])>
    ensures { option_map (λ p. (p.0.now, p.1.now)) result ≡ spec.argument_at text.now }
{
    match text {
        [] => Some((text, text)),
        [b'"', rest @ ..] => split_once(b'"', rest),
        [b'\'', rest @ ..] => split_once(b'\'', rest),
        _ => Some(text.split_at(plain_len(text))),
    }
}
