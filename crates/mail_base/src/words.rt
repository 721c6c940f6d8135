//! Words, with blanks between them.

ghost use Rattle.std.specs.Prelude.{◌≡◌, ◌<◌, ◌≤◌, IfSome, length, position};
ghost use Rattle.mail_base.specs.Blanks.{is_blank as is_blank_byte};
ghost use Rattle.mail_base.specs.Words as spec;

use crate::{is_blank, without_blanks};

/// The place of the first blank.
pub fn blank_at(text: &[u8]) -> Option<usize>
    ensures value { result ≡ position is_blank_byte text.now }
    ensures within { IfSome result (λ at. at < length text.now) }
{
    text.iter().position(|b| is_blank(*b))
}

/// The bytes up to the first blank.
pub fn first_word(text: &[u8]) -> &[u8]
    ensures value { result.now ≡ spec.first_word text.now }
    ensures shorter { length result.now ≤ length text.now }
{
    match blank_at(text) {
        Some(at) => &text[..at],
        None => text,
    }
}

/// What stands behind the first word and the blanks after it.
pub fn behind_word(text: &[u8]) -> &[u8]
    ensures value { result.now ≡ spec.behind_word text.now }
    ensures shorter { length result.now ≤ length text.now }
{
    match blank_at(text) {
        Some(at) => without_blanks(&text[at + 1..]),
        None => &[],
    }
}
