//! Conditions in a text.

ghost use Rattle.std.specs.Prelude.{◌≡◌, ◌+◌, ◌<◌, ◌≤◌, length, option_map, IfSome};
ghost use Rattle.expando.specs.Formats as spec;

use crate::letter::{Letter, letter_at};
use mail_base::{behind, behind_text, split_once};

/// A condition in a text: its letter, what stands between its last two question marks, how many
/// bytes stand before that, and what stands behind the condition.
#[derive(Drop)]
pub struct Condition<'a> {
    pub test: Letter<&'a [u8]>,
    pub inner: &'a [u8],
    pub front: usize,
    pub rest: &'a [u8],
}

// What stands before and behind the next question mark.
fn split_marked(text: &[u8]) -> Option<(&[u8], &[u8])>
    ensures value { option_map (λ p. (p.0.now, p.1.now)) result ≡ spec.marked text.now }
    ensures within { IfSome result (λ p. length p.0.now < length text.now) }
{
    split_once(b'?', text)
}

/// The condition at the front of a text.
pub fn condition_at<'a>(text: &'a [u8], letters: &[u8]) -> Option<Condition<'a>>
    ensures value { option_map spec.plain_condition result
        ≡ spec.condition_at letters.now text.now }
    ensures within { IfSome result (λ c. c.front + length c.inner.now < length text.now) }
{
    let asked = behind_text(b"%?", text)?;
    let (test, behind_test) = letter_at(asked, letters)?;
    let marked = behind(b'?', behind_test)?;
    let (inner, rest) = split_marked(marked)?;
    Some(Condition {
        test,
        inner,
        front: text.len() - marked.len(),
        rest,
    })
}

/// The two branches of what stands in a condition.
pub fn branches(inner: &[u8]) -> (&[u8], &[u8])
    ensures value { (result.0.now, result.1.now) ≡ spec.branches inner.now }
    ensures within { length result.0.now + length result.1.now ≤ length inner.now }
{
    match split_once(b'&', inner) {
        Some(parts) => parts,
        None => (inner, b""),
    }
}
