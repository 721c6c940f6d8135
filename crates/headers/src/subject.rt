//! Subjects without what replies put before them (RFC 5322, section 3.6.5).

ghost use Rattle.std.specs.Prelude.{◌≡◌, ◌<◌, ◌≤◌, not, position, length, option_map, IfOk, IfSome};
ghost use Rattle.std.specs.Char.{is_ascii_digit};
ghost use Rattle.headers.specs.Subject as spec;

use mail_base::{Line, NoMemory, behind, without_blanks};
use std::alloc::Global;

// What follows two letters, which may be of either case.
fn behind_letters(x: u8, y: u8, text: &[u8]) -> Option<&[u8]>
    ensures value { option_map (λ r. r.now) result ≡ spec.behind_letters x y text.now }
    ensures shorter { IfSome result (λ rest. length rest.now < length text.now) }
{
    match text {
        [a, b, rest @ ..] if a.to_ascii_lowercase() == x && b.to_ascii_lowercase() == y => Some(
            rest,
        ),
        _ => None,
    }
}

// The place of the first byte that is no digit.
fn digits_end(text: &[u8]) -> Option<usize>
    ensures value { result ≡ position (λ b. not (is_ascii_digit b)) text.now }
    ensures within { IfSome result (λ end. end < length text.now) }
{
    text.iter().position(|b| !b.is_ascii_digit())
}

#[tactic(auto, using(mail_base::proofs::PlacesLemmas::place_or_len))]
fn digits_len(text: &[u8]) -> usize
    ensures value { result ≡ spec.digits_len text.now }
    ensures within { result ≤ length text.now }
{
    digits_end(text).unwrap_or(text.len())
}

// What follows a number in square brackets.
fn behind_number(text: &[u8]) -> Option<&[u8]>
    ensures value { option_map (λ r. r.now) result ≡ spec.behind_number text.now }
    ensures shorter { IfSome result (λ rest. length rest.now < length text.now) }
{
    let text = behind(b'[', text)?;
    let (digits, rest) = text.split_at(digits_len(text));
    if digits.is_empty() {
        return None;
    }
    behind(b']', rest)
}

// What follows `re`, which a number may follow.
fn behind_re(text: &[u8]) -> Option<&[u8]>
    ensures value { option_map (λ r. r.now) result ≡ spec.behind_re text.now }
    ensures shorter { IfSome result (λ rest. length rest.now < length text.now) }
{
    let rest = behind_letters(b'r', b'e', text)?;
    match behind_number(rest) {
        Some(rest) => Some(rest),
        None => Some(rest),
    }
}

// What follows the letters of a reply prefix.
fn behind_reply(text: &[u8]) -> Option<&[u8]>
    ensures value { option_map (λ r. r.now) result
        ≡ spec.behind_reply text.now }
    ensures shorter { IfSome result (λ rest. length rest.now < length text.now) }
{
    match behind_re(text) {
        Some(rest) => Some(rest),
        None => behind_letters(b'a', b'w', text),
    }
}

// What follows a reply prefix with its colon and blanks.
fn behind_prefix(text: &[u8]) -> Option<&[u8]>
    ensures value { option_map (λ r. r.now) result ≡ spec.behind_prefix text.now }
    ensures shorter { IfSome result (λ rest. length rest.now < length text.now) }
{
    let rest = behind(b':', behind_reply(text)?)?;
    Some(without_blanks(rest))
}

/// Whether the subject begins with a reply prefix.
pub fn has_prefix(subject: &[u8]) -> bool
    ensures { result ≡ spec.has_prefix subject.now }
{
    behind_prefix(subject).is_some()
}

/// The subject without its reply prefixes.
pub fn base_of(alloc: Global, subject: &Line) -> Result<Line, NoMemory>
    ensures { IfOk result (λ l. l.items ≡ spec.base_of subject.now.items) }
{
    let mut left = subject.as_slice();
    while let Some(rest) = behind_prefix(left) {
        left = rest;
    }
    Line::copy_of(alloc, left)
}
