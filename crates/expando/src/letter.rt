//! The letter of a field, with the format of a date in brackets where it has one.

ghost use Rattle.std.specs.Prelude.{◌≡◌, ◌==◌, ◌≤◌, false, length, option_map, IfOk, IfSome};
ghost use Rattle.std.specs.List.{list_any};
ghost use Rattle.expando.specs.Letters as spec;

use mail_base::{Bytes, NoMemory, split_once};
use std::alloc::Global;

/// The letter of a field. `inner` is the format of a date behind the letters `{` and `[`, and is
/// empty behind all others.
#[derive(Drop)]
pub struct Letter<I> {
    pub sign: u8,
    pub inner: I,
}

// Whether a percent sign may stand before the letter in the format of a date.
fn is_date_letter(byte: u8) -> bool
    ensures { result ≡ spec.is_date_letter byte }
{
    b"aAbBdeHjmMSyY%".iter().any(|l| *l == byte)
}

// Whether each percent sign stands before such a letter.
fn is_date_text(text: &[u8]) -> bool
    ensures { result ≡ spec.is_date_text false text.now }
{
    let mut left = text;
    let mut open = false;
    while let [first, rest @ ..] = left {
        if open && !is_date_letter(*first) {
            return false;
        }
        open = !open && *first == b'%';
        left = rest;
    }
    !open
}

// A format of a date up to the bracket that closes it.
fn date_at(sign: u8, bracket: u8, text: &[u8]) -> Option<(Letter<&[u8]>, &[u8])>
    ensures value { option_map (λ p. (spec.letter_map (λ i. i.now) p.0, p.1.now)) result
        ≡ spec.date_at sign bracket text.now }
    ensures shorter { IfSome result (λ p. length p.1.now ≤ length text.now) }
{
    let (inner, rest) = split_once(bracket, text)?;
    if is_date_text(inner) {
        Some((Letter { sign, inner }, rest))
    } else {
        None
    }
}

// A letter, with its format of a date behind a bracket.
fn letter_behind(sign: u8, rest: &[u8]) -> Option<(Letter<&[u8]>, &[u8])>
    ensures value { option_map (λ p. (spec.letter_map (λ i. i.now) p.0, p.1.now)) result
        ≡ spec.letter_behind sign rest.now }
    ensures shorter { IfSome result (λ p. length p.1.now ≤ length rest.now) }
{
    match sign {
        b'{' => date_at(sign, b'}', rest),
        b'[' => date_at(sign, b']', rest),
        _ => Some((Letter { sign, inner: b"" }, rest)),
    }
}

fn is_among(sign: u8, letters: &[u8]) -> bool
    ensures { result ≡ list_any (λ l. l == sign) letters.now }
{
    letters.iter().any(|l| *l == sign)
}

/// The letter at the front, which is one of these, and what follows it.
pub fn letter_at<'a>(text: &'a [u8], letters: &[u8]) -> Option<(Letter<&'a [u8]>, &'a [u8])>
    ensures value { option_map (λ p. (spec.letter_map (λ i. i.now) p.0, p.1.now)) result
        ≡ spec.letter_at letters.now text.now }
    ensures shorter { IfSome result (λ p. length p.1.now ≤ length text.now) }
{
    match text {
        [sign, rest @ ..] if is_among(*sign, letters) => letter_behind(*sign, rest),
        _ => None,
    }
}

/// The same with its format of a date in a list of its own.
pub fn owned_letter(alloc: Global, letter: Letter<&[u8]>) -> Result<Letter<Bytes>, NoMemory>
    ensures { IfOk result (λ l. spec.letter_map (λ i. i.items) l
        ≡ spec.letter_map (λ i. i.now) letter.entry) }
{
    let Letter { sign, inner } = letter;
    let inner = Bytes::copy_of(alloc, inner)?;
    Ok(Letter { sign, inner })
}
