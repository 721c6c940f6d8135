//! A field of a line: a letter, and the columns that its text takes.

ghost use Rattle.std.specs.Prelude.{◌≡◌, option_map, IfOk};
ghost use Rattle.expando.specs.Fields as spec;

use crate::letter::{Letter, letter_at, owned_letter};
use crate::number::{NO_LIMIT, digits_at, number_of, width_of};
use mail_base::{Bytes, NoMemory};
use std::alloc::Global;

/// A field of a line: the text of a letter in at least `width` columns, to their left or to their
/// right, and cut at `limit` columns.
#[derive(Drop)]
pub struct Field<I> {
    pub letter: Letter<I>,
    pub left: bool,
    pub width: usize,
    pub limit: usize,
}

// Whether the text stands to the left of its columns, and what follows.
fn side_at(text: &[u8]) -> (bool, &[u8])
    ensures { (result.0, result.1.now) ≡ spec.side_at text.now }
{
    match text {
        [b'-', rest @ ..] => (true, rest),
        _ => (false, text),
    }
}

// The least columns, and what follows.
fn width_at(text: &[u8]) -> Option<(usize, &[u8])>
    ensures { option_map (λ p. (p.0, p.1.now)) result ≡ spec.width_at text.now }
{
    let (digits, rest) = digits_at(text);
    let width = width_of(digits)?;
    Some((width, rest))
}

fn limit_behind(text: &[u8]) -> Option<(usize, &[u8])>
    ensures { option_map (λ p. (p.0, p.1.now)) result ≡ spec.limit_behind text.now }
{
    let (digits, rest) = digits_at(text);
    let limit = number_of(digits)?;
    Some((limit, rest))
}

// The most columns, and what follows.
fn limit_at(text: &[u8]) -> Option<(usize, &[u8])>
    ensures { option_map (λ p. (p.0, p.1.now)) result ≡ spec.limit_at text.now }
{
    match text {
        [b'.', rest @ ..] => limit_behind(rest),
        _ => Some((NO_LIMIT, text)),
    }
}

/// The field behind a percent sign, with one of these letters, and what follows it.
pub fn field_at<'a>(text: &'a [u8], letters: &[u8]) -> Option<(Field<&'a [u8]>, &'a [u8])>
    ensures { option_map (λ p. (spec.field_map (λ i. i.now) p.0, p.1.now)) result
        ≡ spec.field_at letters.now text.now }
{
    let (left, rest) = side_at(text);
    let (width, rest) = width_at(rest)?;
    let (limit, rest) = limit_at(rest)?;
    let (letter, rest) = letter_at(rest, letters)?;
    let field = Field {
        letter,
        left,
        width,
        limit,
    };
    Some((field, rest))
}

/// The same with its format of a date in a list of its own.
pub fn owned_field(alloc: Global, field: Field<&[u8]>) -> Result<Field<Bytes>, NoMemory>
    ensures { IfOk result (λ d. spec.field_map (λ i. i.items) d
        ≡ spec.field_map (λ i. i.now) field.entry) }
{
    let Field {
        letter,
        left,
        width,
        limit,
    } = field;
    let letter = owned_letter(alloc, letter)?;
    Ok(Field {
        letter,
        left,
        width,
        limit,
    })
}
