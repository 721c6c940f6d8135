//! The tokens of a pattern.

ghost use Rattle.std.specs.Prelude.{◌≡◌, ◌+◌, ◌<◌, ◌≤◌, ◌^◌, length, option_map, false};
ghost use Rattle.patterns.specs.Dates.{days_of};
ghost use Rattle.patterns.specs.Faults.{reading_map};
ghost use Rattle.patterns.specs.Tokens as spec;

use crate::argument::argument_at;
use crate::date_range::read_days;
use crate::fault::Fault;
use crate::range_text::{Measure, read_range};
use jiff::civil::Date;
use mail_base::without_blanks;
use patterns_match::{Day, Field, Letter, Mark, Number, Range, Relation, read_letter};

/// What a term asks without asking other terms.
#[derive(Clone, Copy)]
pub enum Leaf<'a> {
    Tells(Mark),
    /// Where a text is searched for, and whether it is no expression.
    Searches(Field, bool, &'a [u8]),
    Dated(Day, Range<Date>),
    Counts(Number, Range<u64>),
}

/// What stands next in a pattern, but blanks.
#[derive(Clone, Copy)]
pub enum Token<'a> {
    Open(Option<Relation>),
    Close,
    Bar,
    Bang,
    Term(Leaf<'a>),
}

fn measure_of(number: Number) -> Measure
    ensures { result ≡ spec.measure_of number }
{
    match number {
        Number::Bytes => Measure::Size,
        Number::Place | Number::Score | Number::Attachments => Measure::Count,
    }
}

// Nothing stands there, not even quotes.
fn is_missing(argument: &[u8], text: &[u8]) -> bool
    ensures { result ≡ spec.is_missing argument.now text.now }
{
    argument.is_empty() && !matches!(text, [b'"', ..] | [b'\'', ..])
}

fn missing_fault(letter: Letter, place: usize) -> Fault
    ensures { result ≡ spec.missing_fault letter place }
{
    match letter {
        Letter::Tells(_) => Fault::Empty,
        Letter::Searches(_) => Fault::Empty,
        Letter::Dated(_) => Fault::BadDate(place),
        Letter::Counts(_) => Fault::BadRange(place),
    }
}

// The term of a letter and its argument, which stands at this place.
fn leaf_of<'a>(
    today: Date,
    plain: bool,
    letter: Letter,
    place: usize,
    text: &'a [u8],
) -> Result<Leaf<'a>, Fault>
    ensures { reading_map spec.plain_leaf result
        ≡ spec.leaf_of (days_of today) plain letter place text.now }
{
    match letter {
        Letter::Tells(mark) => Ok(Leaf::Tells(mark)),
        Letter::Searches(field) => Ok(Leaf::Searches(field, plain, text)),
        Letter::Dated(day) => match read_days(today, text) {
            Some(range) => Ok(Leaf::Dated(day, range)),
            None => Err(Fault::BadDate(place)),
        },
        Letter::Counts(number) => match read_range(measure_of(number), text) {
            Some(range) => Ok(Leaf::Counts(number, range)),
            None => Err(Fault::BadRange(place)),
        },
    }
}

// The parenthesis of a relation, and what follows it.
fn relation_at(text: &[u8]) -> Option<(Relation, &[u8])>
    ensures { option_map (λ p. (p.0, p.1.now)) result ≡ spec.relation_at text.now }
{
    match text {
        [b'(', rest @ ..] => Some((Relation::Thread, rest)),
        [b'<', b'(', rest @ ..] => Some((Relation::Parent, rest)),
        [b'>', b'(', rest @ ..] => Some((Relation::Child, rest)),
        _ => None,
    }
}

// The term of a letter whose argument stands at the front of a text.
fn with_argument<'a>(
    today: Date,
    plain: bool,
    letter: Letter,
    place: usize,
    text: &'a [u8],
) -> Result<(Token<'a>, &'a [u8]), Fault>
    ensures { reading_map spec.plain_read result
        ≡ spec.with_argument (days_of today) plain letter place text.now }
{
    let Some((argument, rest)) = argument_at(text) else {
        return Err(Fault::Unbalanced(place));
    };
    if is_missing(argument, text) {
        return Err(missing_fault(letter, place));
    }
    match leaf_of(today, plain, letter, place, argument) {
        Ok(leaf) => Ok((Token::Term(leaf), rest)),
        Err(fault) => Err(fault),
    }
}

// The term of a letter, behind which a text stands at a place.
fn term_of<'a>(
    today: Date,
    plain: bool,
    letter: Letter,
    place: usize,
    text: &'a [u8],
) -> Result<(Token<'a>, &'a [u8]), Fault>
    requires { place + length text.now < 2 ^ 64 }
    ensures { reading_map spec.plain_read result
        ≡ spec.term_of (days_of today) plain letter place text.now }
{
    if let Letter::Tells(mark) = letter {
        return Ok((Token::Term(Leaf::Tells(mark)), text));
    }
    let argument = without_blanks(text);
    let at = place + (text.len() - argument.len());
    with_argument(today, plain, letter, at, argument)
}

// What stands behind `~` or `=` at a place, which has no relation.
fn letter_at<'a>(
    today: Date,
    plain: bool,
    place: usize,
    text: &'a [u8],
) -> Result<(Token<'a>, &'a [u8]), Fault>
    requires { place + length text.now < 2 ^ 64 }
    ensures { reading_map spec.plain_read result
        ≡ spec.letter_at (days_of today) plain place text.now }
{
    let [sign, rest @ ..] = text else {
        return Err(Fault::UnknownLetter(place));
    };
    match read_letter(*sign) {
        Some(letter) => term_of(today, plain, letter, place + 1, rest),
        None => Err(Fault::UnknownLetter(place)),
    }
}

// What stands behind `~` or `=` at a place.
fn sign_at<'a>(
    today: Date,
    plain: bool,
    place: usize,
    text: &'a [u8],
) -> Result<(Token<'a>, &'a [u8]), Fault>
    requires { place + length text.now < 2 ^ 64 }
    ensures { reading_map spec.plain_read result
        ≡ spec.sign_at (days_of today) plain place text.now (spec.relation_at text.now) }
{
    match relation_at(text) {
        Some((relation, rest)) => Ok((Token::Open(Some(relation)), rest)),
        None => letter_at(today, plain, place, text),
    }
}

/// The token that a byte begins, which is no blank, with what follows it.
pub fn read_token<'a>(
    today: Date,
    place: usize,
    first: u8,
    rest: &'a [u8],
) -> Result<(Token<'a>, &'a [u8]), Fault>
    requires { place + 1 + length rest.now < 2 ^ 64 }
    ensures { reading_map spec.plain_read result
        ≡ spec.token_at (days_of today) place first rest.now }
{
    match first {
        b'(' => Ok((Token::Open(None), rest)),
        b')' => Ok((Token::Close, rest)),
        b'|' => Ok((Token::Bar, rest)),
        b'!' => Ok((Token::Bang, rest)),
        b'~' => sign_at(today, false, place + 1, rest),
        b'=' => sign_at(today, true, place + 1, rest),
        _ => Err(Fault::UnknownLetter(place)),
    }
}
