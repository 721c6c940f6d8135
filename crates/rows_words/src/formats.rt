//! Cases of formats and of the lines that they make.

ghost use Rattle.std.specs.Prelude.{◌≡◌, List, ℕ, [], slice_get};
ghost use Rattle.std.specs.Option.{option_map_or};
ghost use Rattle.mail_base.specs.Shown.{utf8_text};

use case_files::{Answer, Case, CaseFault, Entry, Subject};
use expando::{Format, FormatError, Values, read_format, render};
use mail_base::{Bytes, Line, NoMemory, Series, append_utf8, behind};
use std::alloc::Global;

/// `format` is a format that may have `letters`, and `cols` the columns of the line that is made of
/// it. Each `value` is a letter, `=` and its text; behind `{` and `[` the text is followed by the
/// format of the date as it stands.
pub struct Formats;

impl Subject for Formats {
    fn inputs(&self) -> &[&[u8]] {
        &[b"format", b"letters", b"cols", b"value"]
    }

    fn answer(&self, alloc: Global, case: &Case, answer: &mut Answer) -> Result<(), CaseFault> {
        let text = case.need(b"format")?;
        let letters = case.need(b"letters")?;
        match read_format(alloc, text, letters) {
            Ok(format) => put_line(alloc, case, &format, answer),
            Err(FormatError::BadFormat(place)) => answer.put_count(b"bad", place),
            Err(FormatError::NoMemory) => Err(CaseFault::NoMemory),
        }
    }
}

fn put_line(
    alloc: Global,
    case: &Case,
    format: &Format,
    answer: &mut Answer,
) -> Result<(), CaseFault> {
    let cols = case.number(b"cols")?.unwrap_or(80);
    let line = line_of(alloc, case, format, u16::try_from(cols).unwrap_or(u16::MAX))?;
    answer.put(b"line", line.as_slice())
}

fn line_of(alloc: Global, case: &Case, format: &Format, cols: u16) -> Result<Line, NoMemory> {
    let values = Texts::of_case(alloc, case)?;
    render(alloc, format, &values, cols)
}

/// The texts of all letters.
#[derive(Drop)]
struct Texts {
    texts: Series<Bytes>,
}

impl Texts {
    fn of_case(alloc: Global, case: &Case) -> Result<Texts, NoMemory> {
        let mut texts = Series::new(alloc);
        for letter in 0..=u8::MAX {
            push_text(alloc, case, letter, &mut texts)?;
        }
        Ok(Texts { texts })
    }

    fn find(&self, letter: u8) -> &[u8]
        ensures { result.now
            ≡ option_map_or (λ text. text.items) (slice_get self.now.texts.items letter) [] }
    {
        match self.texts.get(usize::from(letter)) {
            Some(text) => text.as_slice(),
            None => b"",
        }
    }
}

fn push_text(
    alloc: Global,
    case: &Case,
    letter: u8,
    texts: &mut Series<Bytes>,
) -> Result<(), NoMemory> {
    texts.push(Bytes::copy_of(alloc, text_in(case, letter))?)
}

/// The text of a letter in a case, which is empty where none is given.
fn text_in<'a>(case: &'a Case, letter: u8) -> &'a [u8] {
    for entry in case.entries.as_slice() {
        if let Some(text) = text_of(entry, letter) {
            return text;
        }
    }
    b""
}

/// The text of the letter, where this entry gives it.
fn text_of(entry: &Entry, letter: u8) -> Option<&[u8]> {
    if entry.key.as_slice() != b"value".as_slice() {
        return None;
    }
    behind(b'=', behind(letter, entry.value.as_slice())?)
}

impl Values for Texts {
    ghost use Rattle.std.specs.Prelude.{◌++◌, [], slice_get};
    ghost use Rattle.std.specs.Option.{option_map_or};
    ghost use Rattle.mail_base.specs.Shown.{utf8_text};

    ghost texts = { λ t letter inner. utf8_text (option_map_or (λ text. text.items)
        (slice_get t.texts.items letter) []) ++ utf8_text inner };

    fn text(&self, alloc: Global, letter: u8, inner: &[u8]) -> Result<Line, NoMemory> {
        let mut line = Line::new(alloc);
        append_utf8(&mut line, self.find(letter))?;
        append_utf8(&mut line, inner)?;
        Ok(line)
    }
}
