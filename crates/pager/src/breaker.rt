//! A line that is broken at its columns as it is written out.

ghost use Rattle.std.specs.Prelude.{◌≡◌, ◌++◌, ◌∷◌, ◌<◌, ◌≤◌, [], true, IfOk, OnOk, chars, drop};
ghost use Rattle.std.specs.Prelude.{◌-◌, length, not, position, take, IfSome};
ghost use Rattle.std.specs.Char.{is_control};
ghost use Rattle.std.specs.List.{list_all};
ghost use Rattle.expando.specs.Columns.{blanks};
ghost use Rattle.pager.specs.Broken.{broken, is_shown};
ghost use Rattle.pager.specs.Inner as spec;
ghost use Rattle.pager.specs.Written.{caret};

use crate::texts::Texts;
use expando::columns_of;
use mail_base::NoMemory;
use std::alloc::Global;
use std::marker::Model;

// A tab goes to the next multiple of these columns.
const TAB: usize = 8;

// So many bytes are tested at once, as many as most lines have, and before that a few, one by one.
const RUN: usize = 128;

const FEW: usize = 8;

/// Lines that are broken, and the one that is being broken.
#[derive(Drop)]
pub struct Breaker {
    texts: Texts,
    cols: usize,
    left: usize,
    past: usize,
}

impl Model for Breaker {
    ghost use Rattle.std.specs.Prelude.{◌<◌, ◌≤◌};
    ghost use Rattle.pager.specs.Inner.{PlainBreaker};

    ghost Value = { PlainBreaker };

    ghost view = { λ b. record {
      done = b.texts.done;
      current = b.texts.current;
      cols = b.cols;
      left = b.left;
      past = b.past;
    } };

    ghost invariant = { λ b. (b.past < 8) × (2 ≤ b.cols) };
}

impl Breaker {
    pub fn new(alloc: Global, cols: usize) -> Self
        requires { 2 ≤ cols }
        ensures { result ≡ spec.fresh cols [] }
    {
        Breaker {
            texts: Texts::new(alloc),
            cols,
            left: cols,
            past: 0,
        }
    }

    /// Makes room for so many more pieces and bytes.
    pub fn reserve(&mut self, pieces: usize, bytes: usize) -> Result<(), NoMemory>
        ensures { self.new ≡ self.old }
    {
        self.texts.reserve(pieces, bytes)
    }

    /// How many pieces there are.
    pub fn len(&self) -> usize
        ensures { result ≡ length self.now.done }
    {
        self.texts.len()
    }

    /// The pieces.
    pub fn into_texts(self) -> Texts
        ensures { result.done ≡ self.done }
    {
        self.texts
    }

    // Adds a character at the columns where it fits.
    fn put(&mut self, c: char) -> Result<(), NoMemory>
        ensures { OnOk result (self.new ≡ spec.put self.old c) }
    {
        let columns = columns_of(c);
        let past = (self.past + columns % TAB) % TAB;
        if columns <= self.left {
            self.texts.append_char(c)?;
            self.left -= columns;
        } else {
            self.texts.end()?;
            self.texts.append_char(c)?;
            self.left = self.cols.saturating_sub(columns);
        }
        self.past = past;
        Ok(())
    }

    fn put_blanks(&mut self, count: usize) -> Result<(), NoMemory>
        ensures { OnOk result (self.new ≡ spec.put_all self.old (blanks count)) }
    {
        for _i in 0..count {
            self.put(' ')?;
        }
        Ok(())
    }

    // Writes out a control character.
    fn put_caret(&mut self, c: char) -> Result<(), NoMemory>
        requires { is_control c ≡ true }
        ensures { OnOk result (self.new ≡ spec.put_all self.old (caret c)) }
    {
        self.put('^')?;
        self.put(caret_char(c))?;
        Ok(())
    }

    // Writes out a character.
    fn put_shown(&mut self, c: char) -> Result<(), NoMemory>
        ensures { OnOk result (self.new ≡ spec.put_shown self.old c) }
    {
        if c == '\t' {
            self.put_blanks(TAB - self.past)?;
        } else if c.is_control() {
            self.put_caret(c)?;
        } else if self.cols < columns_of(c) {
            self.put(' ')?;
        } else {
            self.put(c)?;
        }
        Ok(())
    }

    // Ends the line.
    fn end_line(&mut self) -> Result<(), NoMemory>
        ensures { OnOk result
            (self.new ≡ spec.fresh self.old.cols (self.old.done ++ self.old.current ∷ [])) }
    {
        self.texts.end()?;
        self.left = self.cols;
        self.past = 0;
        Ok(())
    }

    // Ends a piece in which no column is left.
    fn make_room(&mut self) -> Result<(), NoMemory>
        ensures { OnOk result (self.new ≡ spec.with_room self.old) }
    {
        if self.left > 0 {
            return Ok(());
        }
        self.texts.end()?;
        self.left = self.cols;
        Ok(())
    }

    // Adds as many printable characters as fit a piece, and gives the others.
    fn put_run<'a>(&mut self, text: &'a [u8]) -> Result<&'a [u8], NoMemory>
        requires some { 0 < length text.now }
        requires printable { list_all spec.is_printable text.now ≡ true }
        ensures shorter { IfOk result (λ rest. length rest.now < length text.now) }
        ensures printable { IfOk result (λ rest. list_all spec.is_printable rest.now ≡ true) }
        ensures put { IfOk result
            (λ rest. spec.put_all self.new rest.now ≡ spec.put_all self.old text.now) }
    {
        self.make_room()?;
        let count = self.left.min(text.len());
        let (run, rest) = text.split_at(count);
        self.texts.append(run)?;
        self.left -= count;
        self.past = (self.past + count % TAB) % TAB;
        Ok(rest)
    }

    // Adds printable characters.
    fn put_printable(&mut self, text: &[u8]) -> Result<(), NoMemory>
        requires { list_all spec.is_printable text.now ≡ true }
        ensures { OnOk result (self.new ≡ spec.put_all self.old text.now) }
    {
        let mut rest = text;
        while !rest.is_empty() {
            rest = self.put_run(rest)?;
        }
        Ok(())
    }

    // Writes out the first character of a text, and gives the others.
    fn put_first<'a>(&mut self, text: &'a str) -> Result<&'a str, NoMemory>
        ensures shorter { IfOk result (λ rest. length rest.now ≤ length text.now - 1) }
        ensures put { IfOk result (λ rest. spec.put_text self.new (chars rest.now)
            ≡ spec.put_text self.old (chars text.now)) }
    {
        let mut left = text.chars();
        let Some(c) = left.next() else {
            return Ok("");
        };
        self.put_shown(c)?;
        Ok(left.as_str())
    }

    // Writes out the printable characters at the front of a text and the one behind them, and gives
    // the others.
    fn put_front<'a>(&mut self, text: &'a str) -> Result<&'a str, NoMemory>
        ensures shorter { IfOk result (λ rest. length rest.now ≤ length text.now - 1) }
        ensures put { IfOk result (λ rest. spec.put_text self.new (chars rest.now)
            ≡ spec.put_text self.old (chars text.now)) }
    {
        // A field that is read tells that a wide character has room in the columns.
        let _ = &self.cols;
        let (run, rest) = split_printable(text);
        self.put_printable(run.as_bytes())?;
        self.put_first(rest)
    }

    // Writes out a text; printable characters of US-ASCII stand as they are.
    fn put_text(&mut self, text: &str) -> Result<(), NoMemory>
        ensures { OnOk result (self.new ≡ spec.put_text self.old (chars text.now)) }
    {
        let mut rest = text;
        while !rest.is_empty() {
            rest = self.put_front(rest)?;
        }
        Ok(())
    }

    /// Breaks a line.
    pub fn break_line(&mut self, line: &str) -> Result<(), NoMemory>
        requires { self.old ≡ spec.fresh self.old.cols self.old.done }
        ensures pieces { OnOk result (self.new
            ≡ spec.fresh self.old.cols (self.old.done ++ broken self.old.cols line.now)) }
        ensures shown { list_all (is_shown self.old.cols) (broken self.old.cols line.now) ≡ true }
    {
        // As in `put_front`.
        let _ = &self.cols;
        self.put_text(line)?;
        self.end_line()?;
        Ok(())
    }
}

// The place of the first byte that is no printable character of US-ASCII.
fn unprintable_at(text: &[u8]) -> Option<usize>
    ensures value { result ≡ position (λ b. not (spec.is_printable b)) text.now }
    ensures within { IfSome result (λ at. at < length text.now) }
{
    text.iter().position(|b| !(*b >= b' ' && *b <= b'~'))
}

// Whether each byte is a printable character of US-ASCII. No byte ends the loop, so that many are
// tested at once.
fn is_printable(text: &[u8]) -> bool
    ensures { result ≡ list_all spec.is_printable text.now }
{
    let mut all = true;
    for b in text {
        all &= *b >= b' ' && *b <= b'~';
    }
    all
}

// The first so many bytes, or all.
fn front_of(text: &[u8], count: usize) -> &[u8]
    ensures front { result.now ≡ take (length result.now) text.now }
    ensures within { length result.now ≤ length text.now }
{
    let (front, _) = text.split_at(count.min(text.len()));
    front
}

// How many printable characters of US-ASCII stand at the front.
fn run_len(text: &[u8]) -> usize
    ensures within { result ≤ length text.now }
    ensures printable { list_all spec.is_printable (take result text.now) ≡ true }
{
    match unprintable_at(text) {
        Some(at) => at,
        None => text.len(),
    }
}

// How many printable characters of US-ASCII stand at the front; where there are many, some of them.
fn printable_len(text: &[u8]) -> usize
    ensures within { result ≤ length text.now }
    ensures printable { list_all spec.is_printable (take result text.now) ≡ true }
{
    let few = front_of(text, FEW);
    let short = run_len(few);
    if short < few.len() {
        return short;
    }
    let run = front_of(text, RUN);
    if is_printable(run) {
        return run.len();
    }
    run_len(text)
}

// The printable characters of US-ASCII at the front of a text, and what follows them.
fn split_printable(text: &str) -> (&str, &str)
    ensures whole { text.now ≡ result.0.now ++ result.1.now }
    ensures printable { list_all spec.is_printable result.0.now ≡ true }
{
    text.split_at(printable_len(text.as_bytes()))
}

// The character that stands behind `^` for a control character.
fn caret_char(c: char) -> char
    requires { is_control c ≡ true }
    ensures { caret c ≡ 94 ∷ result ∷ [] }
{
    if c == '\x7f' {
        '?'
    } else {
        (c as u8 + 64) as char
    }
}
