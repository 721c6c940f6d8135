//! What commands tell, on the fault stream or on the last line, by where they come from.

ghost use Rattle.std.specs.Prelude.{◌≡◌, ◌++◌, IfOk, OnOk, codes};
ghost use Rattle.std.specs.Fmt.{decimal};
ghost use Rattle.mail_base.specs.Series.{plain_texts};
ghost use Rattle.mail_base.specs.Shown.{utf8_text};
ghost use Rattle.rc_lang_words.specs.Faults.{fault_text, plain_error};
ghost use Rattle.session_state.specs.Told as spec;

use crate::frame::Origin;
use mail_base::{Bytes, Line, Lines, NoMemory, append_utf8};
use rc_lang::RcError;
use std::alloc::Global;

/// What commands told.
#[derive(Drop)]
pub struct Told {
    /// Lines for the fault stream, `FILE:LINE: CAUSE`.
    pub notes: Lines,
    /// What the last line shows, where that changes.
    pub shown: Option<Line>,
}

// Adds the file, the line and the cause of a faulty command.
fn append_note(
    alloc: Global,
    text: &mut Bytes,
    file: &Line,
    line: u32,
    error: &RcError,
) -> Result<(), NoMemory>
    ensures { OnOk result (text.new.items ≡ text.old.items ++ file.now.items ++ codes ":"
        ++ decimal line ++ codes ": " ++ fault_text (plain_error error.now)) }
{
    text.append(file.as_slice())?;
    text.append(b":")?;
    text.append(line.to_string(alloc)?.as_bytes())?;
    text.append(b": ")?;
    text.append(error.text(alloc)?.as_slice())
}

// The text of a faulty command for the fault stream.
fn note_text(alloc: Global, file: &Line, line: u32, error: &RcError) -> Result<Line, NoMemory>
    ensures { IfOk result (λ note. note.items
        ≡ spec.note_of file.now.items line (plain_error error.now)) }
{
    let mut text = Bytes::new(alloc);
    append_note(alloc, &mut text, file, line, error)?;
    let mut note = Line::new(alloc);
    append_utf8(&mut note, text.as_slice())?;
    Ok(note)
}

// The text of a fault.
fn fault_line(alloc: Global, error: &RcError) -> Result<Line, NoMemory>
    ensures { IfOk result (λ line. line.items ≡ utf8_text (fault_text (plain_error error.now))) }
{
    let mut line = Line::new(alloc);
    append_utf8(&mut line, error.text(alloc)?.as_slice())?;
    Ok(line)
}

/// Adds lines for the fault stream.
pub fn add_notes(alloc: Global, notes: &mut Lines, came: &Lines) -> Result<(), NoMemory>
    ensures { OnOk result (plain_texts notes.new ≡ plain_texts notes.old ++ plain_texts came.now) }
{
    let mut left = came.as_slice();
    while let Some((note, rest)) = left.split_first() {
        notes.push(Line::copy_of(alloc, note.as_slice())?)?;
        left = rest;
    }
    Ok(())
}

/// The line under which a command of a file stands.
pub fn line_number(origin: Origin, line: u32) -> u32
    ensures { result ≡ spec.line_number origin line }
{
    match origin {
        Origin::Typed | Origin::Prompt => 1,
        Origin::Hook(given) => given,
        _ => line,
    }
}

impl Told {
    ghost use Rattle.std.specs.Prelude.{◌≡◌, OnOk};
    ghost use Rattle.rc_lang_words.specs.Faults.{plain_error};
    ghost use Rattle.session_state.specs.Told as spec;

    /// Nothing yet.
    pub fn new(alloc: Global) -> Told
        ensures { spec.plain_told result ≡ spec.nothing_told }
    {
        Told {
            notes: Lines::new(alloc),
            shown: None,
        }
    }

    fn note(
        &mut self,
        alloc: Global,
        file: &Line,
        line: u32,
        error: &RcError,
    ) -> Result<(), NoMemory>
        ensures { OnOk result (spec.plain_told self.new ≡ spec.noted file.now.items line
            (plain_error error.now) (spec.plain_told self.old)) }
    {
        let note = note_text(alloc, file, line, error)?;
        self.notes.push(note)
    }

    fn show_fault(&mut self, alloc: Global, error: &RcError) -> Result<(), NoMemory>
        ensures { OnOk result (spec.plain_told self.new ≡ spec.fault_shown
            (plain_error error.now) (spec.plain_told self.old)) }
    {
        self.shown = Some(fault_line(alloc, error)?);
        Ok(())
    }

    /// Tells the line that a command answers.
    pub fn answer(&mut self, origin: Origin, line: Line)
        ensures { spec.plain_told self.new
            ≡ spec.answer_told origin line.items (spec.plain_told self.old) }
    {
        match origin {
            Origin::Prompt => self.shown = Some(line),
            _ => {}
        }
    }

    /// Tells of a faulty command on a line of the file.
    pub fn fault(
        &mut self,
        alloc: Global,
        origin: Origin,
        file: &Line,
        line: u32,
        error: &RcError,
    ) -> Result<(), NoMemory>
        ensures { OnOk result (spec.plain_told self.new ≡ spec.fault_told origin file.now.items
            (spec.line_number origin line) (plain_error error.now) (spec.plain_told self.old)) }
    {
        match origin {
            Origin::Prompt => self.show_fault(alloc, error),
            _ => self.note(alloc, file, line_number(origin, line), error),
        }
    }

    /// Tells of the file, which was not read.
    pub fn unread(
        &mut self,
        alloc: Global,
        origin: Origin,
        file: &Line,
        error: &RcError,
    ) -> Result<(), NoMemory>
        ensures { OnOk result (spec.plain_told self.new ≡ spec.unread_told origin file.now.items
            (plain_error error.now) (spec.plain_told self.old)) }
    {
        match origin {
            Origin::Prompt | Origin::Asked => self.show_fault(alloc, error),
            _ => self.note(alloc, file, 0, error),
        }
    }
}
