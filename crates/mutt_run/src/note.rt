//! What the end of a run tells.

ghost use Rattle.std.specs.Prelude.{◌≡◌, ◌++◌, codes, IfOk};
ghost use Rattle.mutt_run.specs.Notes as spec;

use crate::status::Status;
use mail_base::{Bytes, Line, NoMemory};
use session_events::{OpenFault, append_cause};
use std::alloc::Global;

/// What the end of a run tells.
pub fn note(alloc: Global, path: &[u8], status: &Status) -> Result<Bytes, NoMemory>
    ensures { IfOk result (λ note. note.items ≡ spec.note path.now status.now) }
{
    match status {
        Status::Done | Status::OutFault | Status::NoMemory => Ok(Bytes::new(alloc)),
        Status::Usage(word) => usage_line(alloc, word.as_slice()),
        Status::NotOpened(why) => refusal_line(alloc, path, *why),
        Status::DiskFault => line(alloc, b"disk fault"),
        Status::KeysFault => line(alloc, b"keys fault"),
        Status::Empty => empty_line(alloc, path),
        Status::TooManyKeys => line(alloc, b"too many keys"),
    }
}

fn usage_line(alloc: Global, word: &[u8]) -> Result<Bytes, NoMemory>
    ensures { IfOk result (λ note. note.items ≡ spec.line_of (codes "usage: " ++ word.now)) }
{
    let mut text = Bytes::copy_of(alloc, b"usage: ")?;
    text.append(word)?;
    line(alloc, text.as_slice())
}

fn refusal_line(alloc: Global, path: &[u8], why: OpenFault) -> Result<Bytes, NoMemory>
    ensures { IfOk result (λ note. note.items ≡ spec.line_of
        (path.now ++ codes ": " ++ spec.cause why)) }
{
    let mut text = Bytes::copy_of(alloc, path)?;
    text.append(b": ")?;
    text.append(cause_text(alloc, why)?.as_slice())?;
    line(alloc, text.as_slice())
}

fn empty_line(alloc: Global, path: &[u8]) -> Result<Bytes, NoMemory>
    ensures { IfOk result (λ note. note.items ≡ spec.line_of (path.now ++ codes ": empty")) }
{
    let mut text = Bytes::copy_of(alloc, path)?;
    text.append(b": empty")?;
    line(alloc, text.as_slice())
}

// Why a folder was not opened.
fn cause_text(alloc: Global, why: OpenFault) -> Result<Line, NoMemory>
    ensures { IfOk result (λ text. text.items ≡ spec.cause why) }
{
    let mut text = Line::new(alloc);
    match why {
        OpenFault::Taken => text.append("already there")?,
        OpenFault::NoDriver(_) => text.append("no driver")?,
        OpenFault::Folder(why) => append_cause(alloc, &mut text, why)?,
    }
    Ok(text)
}

// A line of the fault stream.
fn line(alloc: Global, text: &[u8]) -> Result<Bytes, NoMemory>
    ensures { IfOk result (λ line. line.items ≡ spec.line_of text.now) }
{
    let mut line = Bytes::copy_of(alloc, b"mutt_main: ")?;
    line.append(text)?;
    line.push(b'\n')?;
    Ok(line)
}
