//! What is told on the fault stream.

ghost use Rattle.std.specs.Prelude.{◌≡◌, ◌≤◌, ◌⊎◌, ℕ, List, IfErr, OnErr, OnOk, drop, map};
ghost use Rattle.std.specs.Io.KnownBytes.{Appends};
ghost use Rattle.mail_base.specs.Faults.{Rose};
ghost use Rattle.mail_base.specs.Series.{plain_texts};
ghost use Rattle.mail_base.specs.Streams.{Sent};
ghost use Rattle.mutt_run.specs.Notes as spec;
ghost use Rattle.mutt_run.specs.Screens.{printed_lines};

use crate::note::note;
use crate::printing::{print, put_each};
use crate::status::Status;
use mail_base::{Bytes, Line, Lines, Sink};
use std::alloc::Global;

/// Tells of faulty commands, a line each, in one write.
pub fn tell_notes<E: Sink>(alloc: Global, errs: &mut E, notes: &Lines) -> Result<(), Status>
    ensures ok { OnOk result (Appends (E.written errs.old) (E.written errs.new)
        (printed_lines (plain_texts notes.now))) }
    ensures err { OnErr result ((rest : List ℕ) × Sent (E.written errs.old) (E.written errs.new)
        (printed_lines (plain_texts notes.now)) rest) }
    ensures which { IfErr result
        (λ status. ((status ≡ Status.OutFault) × Rose (E.faults errs.old) (E.faults errs.new))
        ⊎ (status ≡ Status.NoMemory)) }
    ensures later { E.faults errs.old ≤ E.faults errs.new }
{
    tell_each(alloc, errs, notes.as_slice())
}

/// Tells of faulty commands behind the first so many.
pub fn tell_later<E: Sink>(
    alloc: Global,
    errs: &mut E,
    notes: &Lines,
    told: usize,
) -> Result<(), Status>
    ensures ok { OnOk result (Appends (E.written errs.old) (E.written errs.new)
        (printed_lines (drop told (plain_texts notes.now)))) }
    ensures err { OnErr result ((rest : List ℕ) × Sent (E.written errs.old) (E.written errs.new)
        (printed_lines (drop told (plain_texts notes.now))) rest) }
    ensures which { IfErr result
        (λ status. ((status ≡ Status.OutFault) × Rose (E.faults errs.old) (E.faults errs.new))
        ⊎ (status ≡ Status.NoMemory)) }
    ensures later { E.faults errs.old ≤ E.faults errs.new }
{
    tell_each(alloc, errs, lines_from(notes.as_slice(), told))
}

fn tell_each<E: Sink>(alloc: Global, errs: &mut E, notes: &[Line]) -> Result<(), Status>
    ensures ok { OnOk result (Appends (E.written errs.old) (E.written errs.new)
        (printed_lines (map (λ note. note.items) notes.now))) }
    ensures err { OnErr result ((rest : List ℕ) × Sent (E.written errs.old) (E.written errs.new)
        (printed_lines (map (λ note. note.items) notes.now)) rest) }
    ensures which { IfErr result
        (λ status. ((status ≡ Status.OutFault) × Rose (E.faults errs.old) (E.faults errs.new))
        ⊎ (status ≡ Status.NoMemory)) }
    ensures later { E.faults errs.old ≤ E.faults errs.new }
{
    if notes.is_empty() {
        return Ok(());
    }
    let mut text = Bytes::new(alloc);
    if put_each(&mut text, notes).is_err() {
        return Err(Status::NoMemory);
    }
    print(errs, text.as_slice())
}

// The lines behind the first so many.
fn lines_from(lines: &[Line], start: usize) -> &[Line]
    ensures { result.now ≡ drop start lines.now }
{
    if start < lines.len() {
        return &lines[start..];
    }
    &lines[..0]
}

/// Tells how a run ended, in one write. Where that fails it ended with a fault of a stream.
pub fn tell_end<E: Sink>(alloc: Global, errs: &mut E, path: &[u8], status: Status) -> Status
    ensures tells { spec.TellsEnd path.now status result (E.written errs.old) (E.written errs.new) }
    ensures cause { (result ≡ status) ⊎ (result ≡ Status.NoMemory)
        ⊎ ((result ≡ Status.OutFault) × Rose (E.faults errs.old) (E.faults errs.new)) }
    ensures later { E.faults errs.old ≤ E.faults errs.new }
{
    let Ok(note) = note(alloc, path, &status) else {
        return Status::NoMemory;
    };
    if note.as_slice().is_empty() {
        return status;
    }
    match print(errs, note.as_slice()) {
        Ok(()) => status,
        Err(fault) => fault,
    }
}
