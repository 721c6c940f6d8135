//! What is printed, each piece in one write.

ghost use Rattle.std.specs.Prelude.{◌≡◌, ◌≤◌, ◌++◌, ℕ, List, IfErr, IfOk};
ghost use Rattle.std.specs.Prelude.{OnErr, OnOk, map};
ghost use Rattle.std.specs.Io.KnownBytes.{Appends};
ghost use Rattle.mail_base.specs.Faults.{Rose};
ghost use Rattle.mail_base.specs.Series.{plain_texts};
ghost use Rattle.mail_base.specs.Streams.{Sent};
ghost use Rattle.mutt_run.specs.Screens as spec;

use crate::status::Status;
use mail_base::{Bytes, Line, Lines, NoMemory, Sink};
use std::alloc::Global;

/// Adds lines, each with its LF.
pub fn put_lines(out: &mut Bytes, lines: &Lines) -> Result<(), NoMemory>
    ensures { OnOk result (out.new.items
        ≡ out.old.items ++ spec.printed_lines (plain_texts lines.now)) }
{
    put_each(out, lines.as_slice())
}

/// Adds these lines, each with its LF.
pub fn put_each(out: &mut Bytes, lines: &[Line]) -> Result<(), NoMemory>
    ensures { OnOk result (out.new.items ≡ out.old.items
        ++ spec.printed_lines (map (λ line. line.items) lines.now)) }
{
    let mut left = lines;
    while let Some((line, rest)) = left.split_first() {
        out.append(line.as_slice())?;
        out.push(b'\n')?;
        left = rest;
    }
    Ok(())
}

/// The bytes of a screen: its lines, and then form feed and LF.
pub fn screen_bytes(alloc: Global, lines: &Lines) -> Result<Bytes, NoMemory>
    ensures { IfOk result (λ bytes. bytes.items ≡ spec.screen_text (plain_texts lines.now)) }
{
    let mut out = Bytes::new(alloc);
    put_lines(&mut out, lines)?;
    out.append(b"\x0c\n")?;
    Ok(out)
}

/// Writes a piece.
pub fn print<O: Sink>(out: &mut O, piece: &[u8]) -> Result<(), Status>
    ensures ok { OnOk result (Appends (O.written out.old) (O.written out.new) piece.now) }
    ensures err { OnErr result ((rest : List ℕ)
        × Sent (O.written out.old) (O.written out.new) piece.now rest) }
    ensures which { IfErr result (λ status. status ≡ Status.OutFault) }
    ensures cause { OnErr result (Rose (O.faults out.old) (O.faults out.new)) }
    ensures later { O.faults out.old ≤ O.faults out.new }
{
    match out.put_all(piece) {
        Ok(()) => Ok(()),
        Err(_) => Err(Status::OutFault),
    }
}
