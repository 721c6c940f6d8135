//! The sequences of a folder as they are, and with changes.

ghost use Rattle.std.specs.Prelude.{ℕ, ◌≡◌, ◌<◌, IfErr, IfOk, List, OnOk, length, map};
ghost use Rattle.disk_model.specs.Looking.{LooksOnly};
ghost use Rattle.folder_letters.specs.Letters.{plain_letter};
ghost use Rattle.index_items.specs.Changes.{AreBelow, plain_change, plain_changes};
ghost use Rattle.folder_core.specs.Keeping.{mail_of};
ghost use Rattle.folder_core.specs.Mh.{number_at as number_at_lem};
ghost use Rattle.folder_changes.specs.Refused.{OnChanged};
ghost use Rattle.folder_changes.specs.Serving.{IsErrorAt, Serves};
ghost use Rattle.folder_drivers.specs.MhSync as sync;
ghost use Rattle.mh_sequences.specs.Marks.{AreMarks};
ghost use Rattle.mh_syncs.specs.Parts as spec;

use crate::names::number_at;
use crate::stamps::not_looked;
use disk_model::Disk;
use folder_changes::SyncError;
use folder_core::{Content, Letter, content_of, path_in};
use folder_letters::{Change, Changed1};
use mail_base::{Bytes, Flags, Kind, NoMemory};
use mh_sequences::{Marks, Sequences};
use std::alloc::Global;

/// The file of the sequences; without one it is empty.
pub fn read_sequences(alloc: Global, disk: &mut dyn Disk, path: &str) -> Result<Bytes, SyncError>
    ensures serves { Serves result (seen disk.old) (seen disk.new) }
    ensures looks { LooksOnly (seen disk.old).told (seen disk.new).told }
    ensures reads { IfOk result (λ bytes. spec.Reads path.now bytes.items (seen disk.old).told
        (seen disk.new).told) }
    ensures at { IfErr result (IsErrorAt path.now) }
    ensures unchanged { IfErr result (λ why. OnChanged why ⊥) }
{
    let file = match path_in(alloc, path, ".mh_sequences") {
        Ok(file) => file,
        Err(NoMemory) => return Err(SyncError::NoMemory),
    };
    match content_of(alloc, disk, file.as_str(), u64::MAX) {
        Ok(Content::NoFile) => Ok(Bytes::new(alloc)),
        Ok(Content::Whole(read)) => Ok(read.bytes),
        Ok(Content::TooLong(_)) => unreachable!(),
        Err(why) => Err(not_looked(why)),
    }
}

// Puts a number with these flags into the sequences.
fn put_flags(sequences: &mut Sequences, number: u32, flags: Flags) -> Result<(), NoMemory>
    ensures { OnOk result (sequences.new ≡ sync.with_flags number flags sequences.old) }
{
    sequences.put(b"unseen", number, !flags.seen)?;
    sequences.put(b"flagged", number, flags.flagged)?;
    sequences.put(b"replied", number, flags.replied)?;
    Ok(())
}

// Changes the sequences by what becomes of one number, whose flags the marks tell.
fn put_change(
    sequences: &mut Sequences,
    marks: &Marks,
    number: u32,
    change: Change,
) -> Result<(), NoMemory>
    ensures { (bytes : List ℕ) → AreMarks bytes marks.now → OnOk result (sequences.new
        ≡ sync.with_change bytes number (plain_change change) sequences.old) }
{
    match change {
        Change::Alter(delta) => {
            let flags = marks.flags(number).apply(delta).stored(Kind::Mh);
            put_flags(sequences, number, flags)
        }
        Change::Discard => sequences.drop_number(number),
    }
}

// Changes the sequences by what becomes of these messages.
fn put_changes(
    sequences: &mut Sequences,
    marks: &Marks,
    archive: &[Letter],
    changes: &[Changed1],
) -> Result<(), NoMemory>
    requires { AreBelow (length archive.now) changes.now }
    ensures { (bytes : List ℕ) → AreMarks bytes marks.now → OnOk result (sequences.new
        ≡ sync.with_changes bytes (map plain_letter archive.now) (plain_changes changes.now)
        sequences.old) }
{
    let mut left = changes;
    while let [changed, rest @ ..] = left {
        let number = number_at(archive[changed.id.0 as usize].key.as_slice());
        match put_change(sequences, marks, number, changed.change) {
            Ok(()) => {}
            Err(why) => return Err(why),
        }
        left = rest;
    }
    Ok(())
}

/// The file of the sequences with these changes.
pub fn changed_sequences(
    alloc: Global,
    bytes: &[u8],
    archive: &[Letter],
    changes: &[Changed1],
) -> Result<Bytes, NoMemory>
    requires { AreBelow (length archive.now) changes.now }
    ensures { IfOk result (λ text. text.items ≡ sync.sequences_wanted (map plain_letter archive.now)
        (plain_changes changes.now) bytes.now) }
{
    let marks = Marks::read(alloc, bytes)?;
    let mut sequences = Sequences::read(alloc, bytes)?;
    put_changes(&mut sequences, &marks, archive, changes)?;
    sequences.write(alloc)
}
