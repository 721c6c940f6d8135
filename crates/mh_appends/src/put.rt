//! A message on its way into an MH folder: written beside, then put under its number.

ghost use Rattle.std.specs.Prelude.{◌≡◌, IfErr, IfOk, OnOk};
ghost use Rattle.std.specs.String.{string_bytes};
ghost use Rattle.mail_base.specs.Flags.{stored};
ghost use Rattle.mail_base.specs.declared.kind.Kind.TheVariants.{Mh};
ghost use Rattle.disk_model.specs.Judge.{Counted};
ghost use Rattle.folder_drivers.specs.MhAppend.{PutsNumber, sequences_with};
ghost use Rattle.folder_drivers.specs.MhSync.{with_flags};
ghost use Rattle.folder_drivers.specs.Refusing.{BlamesDisk};
ghost use Rattle.folder_shapes.specs.Mh.{mh_files};
ghost use Rattle.folder_stops.specs.Appends.{AddedSome, AddsSome};
ghost use Rattle.mh_appends.specs.Placing as placing;
ghost use Rattle.mh_appends.specs.Putting as spec;

use crate::places::Places;
use crate::replacing::{read_file, replace_file, write_file};
use disk_model::{Disk, DiskError};
use folder_changes::{SyncError, name_changed};
use mail_base::{Bytes, Flags, Kind, NoMemory};
use mh_sequences::Sequences;
use std::alloc::Global;

// Gives a number these flags.
fn set_flags(sequences: &mut Sequences, number: u32, flags: Flags) -> Result<(), NoMemory>
    ensures { OnOk result (sequences.new ≡ with_flags number flags sequences.old) }
{
    sequences.put(b"unseen", number, !flags.seen)?;
    sequences.put(b"flagged", number, flags.flagged)?;
    sequences.put(b"replied", number, flags.replied)
}

// The file of the sequences in which a number has these flags, in place of an older one.
fn new_sequences(alloc: Global, bytes: &[u8], number: u32, flags: Flags) -> Result<Bytes, NoMemory>
    ensures { IfOk result (λ made. made.items ≡ sequences_with number flags bytes.now) }
{
    let mut sequences = Sequences::read(alloc, bytes)?;
    set_flags(&mut sequences, number, flags.stored(Kind::Mh))?;
    sequences.write(alloc)
}

// Puts the number of the message with its flags into the sequences.
fn put_sequences(
    alloc: Global,
    disk: &mut dyn Disk,
    places: &Places,
    flags: Flags,
) -> Result<(), SyncError>
    ensures puts { spec.PutsSequences places.now flags result
        (seen disk.old).told (seen disk.new).told }
    ensures blames { BlamesDisk result (seen disk.old) (seen disk.new) }
{
    let sequences = places.sequences.as_str();
    let side = places.side.as_str();
    let old = read_file(alloc, disk, sequences)?;
    let new = new_sequences(alloc, old.as_slice(), places.number, flags)?;
    replace_file(alloc, disk, side, sequences, new.as_slice())?;
    Ok(())
}

// Puts the message that is written beside under its number.
fn name_message(
    alloc: Global,
    disk: &mut dyn Disk,
    path: &str,
    places: &Places,
) -> Result<(), DiskError>
    ensures names { spec.NamesMessage path.now places.now result
        (seen disk.old).told (seen disk.new).told }
    ensures counts { Counted result (seen disk.old) (seen disk.new) }
{
    disk.rename(alloc, places.beside.as_str(), places.held.as_str())?;
    disk.sync_dir(alloc, path)
}

// Writes a message whose number is held, and puts it there.
fn fill(
    alloc: Global,
    disk: &mut dyn Disk,
    path: &str,
    places: &Places,
    flags: Flags,
    text: &[u8],
) -> Result<(), SyncError>
    ensures fills { spec.Fills path.now places.now flags text.now result
        (seen disk.old).told (seen disk.new).told }
    ensures blames { BlamesDisk result (seen disk.old) (seen disk.new) }
{
    write_file(alloc, disk, places.beside.as_str(), text)?;
    match put_sequences(alloc, disk, places, flags) {
        Ok(()) => {}
        Err(why) => return Err(why),
    }
    name_message(alloc, disk, path, places)?;
    Ok(())
}

/// Holds the number of a message with an empty file, writes the message beside, and puts it there
/// once a stop leaves its bytes.
pub fn put(
    alloc: Global,
    disk: &mut dyn Disk,
    path: &str,
    places: &Places,
    flags: Flags,
    text: &[u8],
) -> Result<(), SyncError>
    requires { placing.IsPlaced path.now places.now text.now }
    ensures some { AddsSome (mh_files path.now) text.now
        (seen disk.old).told (seen disk.new).told }
    ensures ok { OnOk result (AddedSome (mh_files path.now) text.now
        (seen disk.old).told (seen disk.new).told) }
    ensures puts { OnOk result (spec.PutsMessage path.now places.now.number text.now flags
        (seen disk.old).told (seen disk.new).told) }
    ensures fails { IfErr result (λ why. spec.FailsPut path.now places.now flags text.now why
        (seen disk.old).told (seen disk.new).told) }
    ensures blames { BlamesDisk result (seen disk.old) (seen disk.new) }
{
    let held = places.held.as_str();
    match disk.create(alloc, held) {
        Ok(()) => {}
        Err(DiskError::Exists) => return Err(name_changed(alloc, held)),
        Err(why) => return Err(SyncError::from(why)),
    }
    fill(alloc, disk, path, places, flags, text)
}
