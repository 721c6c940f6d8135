//! Making an MH folder (mh-mail(5)).

ghost use Rattle.std.specs.Prelude.{◌≡◌, OnOk};
ghost use Rattle.folder_core.specs.Mh.{sequences_path};
ghost use Rattle.folder_drivers.specs.Made.{MakesAs, mh_makes};
ghost use Rattle.folder_makes.specs.Parts.{IsAt, IsCreate, IsKeep, IsPart, Leaves, LeavesNode};
ghost use Rattle.folder_makes.specs.Parts.{NeedsEither, Nowhere, SequencesKept};

use crate::beginning::look_or_make;
use crate::directories::keep;
use disk_model::{Disk, DiskError};
use folder_changes::SyncError;
use folder_core::path_in;
use mail_base::NoMemory;
use std::alloc::Global;

// Makes the file of the sequences, by which the folder is told from other directories, where it is
// not there.
fn make_sequences(alloc: Global, disk: &mut dyn Disk, path: &str) -> Result<(), SyncError>
    ensures part { IsPart Nowhere (IsAt (sequences_path path.now))
        (IsCreate (sequences_path path.now)) result (seen disk.old) (seen disk.new) }
    ensures there { OnOk result (LeavesNode (sequences_path path.now)
        (seen disk.old).told (seen disk.new).told) }
{
    let sequences = match path_in(alloc, path, ".mh_sequences") {
        Ok(sequences) => sequences,
        Err(NoMemory) => return Err(SyncError::NoMemory),
    };
    match disk.create(alloc, sequences.as_str()) {
        Ok(()) => Ok(()),
        Err(DiskError::Exists) => Ok(()),
        Err(why) => Err(SyncError::from(why)),
    }
}

// Makes what a directory lacks of an MH folder, and puts its names on the disk.
fn finish(alloc: Global, disk: &mut dyn Disk, path: &str) -> Result<(), SyncError>
    ensures part { IsPart Nowhere (IsAt (sequences_path path.now))
        (NeedsEither (IsCreate (sequences_path path.now)) (IsKeep path.now)) result
        (seen disk.old) (seen disk.new) }
    ensures there { OnOk result (Leaves path.now (seen disk.old).told (seen disk.new).told) }
    ensures sequences { OnOk result (SequencesKept path.now
        (seen disk.old).told (seen disk.new).told) }
{
    match make_sequences(alloc, disk, path) {
        Ok(()) => keep(alloc, disk, path),
        Err(why) => Err(why),
    }
}

/// Makes an empty MH folder at a path. A directory that stands there is one, and keeps its
/// messages.
pub fn make_mh(alloc: Global, disk: &mut dyn Disk, path: &str) -> Result<(), SyncError>
    ensures { MakesAs mh_makes path.now result (seen disk.old) (seen disk.new) }
{
    let result = match look_or_make(alloc, disk, path) {
        Ok(_names) => finish(alloc, disk, path),
        Err(why) => return Err(why),
    };
    // That the past is lawful tells that no sequences stood where we made their file, and that
    // nothing stands in a directory that is not there.
    let _ = disk.mark();
    result
}
