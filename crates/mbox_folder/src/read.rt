//! The looks at a mailbox.

ghost use Rattle.std.specs.Prelude.{◌≡◌, ◌∷◌, [], None};
ghost use Rattle.disk_model.specs.Judge.{GoesOn};
ghost use Rattle.folder_core.specs.FirstLook.{TellsMissing};
ghost use Rattle.mbox_folder.specs.FileSeen.{FileSeen, IsFileAnswer, MeetsFile, TellsChange, WasSo};
ghost use Rattle.mbox_folder.specs.FileSeen.{behind_look as spec_behind_look};
ghost use Rattle.mbox_folder.specs.FileSeen.{is_as_known as spec_as_known};
ghost use Rattle.mbox_folder.specs.FileSeen.{kept_stamp as spec_kept_stamp};

use disk_model::{Disk, DiskError, FileRead, Stat};
use folder_core::{Known, MOST_BYTES, ScanError, look_at};
use std::alloc::Global;

/// Reads the file of which this is known where it is not as it is known; where it is, nothing is
/// read, and none is answered.
pub fn read_changed(
    alloc: Global,
    disk: &mut dyn Disk,
    known: &Known,
) -> Result<Option<FileRead>, ScanError>
    requires { WasSo known.now (seen disk.old).told }
    ensures { TellsChange known.now result (seen disk.old) (seen disk.new) }
{
    match kept_stamp(known) {
        Some(stamp) => read_unless_kept(alloc, disk, known, stamp),
        None => read_first(alloc, disk, known),
    }
}

// The stamp that is kept of the file.
fn kept_stamp(known: &Known) -> Option<u128>
    ensures { result ≡ spec_kept_stamp known.now.stamps }
{
    match known.stamps().as_slice() {
        [stamp] => Some(*stamp),
        _ => None,
    }
}

// Reads the file of which no stamp is kept.
fn read_first(
    alloc: Global,
    disk: &mut dyn Disk,
    known: &Known,
) -> Result<Option<FileRead>, ScanError>
    requires { spec_kept_stamp known.now.stamps ≡ None }
    ensures { TellsChange known.now result (seen disk.old) (seen disk.new) }
{
    match read_file(alloc, disk, known.path()) {
        Ok(file) => Ok(Some(file)),
        Err(why) => Err(why),
    }
}

// Reads the file unless it has the stamp that is kept, and the length that is known.
fn read_unless_kept(
    alloc: Global,
    disk: &mut dyn Disk,
    known: &Known,
    stamp: u128,
) -> Result<Option<FileRead>, ScanError>
    requires kept { known.now.stamps ≡ stamp ∷ [] }
    requires was { WasSo known.now (seen disk.old).told }
    ensures { TellsChange known.now result (seen disk.old) (seen disk.new) }
{
    let _ = disk.mark();
    let found = match look_at(disk, known.path()) {
        Ok(found) => found,
        Err(why) => return Err(why),
    };
    let Some(stat) = found else {
        return Err(ScanError::Missing);
    };
    if is_as_known(known.bytes().len(), stamp, stat) {
        return Ok(None);
    }
    match read_file(alloc, disk, known.path()) {
        Ok(file) => Ok(Some(file)),
        Err(why) => Err(behind_look(why)),
    }
}

// Why a file is not read that a first look has found: where it went away it is no mailbox.
fn behind_look(why: ScanError) -> ScanError
    ensures { result ≡ spec_behind_look why }
{
    match why {
        ScanError::Missing => ScanError::NotMailbox(0),
        why => why,
    }
}

// Whether it is a file of this length with this stamp.
fn is_as_known(size: usize, stamp: u128, stat: Stat) -> bool
    ensures { result ≡ spec_as_known size stamp stat }
{
    !stat.folder && stat.length == size as u64 && stat.stamp == stamp
}

/// Reads the whole file at a path.
pub fn read_file(alloc: Global, disk: &mut dyn Disk, path: &str) -> Result<FileRead, ScanError>
    ensures seen { GoesOn (FileSeen result path.now) (seen disk.old).told (seen disk.new).told }
    ensures first { GoesOn (TellsMissing result path.now) (seen disk.old).told
        (seen disk.new).told }
    ensures possible { IsFileAnswer result }
    ensures meets { MeetsFile result (seen disk.old) (seen disk.new) }
{
    match disk.read_all(alloc, path, MOST_BYTES) {
        Ok(file) => Ok(file),
        Err(DiskError::Missing) => Err(ScanError::Missing),
        Err(DiskError::WrongNode) => Err(ScanError::NotMailbox(0)),
        Err(DiskError::Long(length)) => Err(ScanError::TooLarge(length)),
        Err(DiskError::Fault) => Err(ScanError::Fault),
        Err(DiskError::NoMemory) => Err(ScanError::NoMemory),
        Err(DiskError::Exists) => unreachable!(),
    }
}
