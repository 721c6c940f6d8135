//! The directories of a folder that is made.

ghost use Rattle.std.specs.Prelude.{◌≡◌, ◌∷◌, [], OnOk};
ghost use Rattle.disk_model.specs.Journal.{MakeDir, SyncDir};
ghost use Rattle.folder_core.specs.Directory.{path_in as path_in_lem};
ghost use Rattle.folder_makes.specs.Parts.{IsAt, IsIn, IsKeep, IsPart, Leaves, LeavesMaildir};
ghost use Rattle.folder_makes.specs.Parts.{NamesKept, Nowhere};
ghost use Rattle.folder_makes.specs.Parts.{maildir_names, NeedsIn, NeedsKept};
ghost use Rattle.folder_drivers.specs.Refusing.{IsMake};

use disk_model::{Disk, DiskError};
use folder_changes::SyncError;
use folder_core::path_in;
use mail_base::NoMemory;
use std::alloc::Global;

// Makes a directory in a folder, where nothing stands there.
fn make_missing(alloc: Global, disk: &mut dyn Disk, path: &str, name: &str) -> Result<(), SyncError>
    ensures { IsPart (IsAt (path_in_lem path.now name.now)) Nowhere
        (IsMake (path_in_lem path.now name.now)) result (seen disk.old) (seen disk.new) }
{
    let dir = match path_in(alloc, path, name) {
        Ok(dir) => dir,
        Err(NoMemory) => return Err(SyncError::NoMemory),
    };
    match disk.make_dir(alloc, dir.as_str()) {
        Ok(()) => Ok(()),
        Err(DiskError::Exists) => Ok(()),
        Err(why) => Err(SyncError::from(why)),
    }
}

/// Makes those directories of a Maildir that are not there; `cur` comes last, since with it the
/// folder is a Maildir.
pub fn make_directories(alloc: Global, disk: &mut dyn Disk, path: &str) -> Result<(), SyncError>
    ensures { IsPart (IsIn path.now maildir_names) Nowhere (NeedsIn path.now maildir_names) result
        (seen disk.old) (seen disk.new) }
{
    match make_missing(alloc, disk, path, "tmp") {
        Ok(()) => {}
        Err(why) => return Err(why),
    }
    match make_missing(alloc, disk, path, "new") {
        Ok(()) => {}
        Err(why) => return Err(why),
    }
    make_missing(alloc, disk, path, "cur")
}

/// Puts the names in a directory on the disk, which must be one.
pub fn keep(alloc: Global, disk: &mut dyn Disk, dir: &str) -> Result<(), SyncError>
    ensures part { IsPart Nowhere Nowhere (IsKeep dir.now) result
        (seen disk.old) (seen disk.new) }
    ensures there { OnOk result (Leaves dir.now (seen disk.old).told (seen disk.new).told) }
    ensures kept { OnOk result (NamesKept (seen disk.old).told (seen disk.new).told) }
{
    match disk.sync_dir(alloc, dir) {
        Ok(()) => Ok(()),
        Err(why) => Err(SyncError::from(why)),
    }
}

// The same of a directory in a folder.
fn keep_in(alloc: Global, disk: &mut dyn Disk, path: &str, name: &str) -> Result<(), SyncError>
    ensures part { IsPart Nowhere Nowhere NeedsKept result (seen disk.old) (seen disk.new) }
    ensures there { OnOk result (Leaves (path_in_lem path.now name.now)
        (seen disk.old).told (seen disk.new).told) }
{
    match path_in(alloc, path, name) {
        Ok(dir) => keep(alloc, disk, dir.as_str()),
        Err(NoMemory) => Err(SyncError::NoMemory),
    }
}

/// Puts the names of a Maildir on the disk, and those in its directories, which must be there.
pub fn keep_directories(alloc: Global, disk: &mut dyn Disk, path: &str) -> Result<(), SyncError>
    ensures part { IsPart Nowhere Nowhere NeedsKept result (seen disk.old) (seen disk.new) }
    ensures there { OnOk result (LeavesMaildir path.now
        (seen disk.old).told (seen disk.new).told) }
{
    match keep_in(alloc, disk, path, "tmp") {
        Ok(()) => {}
        Err(why) => return Err(why),
    }
    match keep_in(alloc, disk, path, "new") {
        Ok(()) => {}
        Err(why) => return Err(why),
    }
    match keep_in(alloc, disk, path, "cur") {
        Ok(()) => {}
        Err(why) => return Err(why),
    }
    keep(alloc, disk, path)
}
