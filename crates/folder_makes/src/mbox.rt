//! Making a mailbox in one file (mbox(5)).

ghost use Rattle.std.specs.Prelude.{◌≡◌, OnOk, true};
ghost use Rattle.disk_model.specs.Tree.{is_root};
ghost use Rattle.folder_core.specs.Mbox as spec;
ghost use Rattle.folder_drivers.specs.MboxMade.{MakesMailbox};
ghost use Rattle.folder_makes.specs.Parts.{FoundAround, IsAt, IsCreate, IsPart, LeavesEmpty};
ghost use Rattle.folder_makes.specs.Parts.{LeavesKept, NeedsEither, NeedsKept, Nowhere};
ghost use Rattle.folder_makes.specs.Parts.{TriesMailbox};

use crate::directories::keep;
use disk_model::{Disk, DiskError};
use folder_changes::SyncError;
use mail_base::first_line;
use mbox_text::read_postmark;
use std::alloc::Global;

// Whether a file of these bytes is a mailbox: it is empty, or begins with a postmark.
fn is_mailbox(bytes: &[u8]) -> bool
    ensures { result ≡ spec.begins_mailbox bytes.now }
{
    bytes.is_empty() || read_postmark(first_line(bytes)).is_some()
}

// What stands before the last slash of a path, which is another path.
fn folder_of(path: &str) -> &str
    ensures { result.now ≡ path.now → is_root path.now ≡ true }
{
    match path.rsplit_once('/') {
        None => "",
        Some(("", _)) => "/",
        Some((folder, _)) => folder,
    }
}

// Makes an empty file where nothing stands, and puts its name on the disk.
fn make_file(alloc: Global, disk: &mut dyn Disk, path: &str) -> Result<(), SyncError>
    ensures part { IsPart Nowhere (IsAt path.now) (NeedsEither (IsCreate path.now) NeedsKept)
        result (seen disk.old) (seen disk.new) }
    ensures there { OnOk result (LeavesEmpty path.now (seen disk.old).told (seen disk.new).told) }
    ensures around { OnOk result (FoundAround path.now (seen disk.old).told
        (seen disk.new).told) }
    ensures kept { OnOk result (LeavesKept path.now (seen disk.old).told (seen disk.new).told) }
{
    match disk.create(alloc, path) {
        Ok(()) => keep(alloc, disk, folder_of(path)),
        Err(why) => Err(SyncError::from(why)),
    }
}

// Looks at what stands at the path, and makes a mailbox where that is nothing. The whole file is
// read, since its first line may be of any length.
fn look_and_make(alloc: Global, disk: &mut dyn Disk, path: &str) -> Result<(), SyncError>
    ensures { TriesMailbox path.now result (seen disk.old) (seen disk.new) }
{
    match disk.read_all(alloc, path, u64::MAX) {
        Ok(read) => {
            if is_mailbox(read.bytes.as_slice()) {
                Ok(())
            } else {
                Err(SyncError::NotFolder)
            }
        }
        Err(DiskError::Missing) => make_file(alloc, disk, path),
        Err(why) => Err(SyncError::from(why)),
    }
}

/// Makes an empty mailbox at a path where nothing stands. A mailbox that stands there is left as it
/// is.
pub fn make_mbox(alloc: Global, disk: &mut dyn Disk, path: &str) -> Result<(), SyncError>
    ensures { MakesMailbox path.now result (seen disk.old) (seen disk.new) }
{
    let result = look_and_make(alloc, disk, path);
    // That the past is lawful tells that nothing stood where we made a file.
    let _ = disk.mark();
    result
}
