//! The first look of the making of a folder.

ghost use Rattle.std.specs.Prelude.{◌≡◌, [], IfOk};
ghost use Rattle.disk_model.specs.Journal.{ListDir, MakeDir};
ghost use Rattle.folder_drivers.specs.MetNames.{plain_names};
ghost use Rattle.folder_makes.specs.Parts.{FoundAround, IsAt, IsPart, MetNames, Nowhere};
ghost use Rattle.folder_drivers.specs.Refusing.{IsAny, IsMake};

use disk_model::{Disk, DiskError};
use folder_changes::SyncError;
use mail_base::Names;
use std::alloc::Global;

// Makes a directory, in which there is nothing then.
fn make_empty(alloc: Global, disk: &mut dyn Disk, path: &str) -> Result<Names, SyncError>
    ensures part { IsPart (IsAt path.now) Nowhere (IsMake path.now) result
        (seen disk.old) (seen disk.new) }
    ensures none { IfOk result (λ names. names.items ≡ []) }
    ensures around { IfOk result (λ names. FoundAround path.now
        (seen disk.old).told (seen disk.new).told) }
{
    match disk.make_dir(alloc, path) {
        Ok(()) => Ok(Names::new(alloc)),
        Err(why) => Err(SyncError::from(why)),
    }
}

/// The names in the folder at a path; where nothing stands there, an empty one is made.
pub fn look_or_make(alloc: Global, disk: &mut dyn Disk, path: &str) -> Result<Names, SyncError>
    ensures part { IsPart (IsAt path.now) Nowhere IsAny result (seen disk.old) (seen disk.new) }
    ensures met { IfOk result (λ names. MetNames path.now (plain_names names)
        (seen disk.old).told (seen disk.new).told) }
{
    match disk.list(alloc, path) {
        Ok(names) => Ok(names),
        Err(DiskError::Missing) => make_empty(alloc, disk, path),
        Err(why) => Err(SyncError::from(why)),
    }
}
