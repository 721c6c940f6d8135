//! Side files that an earlier call left.

ghost use Rattle.std.specs.Prelude.{IfErr, OnOk};
ghost use Rattle.disk_model.specs.Judge.{GoesOn};
ghost use Rattle.folder_changes.specs.Calls.{GoesBy};
ghost use Rattle.folder_changes.specs.Refused.{IsBetween};
ghost use Rattle.folder_changes.specs.Serving.{IsErrorAt, Serves};
ghost use Rattle.folder_core.specs.Directory.{path_in as path_in_lem};
ghost use Rattle.folder_drivers.specs.MhLeft.{IsFolderCall};
ghost use Rattle.folder_drivers.specs.MhNames.{append_path, new_sequences_path};
ghost use Rattle.mh_syncs.specs.Causes.{CallCause, IsClearing, IsRemove};
ghost use Rattle.mh_syncs.specs.Met.{IsGone};
ghost use Rattle.mh_syncs.specs.Names.{IsSideName};
ghost use Rattle.mh_syncs.specs.Parts as spec;

use disk_model::{Disk, DiskError};
use folder_changes::{SyncError, error_at};
use folder_core::path_in;
use mail_base::NoMemory;
use std::alloc::Global;

// Takes a side file away where it stands.
fn remove_side(alloc: Global, disk: &mut dyn Disk, path: &str, name: &str) -> Result<(), SyncError>
    requires { IsSideName name.now }
    ensures serves { Serves result (seen disk.old) (seen disk.new) }
    ensures leaves { spec.LeavesAll path.now (seen disk.old).told (seen disk.new).told }
    ensures gone { OnOk result (IsGone (path_in_lem path.now name.now) (seen disk.old).told
        (seen disk.new).told) }
    ensures at { IfErr result (IsErrorAt path.now) }
    ensures calls { GoesOn (GoesBy (IsRemove (path_in_lem path.now name.now)))
        (seen disk.old).told (seen disk.new).told }
    ensures cause { IfErr result (λ why.
        IsBetween (CallCause (IsRemove (path_in_lem path.now name.now)) why)
        (seen disk.old).told (seen disk.new).told) }
{
    let at = match path_in(alloc, path, name) {
        Ok(at) => at,
        Err(NoMemory) => return Err(SyncError::NoMemory),
    };
    match disk.remove(alloc, at.as_str()) {
        Ok(()) => Ok(()),
        Err(DiskError::Missing) => Ok(()),
        Err(why) => Err(error_at(alloc, path, why)),
    }
}

/// Takes away what an earlier sync or append may have left beside the messages of a folder.
pub fn remove_leftovers(alloc: Global, disk: &mut dyn Disk, path: &str) -> Result<(), SyncError>
    ensures serves { Serves result (seen disk.old) (seen disk.new) }
    ensures leaves { spec.LeavesAll path.now (seen disk.old).told (seen disk.new).told }
    ensures new_gone { OnOk result (IsGone (new_sequences_path path.now) (seen disk.old).told
        (seen disk.new).told) }
    ensures append_gone { OnOk result (IsGone (append_path path.now) (seen disk.old).told
        (seen disk.new).told) }
    ensures at { IfErr result (IsErrorAt path.now) }
    ensures calls { GoesOn (GoesBy (IsClearing path.now))
        (seen disk.old).told (seen disk.new).told }
    ensures cause { IfErr result (λ why. IsBetween (CallCause (IsFolderCall path.now) why)
        (seen disk.old).told (seen disk.new).told) }
{
    match remove_side(alloc, disk, path, ".mh_sequences.new") {
        Ok(()) => {}
        Err(why) => return Err(why),
    }
    remove_side(alloc, disk, path, ".mutt_append")
}
