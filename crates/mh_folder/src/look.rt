//! Looks at the files of messages that are listed.

ghost use Rattle.std.specs.Prelude.{◌≡◌, IfOk};
ghost use Rattle.disk_model.specs.Journal.{StatPath};
ghost use Rattle.disk_model.specs.Judge.{GoesOn};
ghost use Rattle.disk_model.specs.Tree.{node_at};
ghost use Rattle.folder_core.specs.Costs.{RaisesAtMost};
ghost use Rattle.folder_core.specs.Directory.{path_in as path_in_lem};
ghost use Rattle.folder_core.specs.Looked.{Looked, OnlyMeets, stat_there};
ghost use Rattle.mh_folder.specs.NumberedName.{IsNumbered};
ghost use Rattle.mh_folder.specs.Walk.{LookSeen, look_of as look_of_lem};

use crate::numbered_name::NumberedName;
use disk_model::{Disk, Stat};
use folder_core::{ScanError, look_at, path_in};
use mail_base::NoMemory;
use std::alloc::Global;

/// What stands at the path of a listed message.
#[derive(Clone, Copy)]
pub enum Look {
    /// No message.
    Nothing,
    /// One in a file with the stamp that is known.
    Same,
    /// One in a file with another stamp.
    Other,
}

// What stands at the path of a message whose file had this stamp, by what was found there.
fn look_of(found: Option<Stat>, stamp: u128) -> Look
    ensures { result ≡ look_of_lem found stamp }
{
    match found {
        None => Look::Nothing,
        Some(stat) if stat.folder || stat.length == 0 => Look::Nothing,
        Some(stat) if stat.stamp == stamp => Look::Same,
        Some(_) => Look::Other,
    }
}

// What stands at the path of a name.
fn stat_at(
    alloc: Global,
    disk: &mut dyn Disk,
    path: &str,
    file: &NumberedName,
) -> Result<Option<Stat>, ScanError>
    requires { IsNumbered file.now }
    ensures looked { Looked result (StatPath (path_in_lem path.now file.now.name.items))
        (λ found tree. found ≡ stat_there (node_at tree
        (path_in_lem path.now file.now.name.items))) (seen disk.old) (seen disk.new) }
    ensures reads { RaisesAtMost (seen disk.old).bytes_read (seen disk.new).bytes_read 0 }
{
    let Ok(name) = str::from_utf8(&file.name) else {
        unreachable!()
    };
    let at = match path_in(alloc, path, name) {
        Ok(at) => at,
        Err(NoMemory) => return Err(ScanError::NoMemory),
    };
    look_at(disk, at.as_str())
}

/// Looks for the message of a name, whose file had this stamp.
pub fn look_for(
    alloc: Global,
    disk: &mut dyn Disk,
    path: &str,
    file: &NumberedName,
    stamp: u128,
) -> Result<Look, ScanError>
    requires { IsNumbered file.now }
    ensures saw { IfOk result (λ look. GoesOn (LookSeen path.now file.now.name.items stamp look)
        (seen disk.old).told (seen disk.new).told) }
    ensures meets { OnlyMeets result (seen disk.old) (seen disk.new) }
    ensures reads { RaisesAtMost (seen disk.old).bytes_read (seen disk.new).bytes_read 0 }
{
    match stat_at(alloc, disk, path, file) {
        Ok(found) => Ok(look_of(found, stamp)),
        Err(why) => Err(why),
    }
}
