//! What stands in the directories of a Maildir to which a message is added.

ghost use Rattle.std.specs.Prelude.{◌≡◌, [], IfErr, IfOk, None, codes, true};
ghost use Rattle.disk_model.specs.Judge.{GoesOn};
ghost use Rattle.disk_model.specs.Looking.{LooksOnly};
ghost use Rattle.folder_changes.specs.Calls.{GoesBy};
ghost use Rattle.folder_drivers.specs.Refusing.{IsAny, IsMake};
ghost use Rattle.maildir_appends.specs.Causes.{IsListOrMake, IsMakeIn, MeetsFree};
ghost use Rattle.folder_drivers.specs.Refusing.{RefusedFor};
ghost use Rattle.folder_changes.specs.Refused.{IsBetween};
ghost use Rattle.folder_core.specs.Directory.{path_in as path_in_lem};
ghost use Rattle.folder_core.specs.Maildir.{directory};
ghost use Rattle.folder_shapes.specs.Maildir.{maildir_files};
ghost use Rattle.folder_drivers.specs.FirstLooking.{LooksFirst};
ghost use Rattle.folder_drivers.specs.MetNames.{SawNames};
ghost use Rattle.maildir_appends.specs.Meeting.{SawPresent};
ghost use Rattle.maildir_appends.specs.Placing.{IsApart};
ghost use Rattle.folder_drivers.specs.Preparing.{Prepares};
ghost use Rattle.folder_drivers.specs.Refusing.{BlamesDisk};
ghost use Rattle.folder_drivers.specs.MetNames.{plain_names};

use disk_model::{Disk, DiskError};
use folder_changes::SyncError;
use folder_core::path_in;
use mail_base::Names;
use std::alloc::Global;

/// The names in the directories of a Maildir.
#[derive(Drop)]
pub struct Present {
    pub cur: Names,
    pub new: Names,
    pub tmp: Names,
}

// The names in `cur`.
fn cur_names(alloc: Global, disk: &mut dyn Disk, path: &str) -> Result<Names, SyncError>
    ensures prepares { Prepares (maildir_files path.now) (seen disk.old).told (seen disk.new).told }
    ensures first { LooksFirst (directory true path.now) result
        (seen disk.old).told (seen disk.new).told }
    ensures saw { IfOk result (λ names. SawNames (directory true path.now) (plain_names names)
        (seen disk.old).told (seen disk.new).told) }
    ensures blames { BlamesDisk result (seen disk.old) (seen disk.new) }
    ensures looks { LooksOnly (seen disk.old).told (seen disk.new).told }
    ensures cause { IfErr result (λ why. IsBetween (RefusedFor IsAny why)
        (seen disk.old).told (seen disk.new).told) }
{
    let dir = path_in(alloc, path, "cur")?;
    let names = disk.list(alloc, dir.as_str())?;
    Ok(names)
}

// Makes a directory, in which there is nothing then.
fn make_dir(alloc: Global, disk: &mut dyn Disk, path: &str, dir: &str) -> Result<Names, SyncError>
    requires apart { (maildir_files path.now).shape.slot dir.now ≡ None }
    requires inside { (maildir_files path.now).shape.home dir.now ≡ true }
    ensures prepares { Prepares (maildir_files path.now) (seen disk.old).told (seen disk.new).told }
    ensures none { IfOk result (λ names. names.items ≡ []) }
    ensures blames { BlamesDisk result (seen disk.old) (seen disk.new) }
    ensures calls { GoesOn (GoesBy (IsMake dir.now)) (seen disk.old).told (seen disk.new).told }
    ensures cause { IfErr result (λ why. IsBetween (RefusedFor (IsMake dir.now) why)
        (seen disk.old).told (seen disk.new).told) }
{
    disk.make_dir(alloc, dir)?;
    Ok(Names::new(alloc))
}

// The names in a directory that is made where it is missing.
fn names_or_none(
    alloc: Global,
    disk: &mut dyn Disk,
    path: &str,
    word: &str,
) -> Result<Names, SyncError>
    requires { IsApart path.now word.now }
    ensures prepares { Prepares (maildir_files path.now) (seen disk.old).told (seen disk.new).told }
    ensures saw { IfOk result (λ names. SawNames (path_in_lem path.now word.now)
        (plain_names names) (seen disk.old).told (seen disk.new).told) }
    ensures blames { BlamesDisk result (seen disk.old) (seen disk.new) }
    ensures calls { GoesOn (GoesBy (IsMake (path_in_lem path.now word.now)))
        (seen disk.old).told (seen disk.new).told }
    ensures meets { IfOk result (λ names. MeetsFree (path_in_lem path.now word.now)
        (plain_names names) (seen disk.old).told (seen disk.new).told) }
    ensures cause { IfErr result (λ why. IsBetween
        (RefusedFor (IsListOrMake (path_in_lem path.now word.now)) why)
        (seen disk.old).told (seen disk.new).told) }
{
    let dir = path_in(alloc, path, word)?;
    match disk.list(alloc, dir.as_str()) {
        Ok(names) => Ok(names),
        Err(DiskError::Missing) => {
            // That the past is lawful tells that nothing stands in a directory that is not there.
            let _ = disk.mark();
            make_dir(alloc, disk, path, dir.as_str())
        }
        Err(why) => Err(SyncError::from(why)),
    }
}

/// Looks at the directories of a Maildir, and makes `new` and `tmp` where they are missing.
pub fn list_names(alloc: Global, disk: &mut dyn Disk, path: &str) -> Result<Present, SyncError>
    ensures prepares { Prepares (maildir_files path.now) (seen disk.old).told (seen disk.new).told }
    ensures first { LooksFirst (directory true path.now) result
        (seen disk.old).told (seen disk.new).told }
    ensures saw { IfOk result (λ present. SawPresent path.now present
        (seen disk.old).told (seen disk.new).told) }
    ensures blames { BlamesDisk result (seen disk.old) (seen disk.new) }
    ensures calls { GoesOn (GoesBy (IsMakeIn path.now)) (seen disk.old).told (seen disk.new).told }
    ensures meets { IfOk result (λ present. MeetsFree (path_in_lem path.now (codes "tmp"))
        (plain_names present.tmp) (seen disk.old).told (seen disk.new).told) }
    ensures cause { IfErr result (λ why. IsBetween (RefusedFor IsAny why)
        (seen disk.old).told (seen disk.new).told) }
{
    let cur = cur_names(alloc, disk, path)?;
    let new = match names_or_none(alloc, disk, path, "new") {
        Ok(names) => names,
        Err(why) => return Err(why),
    };
    match names_or_none(alloc, disk, path, "tmp") {
        Ok(tmp) => Ok(Present { cur, new, tmp }),
        Err(why) => Err(why),
    }
}
