//! Adding a message to a Maildir.

ghost use Rattle.std.specs.Prelude.{◌≡◌, IfErr, IfOk, map, true};
ghost use Rattle.disk_model.specs.Judge.{GoesOn};
ghost use Rattle.folder_core.specs.Maildir.{directory};
ghost use Rattle.folder_changes.specs.Calls.{GoesBy};
ghost use Rattle.folder_drivers.specs.Refusing.{IsAny, RefusedFor};
ghost use Rattle.maildir_appends.specs.Causes.{IsMakeIn};
ghost use Rattle.folder_changes.specs.Refused.{IsBetween};
ghost use Rattle.folder_drivers.specs.AppendRow.{AppendsAs};
ghost use Rattle.folder_drivers.specs.FirstLooking.{LooksFirst};
ghost use Rattle.folder_drivers.specs.MaildirAppend as spec;
ghost use Rattle.folder_drivers.specs.MaildirAppend.{maildir_additions};
ghost use Rattle.folder_letters.specs.Letters.{plain_letter};
ghost use Rattle.folder_shapes.specs.Maildir.{maildir_files};
ghost use Rattle.maildir_appends.specs.Placing as placing;
ghost use Rattle.folder_drivers.specs.Preparing.{Prepares};
ghost use Rattle.folder_drivers.specs.Refusing.{BlamesDisk};

use crate::base::free_base;
use crate::listing::list_names;
use crate::places::{Places, places_of};
use crate::put::put;
use disk_model::{Disk, DiskError};
use folder_changes::{Item, SyncError, name_changed};
use folder_core::{Archive, Letter};
use mail_base::Flags;
use std::alloc::Global;

// Looks at the directories of a Maildir for the paths of a message that is added.
fn choose_places(
    alloc: Global,
    disk: &mut dyn Disk,
    path: &str,
    archive: &[Letter],
    moment: u64,
    flags: Flags,
) -> Result<Places, SyncError>
    ensures prepares { Prepares (maildir_files path.now) (seen disk.old).told (seen disk.new).told }
    ensures first { LooksFirst (directory true path.now) result
        (seen disk.old).told (seen disk.new).told }
    ensures chosen { IfOk result (placing.AreChosen path.now archive.now moment flags
        (seen disk.old).told (seen disk.new).told) }
    ensures blames { BlamesDisk result (seen disk.old) (seen disk.new) }
    ensures calls { GoesOn (GoesBy (IsMakeIn path.now)) (seen disk.old).told (seen disk.new).told }
    ensures cause { IfErr result (λ why. IsBetween (RefusedFor IsAny why)
        (seen disk.old).told (seen disk.new).told) }
{
    let present = list_names(alloc, disk, path)?;
    let base = free_base(alloc, moment, &present, archive)?;
    let places = places_of(alloc, path, base.as_str(), flags)?;
    Ok(places)
}

/// Adds one message to the Maildir at a path. Its name has the first base of the moment that no
/// file in `tmp`, `new` and `cur` and no letter of the archive has. It is written in `tmp`, put on
/// the disk, and then named in `cur` where it is seen or aged, and else in `new`.
pub fn append(
    alloc: Global,
    disk: &mut dyn Disk,
    path: &str,
    archive: &Archive,
    item: &Item,
) -> Result<(), SyncError>
    ensures { AppendsAs maildir_additions path.now (map plain_letter archive.now.items) item.now
        result (seen disk.old) (seen disk.new) }
{
    let letters = archive.as_slice();
    let moment = seconds_of(item);
    let places = match choose_places(alloc, disk, path, letters, moment, item.flags) {
        Ok(places) => places,
        Err(why) => return Err(why),
    };
    match put(alloc, disk, path, &places, item.text.as_slice()) {
        Ok(()) => Ok(()),
        Err(DiskError::Exists) => Err(name_changed(alloc, places.beside.as_str())),
        Err(why) => Err(SyncError::from(why)),
    }
}

// The seconds at which a message was received, which are none before 1970.
fn seconds_of(item: &Item) -> u64
    ensures { result ≡ spec.seconds_of item.now.moment }
{
    let moment = item.moment;
    if moment < 0 { 0 } else { moment as u64 }
}
