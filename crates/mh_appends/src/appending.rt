//! Adding a message to an MH folder.

ghost use Rattle.std.specs.Prelude.{◌≡◌, IfErr, IfOk, map};
ghost use Rattle.disk_model.specs.Looking.{LooksOnly};
ghost use Rattle.folder_changes.specs.Refused.{IsBetween};
ghost use Rattle.folder_drivers.specs.AppendRow.{AppendsAs};
ghost use Rattle.folder_drivers.specs.FirstLooking.{LooksFirst};
ghost use Rattle.folder_drivers.specs.MetNames.{SawNames, plain_names};
ghost use Rattle.folder_drivers.specs.MhAppend as spec;
ghost use Rattle.folder_drivers.specs.MhAppend.{MhAppendRefused, mh_additions};
ghost use Rattle.folder_drivers.specs.Refusing.{BlamesDisk};
ghost use Rattle.folder_letters.specs.Letters.{plain_letter};
ghost use Rattle.mh_appends.specs.Leftovers.{Empties, MakesReady};
ghost use Rattle.mh_appends.specs.Placing as placing;

use crate::leftovers::take_leftovers;
use crate::number::next_number;
use crate::places::{Places, places_of};
use crate::put::put;
use disk_model::Disk;
use folder_changes::{Item, SyncError};
use folder_core::Archive;
use mail_base::Names;
use std::alloc::Global;

// The names in the folder.
fn list_names(alloc: Global, disk: &mut dyn Disk, path: &str) -> Result<Names, SyncError>
    ensures looks { LooksOnly (seen disk.old).told (seen disk.new).told }
    ensures ready { MakesReady path.now (seen disk.old).told (seen disk.new).told }
    ensures first { LooksFirst path.now result (seen disk.old).told (seen disk.new).told }
    ensures saw { IfOk result (λ names. SawNames path.now (plain_names names)
        (seen disk.old).told (seen disk.new).told) }
    ensures met { IfOk result (λ names. placing.MetListing path.now (plain_names names)
        (seen disk.old).told (seen disk.new).told) }
    ensures cause { IfErr result (λ why. IsBetween (MhAppendRefused path.now why)
        (seen disk.old).told (seen disk.new).told) }
    ensures blames { BlamesDisk result (seen disk.old) (seen disk.new) }
{
    let names = disk.list(alloc, path)?;
    Ok(names)
}

// The names in the folder, in which nothing is left over then.
fn look_over(alloc: Global, disk: &mut dyn Disk, path: &str) -> Result<Names, SyncError>
    ensures empties { IfOk result (λ names. Empties path.now
        (seen disk.old).told (seen disk.new).told) }
    ensures ready { MakesReady path.now (seen disk.old).told (seen disk.new).told }
    ensures first { LooksFirst path.now result (seen disk.old).told (seen disk.new).told }
    ensures saw { IfOk result (λ names. SawNames path.now (plain_names names)
        (seen disk.old).told (seen disk.new).told) }
    ensures met { IfOk result (λ names. placing.MetListing path.now (plain_names names)
        (seen disk.old).told (seen disk.new).told) }
    ensures cause { IfErr result (λ why. IsBetween (MhAppendRefused path.now why)
        (seen disk.old).told (seen disk.new).told) }
    ensures blames { BlamesDisk result (seen disk.old) (seen disk.new) }
{
    let names = list_names(alloc, disk, path)?;
    match take_leftovers(alloc, disk, path) {
        Ok(()) => Ok(names),
        Err(why) => Err(SyncError::from(why)),
    }
}

// Looks at the folder for the paths of a message that is added.
fn choose_places(alloc: Global, disk: &mut dyn Disk, path: &str) -> Result<Places, SyncError>
    ensures ready { MakesReady path.now (seen disk.old).told (seen disk.new).told }
    ensures first { LooksFirst path.now result (seen disk.old).told (seen disk.new).told }
    ensures chosen { IfOk result (placing.AreChosen path.now
        (seen disk.old).told (seen disk.new).told) }
    ensures cause { IfErr result (λ why. IsBetween (MhAppendRefused path.now why)
        (seen disk.old).told (seen disk.new).told) }
    ensures blames { BlamesDisk result (seen disk.old) (seen disk.new) }
{
    let names = look_over(alloc, disk, path)?;
    let number = next_number(names.as_slice())?;
    let places = places_of(alloc, path, number)?;
    Ok(places)
}

// The bytes of a message of this text.
fn core_of(text: &[u8]) -> &[u8]
    ensures { result.now ≡ spec.mh_core text.now }
{
    if text.is_empty() { b"\n" } else { text }
}

/// Adds one message to the MH folder at a path. An empty file holds its number, which is the one
/// above the highest in the folder; then it is written beside, the sequences get its flags, and it
/// is put under its number.
pub fn append(
    alloc: Global,
    disk: &mut dyn Disk,
    path: &str,
    archive: &Archive,
    item: &Item,
) -> Result<(), SyncError>
    ensures { AppendsAs mh_additions path.now (map plain_letter archive.now.items) item.now
        result (seen disk.old) (seen disk.new) }
{
    let places = match choose_places(alloc, disk, path) {
        Ok(places) => places,
        Err(why) => return Err(why),
    };
    let core = core_of(item.text.as_slice());
    put(alloc, disk, path, &places, item.flags, core)
}
