//! The files of discarded messages, which go out of a folder.

ghost use Rattle.std.specs.Prelude.{ℕ, ◌≡◌, ◌<◌, IfErr, IfOk, List, length, map, true};
ghost use Rattle.std.specs.String.{string_bytes};
ghost use Rattle.disk_model.specs.Journal.{SyncDir};
ghost use Rattle.disk_model.specs.Judge.{DoesStep, GoesOn};
ghost use Rattle.folder_letters.specs.Letters.{plain_letter};
ghost use Rattle.index_items.specs.Changes.{AreBelow, plain_change, plain_changes};
ghost use Rattle.folder_changes.specs.Asked.{AreApart, discarded};
ghost use Rattle.folder_changes.specs.Calls.{GoesBy};
ghost use Rattle.folder_changes.specs.Refused.{IsBetween};
ghost use Rattle.folder_changes.specs.Serving.{IsErrorAt, Serves};
ghost use Rattle.folder_core.specs.Directory.{path_in as path_in_lem};
ghost use Rattle.folder_core.specs.Keeping.{mail_of};
ghost use Rattle.folder_core.specs.Known.{KnownFolder};
ghost use Rattle.folder_core.specs.Mh.{is_number};
ghost use Rattle.folder_drivers.specs.MhLeft.{IsNumberCall, MhErrors};
ghost use Rattle.folder_drivers.specs.MhNames as paths;
ghost use Rattle.folder_stops.specs.Words.{has};
ghost use Rattle.mh_syncs.specs.Causes.{CallCause, IsTaking, IsTakingOne, KeyCause, TakeCause};
ghost use Rattle.mh_syncs.specs.Numbers.{AreNumbers};
ghost use Rattle.mh_syncs.specs.Parts as spec;

use crate::names::{message_changed, number_name};
use disk_model::{Disk, DiskError};
use folder_changes::{SyncError, error_at};
use folder_core::{Letter, path_in};
use folder_letters::{Change, Changed1};
use mail_base::NoMemory;
use std::alloc::Global;

// The path to which the file of a message goes that is kept.
fn away_path(alloc: Global, path: &str, name: &str) -> Result<String, NoMemory>
    ensures { IfOk result (λ away. string_bytes away ≡ paths.away_path path.now name.now) }
{
    let mut away = path_in(alloc, path, ",")?;
    away.push_str(name)?;
    Ok(away)
}

// Removes a file, or moves it away.
fn call_away(
    alloc: Global,
    disk: &mut dyn Disk,
    purge: bool,
    at: &str,
    away: &str,
) -> Result<(), DiskError>
    ensures { (path : List ℕ) → (key : List ℕ) → at.now ≡ path_in_lem path key
        → away.now ≡ paths.away_path path key → DoesStep result (paths.call_away purge path key)
        (seen disk.old) (seen disk.new) }
{
    if purge {
        disk.remove(alloc, at)
    } else {
        disk.rename(alloc, at, away)
    }
}

// Takes the file of a name out of a folder.
fn take_name(
    alloc: Global,
    disk: &mut dyn Disk,
    purge: bool,
    path: &str,
    name: &str,
) -> Result<(), SyncError>
    requires { is_number name.now ≡ true }
    ensures serves { Serves result (seen disk.old) (seen disk.new) }
    ensures takes { spec.TakesOne purge path.now name.now result (seen disk.old).told
        (seen disk.new).told }
    ensures holds { (keys : List (List ℕ)) → has keys name.now ≡ true
        → spec.KeepsAllBut path.now keys (seen disk.old).told (seen disk.new).told }
    ensures at { IfErr result (IsErrorAt (path_in_lem path.now name.now)) }
    ensures calls { GoesOn (GoesBy (IsTaking path.now name.now))
        (seen disk.old).told (seen disk.new).told }
    ensures cause { IfErr result (λ why.
        IsBetween (CallCause (IsNumberCall path.now name.now) why)
        (seen disk.old).told (seen disk.new).told) }
{
    let at = match path_in(alloc, path, name) {
        Ok(at) => at,
        Err(NoMemory) => return Err(SyncError::NoMemory),
    };
    let away = match away_path(alloc, path, name) {
        Ok(away) => away,
        Err(NoMemory) => return Err(SyncError::NoMemory),
    };
    match call_away(alloc, disk, purge, at.as_str(), away.as_str()) {
        Ok(()) => Ok(()),
        Err(why) => Err(error_at(alloc, at.as_str(), why)),
    }
}

// Takes the file of a message out of a folder.
fn take_one(
    alloc: Global,
    disk: &mut dyn Disk,
    purge: bool,
    path: &str,
    key: &[u8],
) -> Result<(), SyncError>
    ensures serves { Serves result (seen disk.old) (seen disk.new) }
    ensures takes { spec.TakesOne purge path.now key.now result (seen disk.old).told
        (seen disk.new).told }
    ensures holds { (keys : List (List ℕ)) → has keys key.now ≡ true
        → spec.KeepsAllBut path.now keys (seen disk.old).told (seen disk.new).told }
    ensures at { IfErr result (IsErrorAt (path_in_lem path.now key.now)) }
    ensures calls { GoesOn (GoesBy (IsTaking path.now key.now))
        (seen disk.old).told (seen disk.new).told }
    ensures cause { IfErr result (λ why. IsBetween (KeyCause path.now key.now why)
        (seen disk.old).told (seen disk.new).told) }
{
    let Some(name) = number_name(key) else {
        return Err(message_changed(alloc, path, key));
    };
    match take_name(alloc, disk, purge, path, name) {
        Ok(()) => Ok(()),
        Err(why) => Err(why),
    }
}

// Does to the file of a message what is to become of it: it goes where the message is discarded.
fn take_changed(
    alloc: Global,
    disk: &mut dyn Disk,
    purge: bool,
    path: &str,
    archive: &[Letter],
    changed: Changed1,
) -> Result<(), SyncError>
    requires { changed.id.0 < length archive.now }
    ensures serves { Serves result (seen disk.old) (seen disk.new) }
    ensures takes { spec.WentAway purge path.now (spec.gone_at
        (mail_of (map plain_letter archive.now) changed.id.0).key (plain_change changed.change))
        result (seen disk.old).told (seen disk.new).told }
    ensures holds { (keys : List (List ℕ)) → spec.MayGo keys
        (mail_of (map plain_letter archive.now) changed.id.0).key (plain_change changed.change)
        → spec.KeepsAllBut path.now keys (seen disk.old).told (seen disk.new).told }
    ensures at { IfErr result (IsErrorAt (path_in_lem path.now
        (mail_of (map plain_letter archive.now) changed.id.0).key)) }
    ensures calls { GoesOn (GoesBy (IsTaking path.now
        (mail_of (map plain_letter archive.now) changed.id.0).key))
        (seen disk.old).told (seen disk.new).told }
    ensures cause { IfErr result (λ why. IsBetween (KeyCause path.now
        (mail_of (map plain_letter archive.now) changed.id.0).key why)
        (seen disk.old).told (seen disk.new).told) }
{
    match changed.change {
        Change::Alter(_) => Ok(()),
        Change::Discard => {
            let key = archive[changed.id.0 as usize].key.as_slice();
            match take_one(alloc, disk, purge, path, key) {
                Ok(()) => Ok(()),
                Err(why) => Err(why),
            }
        }
    }
}

/// Takes the files of all discarded messages out of a folder, up to the first that is refused.
pub fn take_all(
    alloc: Global,
    disk: &mut dyn Disk,
    purge: bool,
    path: &str,
    archive: &[Letter],
    changes: &[Changed1],
) -> Result<(), SyncError>
    requires within { AreBelow (length archive.now) changes.now }
    requires apart { AreApart (map plain_letter archive.now) (plain_changes changes.now) }
    ensures serves { Serves result (seen disk.old) (seen disk.new) }
    ensures takes { spec.WentAway purge path.now (spec.gone_of (map plain_letter archive.now)
        (plain_changes changes.now)) result (seen disk.old).told (seen disk.new).told }
    ensures holds { spec.KeepsAllBut path.now
        (discarded (map plain_letter archive.now) (plain_changes changes.now))
        (seen disk.old).told (seen disk.new).told }
    ensures names { (known : KnownFolder) → path.now ≡ known.path → IfErr result (MhErrors known
        (map plain_letter archive.now) (plain_changes changes.now)) }
    ensures calls { GoesOn (GoesBy (IsTakingOne path.now))
        (seen disk.old).told (seen disk.new).told }
    ensures cause { IfErr result (λ why. IsBetween (TakeCause path.now
        (map plain_letter archive.now) (plain_changes changes.now) why)
        (seen disk.old).told (seen disk.new).told) }
{
    let mut left = changes;
    while let [changed, rest @ ..] = left {
        match take_changed(alloc, disk, purge, path, archive, *changed) {
            Ok(()) => {}
            Err(why) => return Err(why),
        }
        left = rest;
    }
    Ok(())
}

/// Puts the names in a folder on the disk.
pub fn keep_names(alloc: Global, disk: &mut dyn Disk, path: &str) -> Result<(), SyncError>
    ensures serves { Serves result (seen disk.old) (seen disk.new) }
    ensures leaves { spec.LeavesAll path.now (seen disk.old).told (seen disk.new).told }
    ensures at { IfErr result (IsErrorAt path.now) }
    ensures cause { IfErr result (λ why.
        IsBetween (CallCause (λ call. call ≡ SyncDir path.now) why)
        (seen disk.old).told (seen disk.new).told) }
{
    match disk.sync_dir(alloc, path) {
        Ok(()) => Ok(()),
        Err(why) => Err(error_at(alloc, path, why)),
    }
}
