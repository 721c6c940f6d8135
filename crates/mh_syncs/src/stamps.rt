//! Stamps of the files of messages, which are looked at before one of them is touched.

ghost use Rattle.std.specs.Prelude.{ℕ, ◌≡◌, ◌<◌, IfErr, List, OnOk, length, map, true};
ghost use Rattle.disk_model.specs.Looking.{LooksOnly};
ghost use Rattle.folder_letters.specs.Letters.{plain_letter};
ghost use Rattle.index_items.specs.Changes.{AreBelow, plain_changes};
ghost use Rattle.folder_core.specs.Directory.{path_in as path_in_lem};
ghost use Rattle.folder_core.specs.Keeping.{mail_of};
ghost use Rattle.folder_changes.specs.Refused.{OnChanged};
ghost use Rattle.folder_changes.specs.Serving.{IsErrorAt, Serves};
ghost use Rattle.folder_drivers.specs.MhLeft.{MhErrors, stamp_known as stamp_known_lem};
ghost use Rattle.folder_core.specs.Mh.{is_number};
ghost use Rattle.mh_syncs.specs.Causes.{BearsNot, IsUnlike, KeyUnlike};
ghost use Rattle.mh_syncs.specs.Numbers.{AreNumbers};
ghost use Rattle.mh_syncs.specs.Stamps as spec;

use crate::names::{message_changed, number_name};
use disk_model::{Disk, Stat};
use folder_changes::{SyncError, name_changed};
use folder_core::{Known, Letter, Listed, ScanError, look_at, path_in};
use folder_letters::Changed1;
use mail_base::{Id, NoMemory};
use std::alloc::Global;

// The stamp with which the file of a listed message was read.
fn stamp_known(listing: &[Listed], stamps: &[u128], id: Id) -> Option<u128>
    ensures { result ≡ stamp_known_lem listing.now stamps.now id.0 }
{
    let mut left = listing;
    let mut stamps_left = stamps;
    while let [listed, rest @ ..] = left {
        let [stamp, others @ ..] = stamps_left else {
            return None;
        };
        if listed.id.0 == id.0 {
            return Some(*stamp);
        }
        left = rest;
        stamps_left = others;
    }
    None
}

// Whether what was found is a file with this stamp.
fn bears(stamp: Option<u128>, found: Option<Stat>) -> bool
    ensures { result ≡ spec.bears_found stamp found }
{
    match (stamp, found) {
        (Some(stamp), Some(stat)) => !stat.folder && stat.stamp == stamp,
        _ => false,
    }
}

/// Why a sync is refused where a look was.
pub fn not_looked(why: ScanError) -> SyncError
    ensures fault { result ≡ SyncError.Fault → why ≡ ScanError.Fault }
    ensures at { (at : List ℕ) → IsErrorAt at result }
    ensures unchanged { OnChanged result ⊥ }
{
    match why {
        ScanError::Fault => SyncError::Fault,
        _ => SyncError::NoMemory,
    }
}

// What stands at a path is a file with this stamp, or is refused.
fn check_file(
    alloc: Global,
    disk: &mut dyn Disk,
    at: &str,
    stamp: Option<u128>,
) -> Result<(), SyncError>
    ensures serves { Serves result (seen disk.old) (seen disk.new) }
    ensures looks { LooksOnly (seen disk.old).told (seen disk.new).told }
    ensures bears { OnOk result (spec.Bears stamp at.now (seen disk.old).told
        (seen disk.new).told) }
    ensures at { IfErr result (IsErrorAt at.now) }
    ensures cause { IfErr result (λ why. OnChanged why (BearsNot stamp at.now
        (seen disk.old).told (seen disk.new).told)) }
{
    match look_at(disk, at) {
        Ok(found) => {
            if bears(stamp, found) {
                Ok(())
            } else {
                Err(name_changed(alloc, at))
            }
        }
        Err(why) => Err(not_looked(why)),
    }
}

// The file of a message has this stamp, or is refused.
fn check_message(
    alloc: Global,
    disk: &mut dyn Disk,
    path: &str,
    key: &[u8],
    stamp: Option<u128>,
) -> Result<(), SyncError>
    ensures serves { Serves result (seen disk.old) (seen disk.new) }
    ensures looks { LooksOnly (seen disk.old).told (seen disk.new).told }
    ensures bears { OnOk result (spec.Bears stamp (path_in_lem path.now key.now)
        (seen disk.old).told (seen disk.new).told) }
    ensures number { OnOk result (is_number key.now ≡ true) }
    ensures at { IfErr result (IsErrorAt (path_in_lem path.now key.now)) }
    ensures cause { IfErr result (λ why. OnChanged why (KeyUnlike path.now key.now stamp
        (seen disk.old).told (seen disk.new).told)) }
{
    let Some(name) = number_name(key) else {
        return Err(message_changed(alloc, path, key));
    };
    let at = match path_in(alloc, path, name) {
        Ok(at) => at,
        Err(NoMemory) => return Err(SyncError::NoMemory),
    };
    match check_file(alloc, disk, at.as_str(), stamp) {
        Ok(()) => Ok(()),
        Err(why) => Err(why),
    }
}

// The same of a message that changes.
fn check_changed(
    alloc: Global,
    disk: &mut dyn Disk,
    known: &Known,
    archive: &[Letter],
    changed: Changed1,
) -> Result<(), SyncError>
    requires { changed.id.0 < length archive.now }
    ensures serves { Serves result (seen disk.old) (seen disk.new) }
    ensures looks { LooksOnly (seen disk.old).told (seen disk.new).told }
    ensures bears { OnOk result (spec.Bears
        (stamp_known_lem known.now.listing known.now.stamps changed.id.0)
        (path_in_lem known.now.path (mail_of (map plain_letter archive.now) changed.id.0).key)
        (seen disk.old).told (seen disk.new).told) }
    ensures number { OnOk result
        (is_number (mail_of (map plain_letter archive.now) changed.id.0).key ≡ true) }
    ensures at { IfErr result (IsErrorAt (path_in_lem known.now.path
        (mail_of (map plain_letter archive.now) changed.id.0).key)) }
    ensures cause { IfErr result (λ why. OnChanged why (KeyUnlike known.now.path
        (mail_of (map plain_letter archive.now) changed.id.0).key
        (stamp_known_lem known.now.listing known.now.stamps changed.id.0)
        (seen disk.old).told (seen disk.new).told)) }
{
    let key = archive[changed.id.0 as usize].key.as_slice();
    let listing = known.listing().as_slice();
    let stamp = stamp_known(listing, known.stamps().as_slice(), changed.id);
    match check_message(alloc, disk, known.path(), key, stamp) {
        Ok(()) => Ok(()),
        Err(why) => Err(why),
    }
}

/// The files of all messages that change have their known stamps, or one is refused.
pub fn check_all(
    alloc: Global,
    disk: &mut dyn Disk,
    known: &Known,
    archive: &[Letter],
    changes: &[Changed1],
) -> Result<(), SyncError>
    requires { AreBelow (length archive.now) changes.now }
    ensures serves { Serves result (seen disk.old) (seen disk.new) }
    ensures looks { LooksOnly (seen disk.old).told (seen disk.new).told }
    ensures bears { OnOk result (spec.AllBear known.now (map plain_letter archive.now)
        (plain_changes changes.now) (seen disk.old).told (seen disk.new).told) }
    ensures numbers { OnOk result (AreNumbers (map plain_letter archive.now)
        (plain_changes changes.now)) }
    ensures names { IfErr result (MhErrors known.now (map plain_letter archive.now)
        (plain_changes changes.now)) }
    ensures cause { IfErr result (λ why. OnChanged why (IsUnlike known.now
        (map plain_letter archive.now) (plain_changes changes.now) why
        (seen disk.old).told (seen disk.new).told)) }
{
    let mut left = changes;
    while let [changed, rest @ ..] = left {
        match check_changed(alloc, disk, known, archive, *changed) {
            Ok(()) => {}
            Err(why) => return Err(why),
        }
        left = rest;
    }
    Ok(())
}
