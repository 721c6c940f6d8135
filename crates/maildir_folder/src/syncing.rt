//! Syncs: all files are looked for first, then each changed one is renamed or removed.

ghost use Rattle.std.specs.Prelude.{◌≡◌, ◌<◌, ℕ, Bool, List, IfErr, IfOk, length, map};
ghost use Rattle.mail_base.specs.declared.kind.Kind.TheVariants.{Maildir};
ghost use Rattle.folder_core.specs.Right.{Right};
ghost use Rattle.folder_letters.specs.Letters.{plain_letter};
ghost use Rattle.index_items.specs.Changes.{AreBelow, plain_changes};
ghost use Rattle.maildir_folder.specs.Steps.{AreSteps};
ghost use Rattle.folder_changes.specs.Maildir.{DidWanted};
ghost use Rattle.folder_changes.specs.Asked.{AreApart, AreListed, AreOnce};
ghost use Rattle.disk_model.specs.Judge.{GoesOn};
ghost use Rattle.folder_changes.specs.Calls.{GoesBy};
ghost use Rattle.folder_changes.specs.Refused.{IsBetween, OnChanged};
ghost use Rattle.folder_changes.specs.Serving.{IsErrorAt};
ghost use Rattle.maildir_folder.specs.Steps.{KeepsAllBut, LeavesAll};
ghost use Rattle.folder_drivers.specs.MaildirSync.{IsSyncError, MaildirRefused, WorksByName};
ghost use Rattle.maildir_folder.specs.Causes.{FolderCause, IsMakeNew, IsOfFolder};
ghost use Rattle.maildir_folder.specs.Files.{ListsFiles};
ghost use Rattle.folder_changes.specs.Serving.{Serves};
ghost use Rattle.maildir_folder.specs.Steps.{plain_step};
ghost use Rattle.folder_changes.specs.Asked.{discarded, ids_of, what_of};
ghost use Rattle.folder_drivers.specs.Synced.{Syncs};
ghost use Rattle.maildir_folder.specs.Synced as spec;

use crate::candidates::Candidate;
use crate::files::list_files;
use crate::gone::message_gone;
use crate::plan::{PlanError, plan};
use crate::steps::{Step, keep_names, make_new, take_steps};
use disk_model::Disk;
use folder_changes::{SyncError, listing_synced, name_changed};
use folder_core::{Archive, Known, Letter, ScanError};
use folder_letters::Changed1;
use mail_base::{Bytes, Kind, NoMemory, Stamps};
use std::alloc::Global;

// Why a sync is refused where the files of its folder were not listed.
fn unlisted(alloc: Global, path: &str, why: ScanError) -> SyncError
    ensures at { IsErrorAt path.now result }
    ensures fault { result ≡ SyncError.Fault → why ≡ ScanError.Fault }
    ensures changed { OnChanged result (IsOfFolder why) }
{
    match why {
        ScanError::Fault => SyncError::Fault,
        ScanError::NoMemory => SyncError::NoMemory,
        _ => name_changed(alloc, path),
    }
}

// The files of a folder that may be messages, once its directory `new` is there.
fn find_files(alloc: Global, disk: &mut dyn Disk, path: &str) -> Result<Vec<Candidate>, SyncError>
    ensures serves { Serves result (seen disk.old) (seen disk.new) }
    ensures leaves { LeavesAll path.now (seen disk.old).told (seen disk.new).told }
    ensures files { IfOk result (λ files. spec.AreFiles files.items) }
    ensures lists { IfOk result (λ files. ListsFiles path.now files.items
        (seen disk.old).told (seen disk.new).told) }
    ensures at { IfErr result (IsErrorAt path.now) }
    ensures calls { GoesOn (GoesBy (IsMakeNew path.now))
        (seen disk.old).told (seen disk.new).told }
    ensures cause { IfErr result (λ why. IsBetween (FolderCause path.now why)
        (seen disk.old).told (seen disk.new).told) }
{
    match make_new(alloc, disk, path) {
        Ok(()) => {}
        Err(why) => return Err(why),
    }
    match list_files(alloc, disk, path) {
        Ok(files) => Ok(files),
        Err(why) => Err(unlisted(alloc, path, why)),
    }
}

// The steps of a sync with these changes.
fn find_steps(
    alloc: Global,
    disk: &mut dyn Disk,
    known: &Known,
    archive: &[Letter],
    changes: &[Changed1],
) -> Result<Vec<Step>, SyncError>
    requires within { AreBelow (length archive.now) changes.now }
    requires listed { AreListed known.now.listing (plain_changes changes.now) }
    ensures serves { Serves result (seen disk.old) (seen disk.new) }
    ensures leaves { LeavesAll known.now.path (seen disk.old).told (seen disk.new).told }
    ensures steps { IfOk result (λ steps. AreSteps known.now.path (map plain_letter archive.now)
        (plain_changes changes.now) (map plain_step steps.items)) }
    ensures names { IfErr result (IsSyncError known.now.path (map plain_letter archive.now)
        (ids_of (plain_changes changes.now))) }
    ensures calls { GoesOn (GoesBy (IsMakeNew known.now.path))
        (seen disk.old).told (seen disk.new).told }
    ensures cause { IfErr result (λ why. IsBetween (MaildirRefused known.now
        (map plain_letter archive.now) (plain_changes changes.now) why)
        (seen disk.old).told (seen disk.new).told) }
{
    let files = match find_files(alloc, disk, known.path()) {
        Ok(files) => files,
        Err(why) => return Err(why),
    };
    match plan(alloc, known.path(), files.as_slice(), archive, changes) {
        Ok(steps) => Ok(steps),
        Err(PlanError::Gone(id)) => Err(message_gone(alloc, known, archive, id)),
        Err(PlanError::NoMemory) => Err(SyncError::NoMemory),
    }
}

// Does these changes to the files of a folder.
fn change_files(
    alloc: Global,
    disk: &mut dyn Disk,
    known: &Known,
    archive: &[Letter],
    changes: &[Changed1],
) -> Result<(), SyncError>
    requires within { AreBelow (length archive.now) changes.now }
    requires listed { AreListed known.now.listing (plain_changes changes.now) }
    requires apart { AreApart (map plain_letter archive.now) (plain_changes changes.now) }
    ensures serves { Serves result (seen disk.old) (seen disk.new) }
    ensures does { WorksByName known.now.path (map plain_letter archive.now)
        (plain_changes changes.now) result (seen disk.old).told (seen disk.new).told }
    ensures holds { KeepsAllBut known.now.path
        (discarded (map plain_letter archive.now) (plain_changes changes.now))
        (seen disk.old).told (seen disk.new).told }
    ensures names { IfErr result (IsSyncError known.now.path (map plain_letter archive.now)
        (ids_of (plain_changes changes.now))) }
    ensures cause { IfErr result (λ why. IsBetween (MaildirRefused known.now
        (map plain_letter archive.now) (plain_changes changes.now) why)
        (seen disk.old).told (seen disk.new).told) }
{
    let steps = match find_steps(alloc, disk, known, archive, changes) {
        Ok(steps) => steps,
        Err(why) => return Err(why),
    };
    match take_steps(alloc, disk, steps.as_slice()) {
        Ok(()) => {}
        Err(why) => return Err(why),
    }
    keep_names(alloc, disk, known.path())
}

/// Does these changes to the messages of a folder, as the driver's `sync`.
pub fn sync_folder(
    alloc: Global,
    disk: &mut dyn Disk,
    known: &mut Known,
    archive: &Archive,
    changes: &[Changed1],
) -> Result<(), SyncError>
    requires right { Right Maildir (map plain_letter archive.now.items) known.old
        (seen disk.old).told }
    requires listed { AreListed known.old.listing (plain_changes changes.now) }
    requires once { AreOnce (plain_changes changes.now) }
    ensures { (owner : List ℕ) → (purge : Bool) → Syncs Maildir owner purge
        (map plain_letter archive.now.items) (plain_changes changes.now) known.old known.new result
        (seen disk.old) (seen disk.new) }
{
    let listing = known.listing().as_slice();
    let synced = match listing_synced(alloc, Kind::Maildir, archive.len(), changes, listing) {
        Ok(synced) => synced,
        Err(NoMemory) => return Err(SyncError::NoMemory),
    };
    match change_files(alloc, disk, known, archive.as_slice(), changes) {
        Ok(()) => {
            known.put(synced, Bytes::new(alloc), Stamps::new(alloc));
            Ok(())
        }
        Err(why) => Err(why),
    }
}
