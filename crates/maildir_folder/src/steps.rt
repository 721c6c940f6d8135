//! The steps of a sync: files of a folder that are renamed or removed.

ghost use Rattle.std.specs.Prelude.{ℕ, ◌≡◌, IfErr, IfSome, List, None, OnOk, codes, map};
ghost use Rattle.disk_model.specs.Journal.{SyncDir};
ghost use Rattle.disk_model.specs.Judge.{DoesStep, GoesOn};
ghost use Rattle.folder_letters.specs.Letters.{Mail};
ghost use Rattle.index_items.specs.Changes.{Changed};
ghost use Rattle.folder_changes.specs.Asked.{AreApart, discarded, ids_of, what_of};
ghost use Rattle.folder_changes.specs.Calls.{GoesBy};
ghost use Rattle.folder_changes.specs.Refused.{IsBetween, OnChanged};
ghost use Rattle.folder_changes.specs.Serving.{IsErrorAt, Serves};
ghost use Rattle.folder_changes.specs.Maildir.{DidWanted};
ghost use Rattle.folder_core.specs.Directory.{path_in as path_in_lem};
ghost use Rattle.folder_drivers.specs.MaildirSync.{IsSyncError, NeedsDirectory, WorksByName};
ghost use Rattle.maildir_folder.specs.Causes.{CallCause, FolderCause, IsCallOf, IsMakeNew};
ghost use Rattle.maildir_folder.specs.Causes.{IsNoFolder};
ghost use Rattle.maildir_folder.specs.Causes.{IsStepCall, StepsCause};
ghost use Rattle.maildir_folder.specs.Steps as spec;

use disk_model::{Disk, DiskError};
use folder_changes::{SyncError, error_at};
use folder_core::path_in;
use mail_base::NoMemory;
use std::alloc::Global;

/// The path of a file, and the path to which it goes, where it does not go away.
#[derive(Drop)]
pub struct Step {
    pub from: String,
    pub to: Option<String>,
}

// The call of a step.
fn call_step(alloc: Global, disk: &mut dyn Disk, step: &Step) -> Result<(), DiskError>
    ensures { DoesStep result (spec.call_of (spec.plain_step step.now))
        (seen disk.old) (seen disk.new) }
{
    match &step.to {
        Some(to) => disk.rename(alloc, step.from.as_str(), to.as_str()),
        None => disk.remove(alloc, step.from.as_str()),
    }
}

// Takes a step; a refusal names the path of its file.
fn take_step(alloc: Global, disk: &mut dyn Disk, step: &Step) -> Result<(), SyncError>
    ensures serves { Serves result (seen disk.old) (seen disk.new) }
    ensures takes { spec.TakesStep result (spec.plain_step step.now)
        (seen disk.old).told (seen disk.new).told }
    ensures at { IfErr result (IsErrorAt (spec.plain_step step.now).from) }
    ensures calls { GoesOn (GoesBy (IsCallOf (spec.plain_step step.now)))
        (seen disk.old).told (seen disk.new).told }
    ensures cause { IfErr result (λ why.
        IsBetween (CallCause (IsCallOf (spec.plain_step step.now)) why)
        (seen disk.old).told (seen disk.new).told) }
{
    match call_step(alloc, disk, step) {
        Ok(()) => Ok(()),
        Err(why) => Err(error_at(alloc, step.from.as_str(), why)),
    }
}

/// Takes these steps one behind the other, up to the first that is refused.
pub fn take_steps(alloc: Global, disk: &mut dyn Disk, steps: &[Step]) -> Result<(), SyncError>
    ensures serves { Serves result (seen disk.old) (seen disk.new) }
    ensures does { (path : List ℕ) → (mails : List Mail) → (changes : List Changed)
        → AreApart mails changes
        → spec.AreSteps path mails changes (map spec.plain_step steps.now)
        → WorksByName path mails changes result (seen disk.old).told (seen disk.new).told }
    ensures names { (path : List ℕ) → (mails : List Mail) → (changes : List Changed)
        → AreApart mails changes
        → spec.AreSteps path mails changes (map spec.plain_step steps.now)
        → IfErr result (IsSyncError path mails (ids_of changes)) }
    ensures holds { (path : List ℕ) → (mails : List Mail) → (changes : List Changed)
        → spec.AreSteps path mails changes (map spec.plain_step steps.now)
        → spec.KeepsAllBut path (discarded mails changes)
        (seen disk.old).told (seen disk.new).told }
    ensures calls { (path : List ℕ) → (mails : List Mail) → (changes : List Changed)
        → AreApart mails changes
        → spec.AreSteps path mails changes (map spec.plain_step steps.now)
        → OnOk result (GoesOn (GoesBy (IsStepCall path))
        (seen disk.old).told (seen disk.new).told) }
    ensures cause { (path : List ℕ) → (mails : List Mail) → (changes : List Changed)
        → AreApart mails changes
        → spec.AreSteps path mails changes (map spec.plain_step steps.now)
        → IfErr result (λ why. IsBetween (StepsCause path mails (ids_of changes) why)
        (seen disk.old).told (seen disk.new).told) }
{
    let mut left = steps;
    while let [step, rest @ ..] = left {
        match take_step(alloc, disk, step) {
            Ok(()) => {}
            Err(why) => return Err(why),
        }
        left = rest;
    }
    Ok(())
}

// Puts the names in a directory of the folder on the disk.
fn keep_names_in(
    alloc: Global,
    disk: &mut dyn Disk,
    path: &str,
    name: &str,
) -> Result<(), SyncError>
    ensures serves { Serves result (seen disk.old) (seen disk.new) }
    ensures leaves { spec.LeavesAll path.now (seen disk.old).told (seen disk.new).told }
    ensures at { IfErr result (IsErrorAt path.now) }
    ensures calls { GoesOn (GoesBy (λ call. call ≡ SyncDir (path_in_lem path.now name.now)))
        (seen disk.old).told (seen disk.new).told }
    ensures cause { IfErr result (λ why.
        IsBetween (CallCause (λ call. call ≡ SyncDir (path_in_lem path.now name.now)) why)
        (seen disk.old).told (seen disk.new).told) }
{
    let dir = match path_in(alloc, path, name) {
        Ok(dir) => dir,
        Err(NoMemory) => return Err(SyncError::NoMemory),
    };
    match disk.sync_dir(alloc, dir.as_str()) {
        Ok(()) => Ok(()),
        Err(why) => Err(error_at(alloc, path, why)),
    }
}

/// Puts the names in `new` and in `cur` on the disk.
pub fn keep_names(alloc: Global, disk: &mut dyn Disk, path: &str) -> Result<(), SyncError>
    ensures serves { Serves result (seen disk.old) (seen disk.new) }
    ensures leaves { spec.LeavesAll path.now (seen disk.old).told (seen disk.new).told }
    ensures at { IfErr result (IsErrorAt path.now) }
    ensures cause { IfErr result (λ why. IsBetween (CallCause (NeedsDirectory path.now) why)
        (seen disk.old).told (seen disk.new).told) }
{
    match keep_names_in(alloc, disk, path, "new") {
        Ok(()) => {}
        Err(why) => return Err(why),
    }
    keep_names_in(alloc, disk, path, "cur")
}

// Why the directory `new` is not there, where making it was refused so.
fn unmade(alloc: Global, path: &str, why: DiskError) -> Option<SyncError>
    ensures there { result ≡ None → why ≡ DiskError.Exists }
    ensures at { IfSome result (IsErrorAt path.now) }
    ensures fault { IfSome result (λ told. told ≡ SyncError.Fault → why ≡ DiskError.Fault) }
    ensures changed { IfSome result (λ told. OnChanged told (IsNoFolder why)) }
{
    match why {
        DiskError::Exists => None,
        _ => Some(error_at(alloc, path, why)),
    }
}

/// Makes the directory `new`, where nothing stands there.
pub fn make_new(alloc: Global, disk: &mut dyn Disk, path: &str) -> Result<(), SyncError>
    ensures serves { Serves result (seen disk.old) (seen disk.new) }
    ensures leaves { spec.LeavesAll path.now (seen disk.old).told (seen disk.new).told }
    ensures at { IfErr result (IsErrorAt path.now) }
    ensures calls { GoesOn (GoesBy (IsMakeNew path.now))
        (seen disk.old).told (seen disk.new).told }
    ensures cause { IfErr result (λ why. IsBetween (FolderCause path.now why)
        (seen disk.old).told (seen disk.new).told) }
{
    let dir = match path_in(alloc, path, "new") {
        Ok(dir) => dir,
        Err(NoMemory) => return Err(SyncError::NoMemory),
    };
    match disk.make_dir(alloc, dir.as_str()) {
        Ok(()) => Ok(()),
        Err(why) => match unmade(alloc, path, why) {
            None => Ok(()),
            Some(told) => Err(told),
        },
    }
}
