//! The writing of a mailbox under its lock, and the giving back of the lock.

ghost use Rattle.std.specs.Prelude.{◌≡◌, ◌≤◌, ◌⊎◌, ◌+◌, Bool, IfOk, List, ℕ, length};
ghost use Rattle.std.specs.String.{string_bytes};
ghost use Rattle.folder_changes.specs.Serving.{Serves};
ghost use Rattle.folder_core.specs.Limits.{most_bytes};
ghost use Rattle.folder_drivers.specs.MboxLocked.{Locked, Passes};
ghost use Rattle.folder_tails.specs.Recovery.{Entered, PassesOwn, SafeLeads};
ghost use Rattle.folder_tails.specs.Rows.{IsSafe};
ghost use Rattle.folder_tails.specs.Sides.{lock_of};
ghost use Rattle.mbox_writes.specs.Calls as calls;

use crate::refusals::refused_tail;
use disk_model::{Disk, DiskError};
use folder_changes::SyncError;
use folder_core::ScanError;
use folder_tails::{finish_tail_on, write_tail_on};
use mail_base::NoMemory;
use std::alloc::Global;

// Gives a lock back behind a refusal, as far as the disk does it. The refusal is answered, or want
// of memory for giving it back.
fn give_back(
    alloc: Global,
    disk: &mut dyn Disk,
    path: &str,
    held: &mut bool,
    owner: &[u8],
    why: SyncError,
) -> SyncError
    ensures told { (result ≡ why) ⊎ (result ≡ SyncError.NoMemory) }
    ensures stays { (ours : List ℕ → Bool) → PassesOwn owner.now ours
        → SafeLeads path.now ours (seen disk.old).told
        (seen disk.new).told
        (Entered path.now ours held.old) (IsSafe path.now ours) }
    ensures goes { calls.GoesOn (seen disk.old)
        (seen disk.new) }
{
    match finish_tail_on(alloc, disk, path, held, owner) {
        Err(ScanError::NoMemory) => SyncError::NoMemory,
        Ok(()) | Err(_) => why,
    }
}

// The name of the lock of a mailbox.
fn lock_name(alloc: Global, path: &str) -> Result<String, NoMemory>
    ensures { IfOk result (λ name. string_bytes name ≡ lock_of path.now) }
{
    let mut name = String::from_str(alloc, path)?;
    name.push_str(".lock")?;
    Ok(name)
}

// Takes away the lock of a mailbox that is gone, behind a refusal.
fn drop_lock(
    alloc: Global,
    disk: &mut dyn Disk,
    path: &str,
    held: &mut bool,
    why: SyncError,
) -> SyncError
    ensures told { (result ≡ why) ⊎ (result ≡ SyncError.NoMemory) }
    ensures stays { (ours : List ℕ → Bool)
        → SafeLeads path.now ours (seen disk.old).told (seen disk.new).told
        (Locked path.now ours) (IsSafe path.now ours) }
    ensures goes { calls.GoesOn (seen disk.old) (seen disk.new) }
{
    let lock = match lock_name(alloc, path) {
        Ok(lock) => lock,
        Err(NoMemory) => return SyncError::NoMemory,
    };
    match disk.remove(alloc, lock.as_str()) {
        Ok(()) => {
            *held = false;
            why
        }
        Err(DiskError::NoMemory) => SyncError::NoMemory,
        Err(_) => why,
    }
}

/// Gives a lock back behind a refusal before anything was written, as far as the disk does it. The
/// refusal is answered, or want of memory for giving it back.
pub fn give_back_unwritten(
    alloc: Global,
    disk: &mut dyn Disk,
    path: &str,
    held: &mut bool,
    owner: &[u8],
    why: SyncError,
) -> SyncError
    ensures told { (result ≡ why) ⊎ (result ≡ SyncError.NoMemory) }
    ensures stays { (ours : List ℕ → Bool) → Passes owner.now ours
        → SafeLeads path.now ours (seen disk.old).told (seen disk.new).told
        (Locked path.now ours) (IsSafe path.now ours) }
    ensures goes { calls.GoesOn (seen disk.old) (seen disk.new) }
{
    match disk.stat(path) {
        Err(DiskError::Missing) => drop_lock(alloc, disk, path, held, why),
        _ => give_back(alloc, disk, path, held, owner, why),
    }
}

/// Writes a new end behind a front of the mailbox, under the lock, and gives that back.
pub fn write_end(
    alloc: Global,
    disk: &mut dyn Disk,
    path: &str,
    held: &mut bool,
    owner: &[u8],
    front: &[u8],
    tail: &[u8],
) -> Result<(), SyncError>
    requires { length front.now + length tail.now ≤ most_bytes }
    ensures puts { calls.Puts path.now owner.now front.now tail.now held.new result
        (seen disk.old).told (seen disk.new).told }
    ensures serves { Serves result (seen disk.old)
        (seen disk.new) }
{
    let at = front.len() as u64;
    match write_tail_on(alloc, disk, path, held, b"mbox ", at, tail) {
        Ok(()) => Ok(()),
        Err(why) => {
            let refusal = refused_tail(alloc, path, why);
            Err(give_back(alloc, disk, path, held, owner, refusal))
        }
    }
}
