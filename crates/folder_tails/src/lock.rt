//! The lock of a mailbox, made or taken over.

ghost use Rattle.std.specs.Prelude.{ℕ, ◌≡◌, Bool, [], false, true, List, OnOk};
ghost use Rattle.disk_model.specs.Judge.{Counted};
ghost use Rattle.folder_stops.specs.Rows.{IsDurable};
ghost use Rattle.folder_tails.specs.Calls as calls;
ghost use Rattle.folder_tails.specs.Causes.{MetTail};
ghost use Rattle.folder_tails.specs.Recovery as recovery;
ghost use Rattle.folder_tails.specs.Rows.{IsSafe};
ghost use Rattle.folder_tails.specs.Serving.{Serves};
ghost use Rattle.folder_tails.specs.Sides.{AreSides, home_of};
ghost use Rattle.folder_tails.specs.Stages.{AnyState};
ghost use Rattle.folder_tails.specs.Tails.{line_of};
ghost use Rattle.folder_tails.specs.Taking as spec;
ghost use Rattle.folder_tails.specs.Traces.{LockAlone};

use crate::TailError;
use crate::acts::{cut_lock, make_lock, remove_lock, sync_lock, sync_names, write_lock};
use crate::finish::{has_tail, put_found};
use crate::reading::{has_line, has_lock, read_tail_file};
use crate::sides::{Sides, sides_of};
use crate::text::owner_line;
use crate::write::tail_error;
use disk_model::{Device, Disk, DiskError};
use mail_base::NoMemory;
use std::alloc::Global;

// Writes the owner's line into an empty lock.
fn put_line(alloc: Global, disk: &mut dyn Disk, sides: &Sides, line: &[u8]) -> Result<(), DiskError>
    requires { AreSides sides.now }
    ensures stays { (ours : List ℕ → Bool)
        → recovery.SafeLeads (home_of sides.now) ours (seen disk.old).told (seen disk.new).told
        (spec.Locking (home_of sides.now) ours (λ file. file.bytes ≡ [])
        (spec.NoTail (home_of sides.now))) (spec.Unclaimed (home_of sides.now) ours) }
    ensures ok { OnOk result ((ours : List ℕ → Bool)
        → recovery.SafeLeads (home_of sides.now) ours (seen disk.old).told (seen disk.new).told
        (spec.Locking (home_of sides.now) ours (λ file. file.bytes ≡ [])
        (spec.NoTail (home_of sides.now))) (spec.Taken (home_of sides.now) ours line.now)) }
    ensures counts { Counted result (seen disk.old) (seen disk.new) }
{
    write_lock(alloc, disk, sides, line)?;
    sync_lock(alloc, disk, sides)?;
    Ok(())
}

// Writes the owner's line into a lock just made, where no tail file is there.
fn fill_lock(
    alloc: Global,
    disk: &mut dyn Disk,
    sides: &Sides,
    line: &[u8],
) -> Result<(), TailError>
    requires { AreSides sides.now }
    ensures stays { (ours : List ℕ → Bool) → ours [] ≡ false
        → recovery.SafeLeads (home_of sides.now) ours (seen disk.old).told (seen disk.new).told
        (spec.Locking (home_of sides.now) ours (IsDurable []) AnyState)
        (spec.Unclaimed (home_of sides.now) ours) }
    ensures ok { OnOk result ((ours : List ℕ → Bool) → ours [] ≡ false
        → recovery.SafeLeads (home_of sides.now) ours (seen disk.old).told (seen disk.new).told
        (spec.Locking (home_of sides.now) ours (IsDurable []) AnyState)
        (spec.Taken (home_of sides.now) ours line.now)) }
    ensures serves { Serves TailError.Fault result (seen disk.old) (seen disk.new) }
    ensures unfinished { spec.IfUnfinished result (MetTail (home_of sides.now)
        (seen disk.old).told (seen disk.new).told) (LockAlone (home_of sides.now)
        (seen disk.old).told (seen disk.new).told) }
    ensures not_locked { spec.NotLocked result }
{
    match has_tail(disk, sides) {
        Ok(true) => Err(TailError::Unfinished),
        Ok(false) => match put_line(alloc, disk, sides, line) {
            Ok(()) => Ok(()),
            Err(why) => Err(tail_error(why)),
        },
        Err(why) => Err(tail_error(why)),
    }
}

// Takes a lock away again, as far as the disk does it.
fn drop_lock(alloc: Global, disk: &mut dyn Disk, sides: &Sides, held: &mut bool)
    requires { AreSides sides.now }
    ensures stays { (ours : List ℕ → Bool)
        → recovery.SafeLeads (home_of sides.now) ours (seen disk.old).told (seen disk.new).told
        (spec.Unclaimed (home_of sides.now) ours) (IsSafe (home_of sides.now) ours) }
    ensures alone { LockAlone (home_of sides.now) (seen disk.old).told (seen disk.new).told }
    ensures counts { spec.CountsOn (seen disk.old) (seen disk.new) }
{
    match remove_lock(alloc, disk, sides) {
        Ok(()) => {
            *held = false;
            let _ = sync_names(alloc, disk, sides);
        }
        Err(_) => {}
    }
}

// Fills a lock just made, or takes it away again.
fn begin_lock(
    alloc: Global,
    disk: &mut dyn Disk,
    sides: &Sides,
    held: &mut bool,
    line: &[u8],
) -> Result<(), TailError>
    requires { AreSides sides.now }
    ensures stays { (ours : List ℕ → Bool) → ours [] ≡ false
        → recovery.SafeLeads (home_of sides.now) ours (seen disk.old).told (seen disk.new).told
        (spec.Locking (home_of sides.now) ours (IsDurable []) AnyState)
        (IsSafe (home_of sides.now) ours) }
    ensures ok { OnOk result ((ours : List ℕ → Bool) → ours [] ≡ false
        → recovery.SafeLeads (home_of sides.now) ours (seen disk.old).told (seen disk.new).told
        (spec.Locking (home_of sides.now) ours (IsDurable []) AnyState)
        (spec.Ready (home_of sides.now) ours line.now)) }
    ensures serves { Serves TailError.Fault result (seen disk.old) (seen disk.new) }
    ensures unfinished { spec.IfUnfinished result (MetTail (home_of sides.now)
        (seen disk.old).told (seen disk.new).told) (LockAlone (home_of sides.now)
        (seen disk.old).told (seen disk.new).told) }
    ensures not_locked { spec.NotLocked result }
    ensures is_held { OnOk result (held.new ≡ true) }
{
    *held = true;
    match fill_lock(alloc, disk, sides, line) {
        Ok(()) => Ok(()),
        Err(why) => {
            drop_lock(alloc, disk, sides, held);
            Err(why)
        }
    }
}

// Gives a lock that is ours the owner's line in place of what it holds.
fn rewrite_lock(
    alloc: Global,
    disk: &mut dyn Disk,
    sides: &Sides,
    line: &[u8],
) -> Result<(), DiskError>
    requires { AreSides sides.now }
    ensures stays { (ours : List ℕ → Bool)
        → recovery.SafeLeads (home_of sides.now) ours (seen disk.old).told (seen disk.new).told
        (spec.Quiet (home_of sides.now) ours) (IsSafe (home_of sides.now) ours) }
    ensures ok { OnOk result ((ours : List ℕ → Bool)
        → recovery.SafeLeads (home_of sides.now) ours (seen disk.old).told (seen disk.new).told
        (spec.Quiet (home_of sides.now) ours) (spec.Taken (home_of sides.now) ours line.now)) }
    ensures counts { Counted result (seen disk.old) (seen disk.new) }
{
    cut_lock(alloc, disk, sides, 0)?;
    put_line(alloc, disk, sides, line)?;
    Ok(())
}

// Takes over a lock that is ours, with no tail file there: a stop is to bring none back, and the
// lock is to hold the owner's line on the disk.
fn renew_lock(
    alloc: Global,
    disk: &mut dyn Disk,
    sides: &Sides,
    line: &[u8],
) -> Result<(), DiskError>
    requires { AreSides sides.now }
    ensures stays { (ours : List ℕ → Bool)
        → recovery.SafeLeads (home_of sides.now) ours (seen disk.old).told (seen disk.new).told
        (recovery.Idle (home_of sides.now) ours) (IsSafe (home_of sides.now) ours) }
    ensures ok { OnOk result ((ours : List ℕ → Bool)
        → recovery.SafeLeads (home_of sides.now) ours (seen disk.old).told (seen disk.new).told
        (recovery.Idle (home_of sides.now) ours) (spec.Taken (home_of sides.now) ours line.now)) }
    ensures counts { Counted result (seen disk.old) (seen disk.new) }
{
    sync_names(alloc, disk, sides)?;
    if has_line(alloc, disk, sides, line)? {
        sync_lock(alloc, disk, sides)?;
        Ok(())
    } else {
        rewrite_lock(alloc, disk, sides, line)?;
        Ok(())
    }
}

// Takes over a lock that is ours: a tail file that stands under it is finished.
fn take_own(alloc: Global, disk: &mut dyn Disk, sides: &Sides, line: &[u8]) -> Result<(), DiskError>
    requires { AreSides sides.now }
    ensures stays { (ours : List ℕ → Bool)
        → recovery.SafeLeads (home_of sides.now) ours (seen disk.old).told (seen disk.new).told
        (recovery.Right (home_of sides.now) ours) (IsSafe (home_of sides.now) ours) }
    ensures ok { OnOk result ((ours : List ℕ → Bool)
        → recovery.SafeLeads (home_of sides.now) ours (seen disk.old).told (seen disk.new).told
        (recovery.Right (home_of sides.now) ours)
        (spec.Ready (home_of sides.now) ours line.now)) }
    ensures counts { Counted result (seen disk.old) (seen disk.new) }
{
    match read_tail_file(alloc, disk, sides) {
        Ok(read) => put_found(alloc, disk, sides, read.bytes.as_slice()),
        Err(DiskError::Missing) => renew_lock(alloc, disk, sides, line),
        Err(why) => Err(why),
    }
}

// Takes over the lock that is there, where it is ours.
fn take_over(
    alloc: Global,
    disk: &mut dyn Disk,
    sides: &Sides,
    held: &mut bool,
    owner: &[u8],
    line: &[u8],
) -> Result<(), TailError>
    requires sides { AreSides sides.now }
    requires line { line.now ≡ line_of owner.now }
    ensures { calls.TakesLock (home_of sides.now) owner.now held.old held.new result
        (seen disk.old) (seen disk.new) }
{
    match has_lock(alloc, disk, sides, held, owner, line) {
        Ok(true) => match take_own(alloc, disk, sides, line) {
            Ok(()) => Ok(()),
            Err(why) => Err(tail_error(why)),
        },
        Ok(false) => Err(TailError::Locked),
        Err(why) => Err(tail_error(why)),
    }
}

// Makes the lock, or takes it over.
fn take_beside(
    alloc: Global,
    disk: &mut dyn Disk,
    sides: &Sides,
    held: &mut bool,
    owner: &[u8],
    line: &[u8],
) -> Result<(), TailError>
    requires sides { AreSides sides.now }
    requires line { line.now ≡ line_of owner.now }
    ensures { calls.TakesLock (home_of sides.now) owner.now held.old held.new result
        (seen disk.old) (seen disk.new) }
{
    match make_lock(alloc, disk, sides) {
        Ok(()) => begin_lock(alloc, disk, sides, held, line),
        Err(DiskError::Exists) => take_over(alloc, disk, sides, held, owner, line),
        Err(why) => Err(tail_error(why)),
    }
}

/// As `take_lock`, on a disk.
pub fn take_lock_on(
    alloc: Global,
    disk: &mut dyn Disk,
    path: &str,
    held: &mut bool,
    owner: &[u8],
) -> Result<(), TailError>
    ensures { calls.TakesLock path.now owner.now held.old held.new result
        (seen disk.old) (seen disk.new) }
{
    let sides = match sides_of(alloc, path) {
        Ok(sides) => sides,
        Err(NoMemory) => return Err(TailError::NoMemory),
    };
    let line = match owner_line(alloc, owner) {
        Ok(line) => line,
        Err(NoMemory) => return Err(TailError::NoMemory),
    };
    take_beside(alloc, disk, &sides, held, owner, line.as_slice())
}

/// Makes the lock of a mailbox, or takes over one that is ours: one that is held, or that holds the
/// line of an owner with a name. A tail file that stands under a lock taken over is finished first;
/// one under a lock just made is somebody else's, and the lock is given back.
pub fn take_lock(
    alloc: Global,
    dev: &mut Device,
    path: &str,
    held: &mut bool,
    owner: &[u8],
) -> Result<(), TailError>
    ensures { calls.TakesLock path.now owner.now held.old held.new result
        (seen (dev.old.disk.vtable, dev.old.disk.value))
        (seen (dev.new.disk.vtable, dev.new.disk.value)) }
{
    take_lock_on(alloc, &mut *dev.disk, path, held, owner)
}
