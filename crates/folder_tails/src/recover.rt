//! The recovery of a mailbox after a stop.

ghost use Rattle.std.specs.Prelude.{ℕ, ◌≡◌, Bool, false, List, OnOk};
ghost use Rattle.folder_tails.specs.Calls as calls;
ghost use Rattle.folder_tails.specs.Causes.{FinishesFor, LeavesForeign};
ghost use Rattle.folder_tails.specs.Serving.{scan_error as scan_error_lem};
ghost use Rattle.folder_tails.specs.Sides.{AreSides, home_of};
ghost use Rattle.folder_tails.specs.Tails.{line_of};

use crate::finish::{finish_own, has_tail};
use crate::reading::{has_lock, stat_mail};
use crate::sides::{Sides, sides_of};
use crate::text::owner_line;
use disk_model::{Device, Disk, DiskError};
use folder_core::ScanError;
use mail_base::NoMemory;
use std::alloc::Global;

// How a refusal of the disk is told.
fn scan_error(why: DiskError) -> ScanError
    ensures { result ≡ scan_error_lem why }
{
    match why {
        DiskError::Fault => ScanError::Fault,
        DiskError::NoMemory => ScanError::NoMemory,
        DiskError::Missing | DiskError::WrongNode | DiskError::Exists | DiskError::Long(_) => {
            ScanError::Missing
        }
    }
}

// With a lock that is not ours: there is nothing to finish, or it is not ours to finish.
fn leave_foreign(disk: &mut dyn Disk, sides: &Sides, held: bool) -> Result<(), ScanError>
    requires sides { AreSides sides.now }
    requires held { held ≡ false }
    ensures part { (owner : List ℕ) → calls.FinishesPart (home_of sides.now) owner held held result
        (seen disk.old) (seen disk.new) }
    ensures why { LeavesForeign (home_of sides.now) result (seen disk.old).told
        (seen disk.new).told }
{
    match has_tail(disk, sides) {
        Ok(true) => Err(ScanError::Unfinished),
        Ok(false) => Ok(()),
        Err(why) => Err(scan_error(why)),
    }
}

// With a lock that is ours.
fn finish_held(
    alloc: Global,
    disk: &mut dyn Disk,
    sides: &Sides,
    held: &mut bool,
) -> Result<(), ScanError>
    requires { AreSides sides.now }
    ensures { calls.FinishesOwn (home_of sides.now) held.new result (seen disk.old)
        (seen disk.new) }
{
    match finish_own(alloc, disk, sides, held) {
        Ok(()) => Ok(()),
        Err(why) => Err(scan_error(why)),
    }
}

// By what the lock holds.
fn finish_by_lock(
    alloc: Global,
    disk: &mut dyn Disk,
    sides: &Sides,
    held: &mut bool,
    owner: &[u8],
    line: &[u8],
) -> Result<(), ScanError>
    requires sides { AreSides sides.now }
    requires line { line.now ≡ line_of owner.now }
    ensures part { calls.FinishesPart (home_of sides.now) owner.now held.old held.new result
        (seen disk.old) (seen disk.new) }
    ensures why { FinishesFor (home_of sides.now) owner.now held.old result (seen disk.old).told
        (seen disk.new).told }
{
    match has_lock(alloc, disk, sides, held, owner, line) {
        Ok(true) => finish_held(alloc, disk, sides, held),
        Ok(false) => leave_foreign(disk, sides, *held),
        Err(why) => Err(scan_error(why)),
    }
}

// The same on a disk, behind a look at the mailbox.
fn finish_there(
    alloc: Global,
    disk: &mut dyn Disk,
    sides: &Sides,
    held: &mut bool,
    owner: &[u8],
    line: &[u8],
) -> Result<(), ScanError>
    requires sides { AreSides sides.now }
    requires line { line.now ≡ line_of owner.now }
    ensures { calls.Finishes (home_of sides.now) owner.now held.old held.new result
        (seen disk.old) (seen disk.new) }
{
    match stat_mail(disk, sides) {
        Ok(_) => finish_by_lock(alloc, disk, sides, held, owner, line),
        Err(why) => Err(scan_error(why)),
    }
}

/// As `finish_tail`, on a disk.
pub fn finish_tail_on(
    alloc: Global,
    disk: &mut dyn Disk,
    path: &str,
    held: &mut bool,
    owner: &[u8],
) -> Result<(), ScanError>
    ensures { calls.Finishes path.now owner.now held.old held.new result
        (seen disk.old) (seen disk.new) }
{
    let sides = match sides_of(alloc, path) {
        Ok(sides) => sides,
        Err(NoMemory) => return Err(ScanError::NoMemory),
    };
    let line = match owner_line(alloc, owner) {
        Ok(line) => line,
        Err(NoMemory) => return Err(ScanError::NoMemory),
    };
    finish_there(alloc, disk, &sides, held, owner, line.as_slice())
}

/// Finishes what a stop left of a write under a lock that is ours, or takes away what it left
/// before the tail file had its name. A lock is ours where it is held, or where the owner has a
/// name and the lock holds its line.
pub fn finish_tail(
    alloc: Global,
    dev: &mut Device,
    path: &str,
    held: &mut bool,
    owner: &[u8],
) -> Result<(), ScanError>
    ensures { calls.Finishes path.now owner.now held.old held.new result
        (seen (dev.old.disk.vtable, dev.old.disk.value))
        (seen (dev.new.disk.vtable, dev.new.disk.value)) }
{
    finish_tail_on(alloc, &mut *dev.disk, path, held, owner)
}
