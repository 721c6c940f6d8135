//! A new end of a mailbox, by way of a tail file under the lock.

ghost use Rattle.std.specs.Prelude.{◌≡◌, ◌+◌, ◌<◌, ◌^◌, false, true, OnOk, Some, length};
ghost use Rattle.disk_model.specs.Judge.{Counted};
ghost use Rattle.folder_tails.specs.Calls as calls;
ghost use Rattle.folder_tails.specs.Serving.{tail_error as tail_error_lem};
ghost use Rattle.folder_tails.specs.Sides.{AreSides, home_of};
ghost use Rattle.folder_tails.specs.Stages as spec;
ghost use Rattle.folder_tails.specs.Tails.{is_head, read_tail};

use crate::TailError;
use crate::putting::{give_back, put_tail};
use crate::sides::{Sides, sides_of};
use crate::staging::stage_tail;
use crate::text::tail_text;
use disk_model::{Device, Disk, DiskError};
use mail_base::NoMemory;
use std::alloc::Global;

/// How a refusal of the disk is told.
pub fn tail_error(why: DiskError) -> TailError
    ensures { result ≡ tail_error_lem why }
{
    match why {
        DiskError::Fault => TailError::Fault,
        DiskError::NoMemory => TailError::NoMemory,
        DiskError::Missing | DiskError::WrongNode | DiskError::Exists | DiskError::Long(_) => {
            TailError::Gone
        }
    }
}

// Makes all steps, from the writing of the tail file to the taking away of the lock.
fn make_steps(
    alloc: Global,
    disk: &mut dyn Disk,
    sides: &Sides,
    held: &mut bool,
    text: &[u8],
    at: u64,
    tail: &[u8],
) -> Result<(), DiskError>
    requires sides { AreSides sides.now }
    requires text { read_tail text.now ≡ Some (at, tail.now) }
    requires fits { at + length tail.now < 2 ^ 64 }
    ensures stays { (job : spec.Job) → calls.IsEnd at tail.now job
        → spec.JobStays (home_of sides.now) job (seen disk.old).told (seen disk.new).told
        (spec.Staging (home_of sides.now) job spec.AnyState) }
    ensures ok { OnOk result ((job : spec.Job) → calls.IsEnd at tail.now job
        → spec.JobLeads (home_of sides.now) job (seen disk.old).told (seen disk.new).told
        (spec.Staging (home_of sides.now) job spec.AnyState)
        (spec.Ended (home_of sides.now) job)) }
    ensures counts { Counted result (seen disk.old) (seen disk.new) }
    ensures given_back { OnOk result (held.new ≡ false) }
{
    stage_tail(alloc, disk, sides, text)?;
    put_tail(alloc, disk, sides, at, tail)?;
    give_back(alloc, disk, sides, held)?;
    Ok(())
}

/// As `write_tail`, on a disk.
pub fn write_tail_on(
    alloc: Global,
    disk: &mut dyn Disk,
    path: &str,
    held: &mut bool,
    head: &[u8],
    at: u64,
    tail: &[u8],
) -> Result<(), TailError>
    requires head { is_head head.now ≡ true }
    requires fits { at + length tail.now < 2 ^ 64 }
    ensures { calls.WritesEnd path.now at tail.now held.new result (seen disk.old)
        (seen disk.new) }
{
    let sides = match sides_of(alloc, path) {
        Ok(sides) => sides,
        Err(NoMemory) => return Err(TailError::NoMemory),
    };
    let text = match tail_text(alloc, head, at, tail) {
        Ok(text) => text,
        Err(NoMemory) => return Err(TailError::NoMemory),
    };
    match make_steps(alloc, disk, &sides, held, text.as_slice(), at, tail) {
        Ok(()) => Ok(()),
        Err(why) => Err(tail_error(why)),
    }
}

/// Gives a mailbox a new end behind its first `at` bytes, under a lock that `take_lock` made or
/// took over, and then takes the lock away. A stop at any moment leaves what was there before, or
/// the new end whole.
pub fn write_tail(
    alloc: Global,
    dev: &mut Device,
    path: &str,
    held: &mut bool,
    head: &[u8],
    at: u64,
    tail: &[u8],
) -> Result<(), TailError>
    requires head { is_head head.now ≡ true }
    requires fits { at + length tail.now < 2 ^ 64 }
    ensures { calls.WritesEnd path.now at tail.now held.new result
        (seen (dev.old.disk.vtable, dev.old.disk.value))
        (seen (dev.new.disk.vtable, dev.new.disk.value)) }
{
    write_tail_on(alloc, &mut *dev.disk, path, held, head, at, tail)
}
