//! The new end of a mailbox, put in its place.

ghost use Rattle.std.specs.Prelude.{◌≡◌, ◌+◌, ◌<◌, ◌^◌, false, OnOk, length};
ghost use Rattle.disk_model.specs.Judge.{Counted};
ghost use Rattle.folder_tails.specs.Causes.{TellsAround};
ghost use Rattle.folder_tails.specs.Sides.{AreSides, home_of};
ghost use Rattle.folder_tails.specs.Stages as spec;

use crate::acts::{cut_mail, remove_lock, remove_tail, sync_mail, sync_names, write_mail};
use crate::sides::Sides;
use disk_model::{Disk, DiskError};
use std::alloc::Global;

/// Puts the new end in its place, and takes the tail file away once a stop leaves the end.
pub fn put_tail(
    alloc: Global,
    disk: &mut dyn Disk,
    sides: &Sides,
    at: u64,
    end: &[u8],
) -> Result<(), DiskError>
    requires sides { AreSides sides.now }
    requires fits { at + length end.now < 2 ^ 64 }
    ensures stays { (job : spec.Job) → at ≡ length job.front → end.now ≡ job.end
        → spec.JobStays (home_of sides.now) job (seen disk.old).told (seen disk.new).told
        (spec.Writing (home_of sides.now) job spec.AnyFile) }
    ensures ok { OnOk result ((job : spec.Job) → at ≡ length job.front → end.now ≡ job.end
        → spec.JobLeads (home_of sides.now) job (seen disk.old).told (seen disk.new).told
        (spec.Writing (home_of sides.now) job spec.AnyFile)
        (spec.Finished (home_of sides.now) job (spec.HasLock (home_of sides.now) job))) }
    ensures counts { Counted result (seen disk.old) (seen disk.new) }
    ensures why { TellsAround (home_of sides.now) result (seen disk.old).told
        (seen disk.new).told }
{
    write_mail(alloc, disk, sides, at, end)?;
    cut_mail(alloc, disk, sides, at + end.len() as u64)?;
    sync_mail(alloc, disk, sides)?;
    remove_tail(alloc, disk, sides)?;
    sync_names(alloc, disk, sides)?;
    Ok(())
}

/// Takes the lock away, with the mailbox at its new end.
pub fn give_back(
    alloc: Global,
    disk: &mut dyn Disk,
    sides: &Sides,
    held: &mut bool,
) -> Result<(), DiskError>
    requires { AreSides sides.now }
    ensures stays { (job : spec.Job)
        → spec.JobStays (home_of sides.now) job (seen disk.old).told (seen disk.new).told
        (spec.Finished (home_of sides.now) job (spec.HasLock (home_of sides.now) job)) }
    ensures ok { OnOk result ((job : spec.Job)
        → spec.JobLeads (home_of sides.now) job (seen disk.old).told (seen disk.new).told
        (spec.Finished (home_of sides.now) job (spec.HasLock (home_of sides.now) job))
        (spec.Ended (home_of sides.now) job)) }
    ensures counts { Counted result (seen disk.old) (seen disk.new) }
    ensures given_back { OnOk result (held.new ≡ false) }
    ensures why { TellsAround (home_of sides.now) result (seen disk.old).told
        (seen disk.new).told }
{
    remove_lock(alloc, disk, sides)?;
    *held = false;
    sync_names(alloc, disk, sides)?;
    Ok(())
}
