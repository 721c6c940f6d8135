//! A tail file, written beside a mailbox and put in place.

ghost use Rattle.std.specs.Prelude.{◌≡◌, Some, OnOk, length};
ghost use Rattle.disk_model.specs.Judge.{Counted};
ghost use Rattle.folder_tails.specs.Sides.{AreSides, home_of, tmp_of};
ghost use Rattle.folder_tails.specs.Stages as spec;
ghost use Rattle.folder_tails.specs.Tails.{read_tail};

use crate::acts::{make_tmp, name_tail, remove_tmp, sync_names, sync_tmp, write_tmp};
use crate::sides::Sides;
use disk_model::{Disk, DiskError};
use std::alloc::Global;

/// Takes away what stands where a tail file is written.
pub fn clear_tmp(alloc: Global, disk: &mut dyn Disk, sides: &Sides) -> Result<(), DiskError>
    requires { AreSides sides.now }
    ensures clears { spec.Clears result (tmp_of (home_of sides.now)) (seen disk.old)
        (seen disk.new) }
    ensures counts { Counted result (seen disk.old) (seen disk.new) }
{
    match remove_tmp(alloc, disk, sides) {
        Ok(()) => Ok(()),
        Err(DiskError::Missing) => Ok(()),
        Err(why) => Err(why),
    }
}

/// Writes a tail file beside the mailbox, and puts it in place once a stop leaves its bytes.
pub fn stage_tail(
    alloc: Global,
    disk: &mut dyn Disk,
    sides: &Sides,
    text: &[u8],
) -> Result<(), DiskError>
    requires { AreSides sides.now }
    ensures stays { (job : spec.Job) → read_tail text.now ≡ Some (length job.front, job.end)
        → spec.JobStays (home_of sides.now) job (seen disk.old).told (seen disk.new).told
        (spec.Staging (home_of sides.now) job spec.AnyState) }
    ensures ok { OnOk result ((job : spec.Job)
        → read_tail text.now ≡ Some (length job.front, job.end)
        → spec.JobLeads (home_of sides.now) job (seen disk.old).told (seen disk.new).told
        (spec.Staging (home_of sides.now) job spec.AnyState)
        (spec.Writing (home_of sides.now) job spec.AnyFile)) }
    ensures counts { Counted result (seen disk.old) (seen disk.new) }
{
    clear_tmp(alloc, disk, sides)?;
    make_tmp(alloc, disk, sides)?;
    write_tmp(alloc, disk, sides, text)?;
    sync_tmp(alloc, disk, sides)?;
    name_tail(alloc, disk, sides)?;
    sync_names(alloc, disk, sides)?;
    Ok(())
}
