//! What a stop left of a write, finished or taken away.

ghost use Rattle.std.specs.Prelude.{ℕ, ◌≡◌, Bool, false, true, List, IfOk, OnErr, OnOk};
ghost use Rattle.disk_model.specs.Judge.{Counted};
ghost use Rattle.disk_model.specs.Looking.{LooksOnly};
ghost use Rattle.folder_tails.specs.Causes as causes;
ghost use Rattle.folder_tails.specs.Recovery as spec;
ghost use Rattle.folder_tails.specs.Rows.{IsSafe};
ghost use Rattle.folder_tails.specs.Sides.{AreSides, home_of, lock_of};
ghost use Rattle.folder_tails.specs.Stages.{Clears};
ghost use Rattle.folder_tails.specs.Taking.{SeesTail};

use crate::acts::{remove_lock, sync_names};
use crate::putting::{give_back, put_tail};
use crate::reading::{read_tail_file, stat_tail};
use crate::sides::Sides;
use crate::staging::clear_tmp;
use crate::text::read_tail;
use disk_model::{Disk, DiskError};
use std::alloc::Global;

// Takes the lock away where it stands.
fn clear_lock(
    alloc: Global,
    disk: &mut dyn Disk,
    sides: &Sides,
    held: &mut bool,
) -> Result<(), DiskError>
    requires { AreSides sides.now }
    ensures clears { Clears result (lock_of (home_of sides.now)) (seen disk.old) (seen disk.new) }
    ensures counts { Counted result (seen disk.old) (seen disk.new) }
{
    match remove_lock(alloc, disk, sides) {
        Ok(()) => {
            *held = false;
            Ok(())
        }
        Err(DiskError::Missing) => Ok(()),
        Err(why) => Err(why),
    }
}

// Takes away what a write left that did not come to name its tail file.
fn clear_sides(
    alloc: Global,
    disk: &mut dyn Disk,
    sides: &Sides,
    held: &mut bool,
) -> Result<(), DiskError>
    requires { AreSides sides.now }
    ensures stays { (ours : List ℕ → Bool)
        → spec.SafeLeads (home_of sides.now) ours (seen disk.old).told (seen disk.new).told
        (spec.Idle (home_of sides.now) ours) (IsSafe (home_of sides.now) ours) }
    ensures ok { OnOk result ((ours : List ℕ → Bool)
        → spec.SafeLeads (home_of sides.now) ours (seen disk.old).told (seen disk.new).told
        (spec.Idle (home_of sides.now) ours) (spec.Idle (home_of sides.now) ours)) }
    ensures counts { Counted result (seen disk.old) (seen disk.new) }
    ensures given_back { OnOk result (held.new ≡ false) }
    ensures why { causes.TellsAround (home_of sides.now) result (seen disk.old).told
        (seen disk.new).told }
{
    clear_tmp(alloc, disk, sides)?;
    clear_lock(alloc, disk, sides, held)?;
    sync_names(alloc, disk, sides)?;
    *held = false;
    Ok(())
}

/// Puts the end in its place that a tail file holds, once a stop leaves its name, and takes the
/// tail file away.
pub fn put_found(
    alloc: Global,
    disk: &mut dyn Disk,
    sides: &Sides,
    text: &[u8],
) -> Result<(), DiskError>
    requires { AreSides sides.now }
    ensures stays { (ours : List ℕ → Bool)
        → spec.SafeLeads (home_of sides.now) ours (seen disk.old).told (seen disk.new).told
        (spec.Found (home_of sides.now) ours text.now) (IsSafe (home_of sides.now) ours) }
    ensures ok { OnOk result ((ours : List ℕ → Bool)
        → spec.SafeLeads (home_of sides.now) ours (seen disk.old).told (seen disk.new).told
        (spec.Found (home_of sides.now) ours text.now)
        (spec.IsPut (home_of sides.now) ours text.now)) }
    ensures counts { Counted result (seen disk.old) (seen disk.new) }
    ensures why { causes.TellsFit (home_of sides.now) text.now result (seen disk.old).told
        (seen disk.new).told }
{
    let Some((at, end)) = read_tail(text) else {
        return Err(DiskError::WrongNode);
    };
    if end.len() as u64 > u64::MAX - at {
        return Err(DiskError::WrongNode);
    }
    sync_names(alloc, disk, sides)?;
    put_tail(alloc, disk, sides, at, end)?;
    Ok(())
}

// Finishes a tail file of this text under a lock that is ours, and takes the lock away.
fn finish_found(
    alloc: Global,
    disk: &mut dyn Disk,
    sides: &Sides,
    held: &mut bool,
    text: &[u8],
) -> Result<(), DiskError>
    requires { AreSides sides.now }
    ensures stays { (ours : List ℕ → Bool)
        → spec.SafeLeads (home_of sides.now) ours (seen disk.old).told (seen disk.new).told
        (spec.Found (home_of sides.now) ours text.now) (IsSafe (home_of sides.now) ours) }
    ensures ok { OnOk result ((ours : List ℕ → Bool)
        → spec.SafeLeads (home_of sides.now) ours (seen disk.old).told (seen disk.new).told
        (spec.Found (home_of sides.now) ours text.now) (spec.Idle (home_of sides.now) ours)) }
    ensures counts { Counted result (seen disk.old) (seen disk.new) }
    ensures given_back { OnOk result (held.new ≡ false) }
    ensures why { causes.TellsFit (home_of sides.now) text.now result (seen disk.old).told
        (seen disk.new).told }
{
    put_found(alloc, disk, sides, text)?;
    give_back(alloc, disk, sides, held)?;
    Ok(())
}

/// Finishes what stands under a lock that is ours, or takes away what a write left that did not
/// come to name its tail file.
pub fn finish_own(
    alloc: Global,
    disk: &mut dyn Disk,
    sides: &Sides,
    held: &mut bool,
) -> Result<(), DiskError>
    requires { AreSides sides.now }
    ensures stays { (ours : List ℕ → Bool)
        → spec.SafeLeads (home_of sides.now) ours (seen disk.old).told (seen disk.new).told
        (spec.Right (home_of sides.now) ours) (IsSafe (home_of sides.now) ours) }
    ensures ok { OnOk result ((ours : List ℕ → Bool)
        → spec.SafeLeads (home_of sides.now) ours (seen disk.old).told (seen disk.new).told
        (spec.Right (home_of sides.now) ours) (spec.Idle (home_of sides.now) ours)) }
    ensures counts { Counted result (seen disk.old) (seen disk.new) }
    ensures given_back { OnOk result (held.new ≡ false) }
    ensures why { causes.TellsWhy result (causes.WasStopped (home_of sides.now)
        (seen disk.old).told (seen disk.new).told) }
{
    match read_tail_file(alloc, disk, sides) {
        Ok(read) => finish_found(alloc, disk, sides, held, read.bytes.as_slice()),
        Err(DiskError::Missing) => clear_sides(alloc, disk, sides, held),
        Err(why) => Err(why),
    }
}

/// Whether something stands where the tail file is.
pub fn has_tail(disk: &mut dyn Disk, sides: &Sides) -> Result<bool, DiskError>
    requires { AreSides sides.now }
    ensures stays { (ours : List ℕ → Bool) → (held : Bool)
        → spec.SafeLeads (home_of sides.now) ours (seen disk.old).told (seen disk.new).told
        (spec.Entered (home_of sides.now) ours held) (spec.Entered (home_of sides.now) ours held) }
    ensures none { IfOk result (λ found. found ≡ false → (ours : List ℕ → Bool) → (held : Bool)
        → spec.SafeLeads (home_of sides.now) ours (seen disk.old).told (seen disk.new).told
        (spec.Entered (home_of sides.now) ours held) (spec.Idle (home_of sides.now) ours)) }
    ensures looked { SeesTail (home_of sides.now) (seen disk.old).told (seen disk.new).told }
    ensures tells { causes.TellsTail (home_of sides.now) result (seen disk.old).told
        (seen disk.new).told }
    ensures looks { LooksOnly (seen disk.old).told (seen disk.new).told }
    ensures counts { Counted result (seen disk.old) (seen disk.new) }
{
    match stat_tail(disk, sides) {
        Ok(_) => Ok(true),
        Err(DiskError::Missing) => Ok(false),
        Err(why) => Err(why),
    }
}
