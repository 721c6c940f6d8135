//! Looks at a mailbox and at the names beside it.

ghost use Rattle.std.specs.Prelude.{ℕ, ◌≡◌, Bool, true, List, IfOk};
ghost use Rattle.disk_model.specs.Answers.{IsWhole};
ghost use Rattle.disk_model.specs.Journal.{ReadAll, StatPath};
ghost use Rattle.disk_model.specs.Judge.{Counted, MakesStep, plain_read, read_length, read_of};
ghost use Rattle.disk_model.specs.Judge.{stat_of};
ghost use Rattle.disk_model.specs.Looking.{LooksOnly};
ghost use Rattle.folder_tails.specs.Causes as causes;
ghost use Rattle.folder_tails.specs.Recovery as spec;
ghost use Rattle.folder_tails.specs.Sides.{AreSides, home_of, lock_of, tail_of};
ghost use Rattle.folder_tails.specs.Taking as taking;
ghost use Rattle.folder_tails.specs.Tails.{line_of};

use crate::sides::Sides;
use disk_model::{Disk, DiskError, FileRead, Stat};
use std::alloc::Global;

/// What stands at the mailbox.
pub fn stat_mail(disk: &mut dyn Disk, sides: &Sides) -> Result<Stat, DiskError>
    ensures step { MakesStep result (StatPath (home_of sides.now))
        (λ tree. stat_of tree (home_of sides.now)) 0 (seen disk.old) (seen disk.new) }
    ensures looks { LooksOnly (seen disk.old).told (seen disk.new).told }
{
    disk.stat(sides.path.as_str())
}

/// What stands at its tail file.
pub fn stat_tail(disk: &mut dyn Disk, sides: &Sides) -> Result<Stat, DiskError>
    requires { AreSides sides.now }
    ensures step { MakesStep result (StatPath (tail_of (home_of sides.now)))
        (λ tree. stat_of tree (tail_of (home_of sides.now))) 0 (seen disk.old) (seen disk.new) }
    ensures looks { LooksOnly (seen disk.old).told (seen disk.new).told }
{
    disk.stat(sides.tail.as_str())
}

/// What its tail file holds.
pub fn read_tail_file(
    alloc: Global,
    disk: &mut dyn Disk,
    sides: &Sides,
) -> Result<FileRead, DiskError>
    requires { AreSides sides.now }
    ensures step { MakesStep (plain_read result) (ReadAll (tail_of (home_of sides.now))
        18446744073709551615)
        (λ tree. read_of tree (tail_of (home_of sides.now)) 18446744073709551615)
        (read_length result)
        (seen disk.old) (seen disk.new) }
    ensures looks { LooksOnly (seen disk.old).told (seen disk.new).told }
    ensures whole { IfOk result (IsWhole 18446744073709551615) }
{
    disk.read_all(alloc, sides.tail.as_str(), u64::MAX)
}

/// What its lock holds, where that is no longer than so many bytes.
pub fn read_lock(
    alloc: Global,
    disk: &mut dyn Disk,
    sides: &Sides,
    limit: u64,
) -> Result<FileRead, DiskError>
    requires { AreSides sides.now }
    ensures step { MakesStep (plain_read result) (ReadAll (lock_of (home_of sides.now)) limit)
        (λ tree. read_of tree (lock_of (home_of sides.now)) limit) (read_length result)
        (seen disk.old) (seen disk.new) }
    ensures looks { LooksOnly (seen disk.old).told (seen disk.new).told }
    ensures whole { IfOk result (IsWhole limit) }
{
    disk.read_all(alloc, sides.lock.as_str(), limit)
}

// Whether no file of so few bytes was there to be read.
fn is_absence(why: DiskError) -> bool
    ensures { result ≡ causes.is_absence why }
{
    match why {
        DiskError::Missing | DiskError::WrongNode | DiskError::Long(_) => true,
        DiskError::Exists | DiskError::Fault | DiskError::NoMemory => false,
    }
}

/// Whether the lock holds this line.
pub fn has_line(
    alloc: Global,
    disk: &mut dyn Disk,
    sides: &Sides,
    line: &[u8],
) -> Result<bool, DiskError>
    requires { AreSides sides.now }
    ensures stays { (ours : List ℕ → Bool) → (held : Bool)
        → spec.SafeLeads (home_of sides.now) ours (seen disk.old).told (seen disk.new).told
        (spec.Entered (home_of sides.now) ours held) (spec.Entered (home_of sides.now) ours held) }
    ensures own { IfOk result (λ found. found ≡ true → (ours : List ℕ → Bool) → (held : Bool)
        → ours line.now ≡ true
        → spec.SafeLeads (home_of sides.now) ours (seen disk.old).told (seen disk.new).told
        (spec.Entered (home_of sides.now) ours held) (spec.Right (home_of sides.now) ours)) }
    ensures looked { taking.ReadsLock (home_of sides.now) (seen disk.old).told
        (seen disk.new).told }
    ensures read { IfOk result (λ found. found ≡ true → taking.ReadsLine (home_of sides.now)
        line.now
        (seen disk.old).told (seen disk.new).told) }
    ensures tells { causes.TellsLine (home_of sides.now) line.now result (seen disk.old).told
        (seen disk.new).told }
    ensures looks { LooksOnly (seen disk.old).told (seen disk.new).told }
    ensures counts { Counted result (seen disk.old) (seen disk.new) }
{
    match read_lock(alloc, disk, sides, line.len() as u64) {
        Ok(read) => Ok(read.bytes.as_slice() == line),
        Err(why) if is_absence(why) => Ok(false),
        Err(why) => Err(why),
    }
}

/// Whether the lock is ours: it is held, or the owner has a name and the lock holds its line.
pub fn has_lock(
    alloc: Global,
    disk: &mut dyn Disk,
    sides: &Sides,
    held: &mut bool,
    owner: &[u8],
    line: &[u8],
) -> Result<bool, DiskError>
    requires sides { AreSides sides.now }
    requires line { line.now ≡ line_of owner.now }
    ensures stays { (ours : List ℕ → Bool)
        → spec.SafeLeads (home_of sides.now) ours (seen disk.old).told (seen disk.new).told
        (spec.Entered (home_of sides.now) ours held.old)
        (spec.Entered (home_of sides.now) ours held.old) }
    ensures own { IfOk result (λ found. found ≡ true → (ours : List ℕ → Bool)
        → spec.PassesOwn owner.now ours
        → spec.SafeLeads (home_of sides.now) ours (seen disk.old).told (seen disk.new).told
        (spec.Entered (home_of sides.now) ours held.old) (spec.Right (home_of sides.now) ours)) }
    ensures held { spec.TellsHeld result held.old held.new }
    ensures tells { causes.TellsLock (home_of sides.now) owner.now held.old result
        (seen disk.old).told (seen disk.new).told }
    ensures looks { LooksOnly (seen disk.old).told (seen disk.new).told }
    ensures counts { Counted result (seen disk.old) (seen disk.new) }
{
    if *held {
        return Ok(true);
    }
    if owner.is_empty() {
        return Ok(false);
    }
    let found = has_line(alloc, disk, sides, line)?;
    *held = found;
    Ok(found)
}
