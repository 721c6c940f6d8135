//! Calls of a disk on a mailbox and on the names beside it.

ghost use Rattle.std.specs.Prelude.{◌≡◌, length};
ghost use Rattle.disk_model.specs.Journal.{Create, Cut, Remove, Rename, Sync, SyncDir, WriteAt};
ghost use Rattle.disk_model.specs.Judge.{DoesStep};
ghost use Rattle.std.specs.String.{string_bytes};
ghost use Rattle.folder_tails.specs.Sides as spec;

use crate::sides::Sides;
use disk_model::{Disk, DiskError};
use std::alloc::Global;

/// Makes the file in which the tail file is written.
pub fn make_tmp(alloc: Global, disk: &mut dyn Disk, sides: &Sides) -> Result<(), DiskError>
    requires { spec.AreSides sides.now }
    ensures { DoesStep result (Create (spec.tmp_of (spec.home_of sides.now)))
        (seen disk.old) (seen disk.new) }
{
    disk.create(alloc, sides.tmp.as_str())
}

/// Writes it.
pub fn write_tmp(
    alloc: Global,
    disk: &mut dyn Disk,
    sides: &Sides,
    text: &[u8],
) -> Result<(), DiskError>
    requires { spec.AreSides sides.now }
    ensures { DoesStep result (WriteAt (spec.tmp_of (spec.home_of sides.now)) 0 text.now)
        (seen disk.old) (seen disk.new) }
{
    disk.write_at(alloc, sides.tmp.as_str(), 0, text)
}

/// Puts its bytes on the disk.
pub fn sync_tmp(alloc: Global, disk: &mut dyn Disk, sides: &Sides) -> Result<(), DiskError>
    requires { spec.AreSides sides.now }
    ensures { DoesStep result (Sync (spec.tmp_of (spec.home_of sides.now)))
        (seen disk.old) (seen disk.new) }
{
    disk.sync(alloc, sides.tmp.as_str())
}

/// Gives it the name of the tail file.
pub fn name_tail(alloc: Global, disk: &mut dyn Disk, sides: &Sides) -> Result<(), DiskError>
    requires { spec.AreSides sides.now }
    ensures { DoesStep result (Rename (spec.tmp_of (spec.home_of sides.now))
        (spec.tail_of (spec.home_of sides.now))) (seen disk.old) (seen disk.new) }
{
    disk.rename(alloc, sides.tmp.as_str(), sides.tail.as_str())
}

/// Puts the names of the folder on the disk.
pub fn sync_names(alloc: Global, disk: &mut dyn Disk, sides: &Sides) -> Result<(), DiskError>
    ensures { DoesStep result (SyncDir (string_bytes sides.now.dir))
        (seen disk.old) (seen disk.new) }
{
    disk.sync_dir(alloc, sides.dir.as_str())
}

/// Writes into the mailbox.
pub fn write_mail(
    alloc: Global,
    disk: &mut dyn Disk,
    sides: &Sides,
    at: u64,
    bytes: &[u8],
) -> Result<(), DiskError>
    ensures { DoesStep result (WriteAt (spec.home_of sides.now) at bytes.now)
        (seen disk.old) (seen disk.new) }
{
    disk.write_at(alloc, sides.path.as_str(), at, bytes)
}

/// Cuts the mailbox behind its last byte.
pub fn cut_mail(
    alloc: Global,
    disk: &mut dyn Disk,
    sides: &Sides,
    size: u64,
) -> Result<(), DiskError>
    ensures { DoesStep result (Cut (spec.home_of sides.now) size) (seen disk.old) (seen disk.new) }
{
    disk.cut(alloc, sides.path.as_str(), size)
}

/// Puts the bytes of the mailbox on the disk.
pub fn sync_mail(alloc: Global, disk: &mut dyn Disk, sides: &Sides) -> Result<(), DiskError>
    ensures { DoesStep result (Sync (spec.home_of sides.now)) (seen disk.old) (seen disk.new) }
{
    disk.sync(alloc, sides.path.as_str())
}

/// Takes the tail file away.
pub fn remove_tail(alloc: Global, disk: &mut dyn Disk, sides: &Sides) -> Result<(), DiskError>
    requires { spec.AreSides sides.now }
    ensures { DoesStep result (Remove (spec.tail_of (spec.home_of sides.now)))
        (seen disk.old) (seen disk.new) }
{
    disk.remove(alloc, sides.tail.as_str())
}

/// Makes the lock.
pub fn make_lock(alloc: Global, disk: &mut dyn Disk, sides: &Sides) -> Result<(), DiskError>
    requires { spec.AreSides sides.now }
    ensures { DoesStep result (Create (spec.lock_of (spec.home_of sides.now)))
        (seen disk.old) (seen disk.new) }
{
    disk.create(alloc, sides.lock.as_str())
}

/// Writes the lock.
pub fn write_lock(
    alloc: Global,
    disk: &mut dyn Disk,
    sides: &Sides,
    line: &[u8],
) -> Result<(), DiskError>
    requires { spec.AreSides sides.now }
    ensures { DoesStep result (WriteAt (spec.lock_of (spec.home_of sides.now)) 0 line.now)
        (seen disk.old) (seen disk.new) }
{
    disk.write_at(alloc, sides.lock.as_str(), 0, line)
}

/// Cuts the lock behind its line.
pub fn cut_lock(
    alloc: Global,
    disk: &mut dyn Disk,
    sides: &Sides,
    size: u64,
) -> Result<(), DiskError>
    requires { spec.AreSides sides.now }
    ensures { DoesStep result (Cut (spec.lock_of (spec.home_of sides.now)) size)
        (seen disk.old) (seen disk.new) }
{
    disk.cut(alloc, sides.lock.as_str(), size)
}

/// Puts the bytes of the lock on the disk.
pub fn sync_lock(alloc: Global, disk: &mut dyn Disk, sides: &Sides) -> Result<(), DiskError>
    requires { spec.AreSides sides.now }
    ensures { DoesStep result (Sync (spec.lock_of (spec.home_of sides.now)))
        (seen disk.old) (seen disk.new) }
{
    disk.sync(alloc, sides.lock.as_str())
}

/// Takes the lock away.
pub fn remove_lock(alloc: Global, disk: &mut dyn Disk, sides: &Sides) -> Result<(), DiskError>
    requires { spec.AreSides sides.now }
    ensures { DoesStep result (Remove (spec.lock_of (spec.home_of sides.now)))
        (seen disk.old) (seen disk.new) }
{
    disk.remove(alloc, sides.lock.as_str())
}

/// Takes away the file in which a tail file is written.
pub fn remove_tmp(alloc: Global, disk: &mut dyn Disk, sides: &Sides) -> Result<(), DiskError>
    requires { spec.AreSides sides.now }
    ensures { DoesStep result (Remove (spec.tmp_of (spec.home_of sides.now)))
        (seen disk.old) (seen disk.new) }
{
    disk.remove(alloc, sides.tmp.as_str())
}
