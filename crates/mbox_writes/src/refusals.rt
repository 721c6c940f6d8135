//! How refusals of what happens under a lock are told.

ghost use Rattle.std.specs.Prelude.{◌≡◌};
ghost use Rattle.mbox_writes.specs.Refusals as spec;

use crate::front::FrontError;
use disk_model::DiskError;
use folder_changes::{Spot, SyncError, name_changed};
use folder_tails::TailError;
use std::alloc::Global;

/// How a refusal of the lock, or of the new end, is told.
pub fn refused_tail(alloc: Global, path: &str, why: TailError) -> SyncError
    ensures { spec.TellsTail path.now why result }
{
    match why {
        TailError::Locked => SyncError::Locked,
        TailError::Unfinished => SyncError::Unfinished,
        TailError::Gone => name_changed(alloc, path),
        TailError::Fault => SyncError::Fault,
        TailError::NoMemory => SyncError::NoMemory,
    }
}

/// How a refusal of the disk to read the mailbox is told.
pub fn refused_read(alloc: Global, path: &str, why: DiskError) -> SyncError
    ensures { spec.TellsRead path.now why result }
{
    match why {
        DiskError::Long(size) => SyncError::TooLarge(size),
        DiskError::Fault => SyncError::Fault,
        DiskError::NoMemory => SyncError::NoMemory,
        DiskError::Missing | DiskError::WrongNode | DiskError::Exists => name_changed(alloc, path),
    }
}

/// How a refusal of a file is told that is not the one that is known.
pub fn refused_front(why: FrontError) -> SyncError
    ensures { result ≡ spec.told_front why }
{
    match why {
        FrontError::Differs(place) => SyncError::Changed(Spot::At(place)),
        FrontError::TooMany(count) => SyncError::TooMany(count),
        FrontError::NoMemory => SyncError::NoMemory,
    }
}
