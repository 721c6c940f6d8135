//! Refusals of calls that write, by what the disk refuses.

ghost use Rattle.std.specs.Prelude.{◌≡◌};
ghost use Rattle.folder_changes.specs.Refused.{IsOfTree, OnChanged};
ghost use Rattle.folder_changes.specs.Serving.{IsErrorAt};

use crate::{Spot, SyncError};
use disk_model::DiskError;
use mail_base::{Bytes, NoMemory};
use std::alloc::Global;

/// That something at this path is not as it is known.
pub fn name_changed(alloc: Global, path: &str) -> SyncError
    ensures at { IsErrorAt path.now result }
    ensures no_fault { ¬ (result ≡ SyncError.Fault) }
{
    match Bytes::copy_of(alloc, path.as_bytes()) {
        Ok(name) => SyncError::Changed(Spot::Name(name)),
        Err(NoMemory) => SyncError::NoMemory,
    }
}

/// Why a call that writes is refused where the disk refuses a call for this path.
pub fn error_at(alloc: Global, path: &str, why: DiskError) -> SyncError
    ensures at { IsErrorAt path.now result }
    ensures fault { result ≡ SyncError.Fault → why ≡ DiskError.Fault }
    ensures changed { OnChanged result (IsOfTree why) }
{
    match why {
        DiskError::Fault => SyncError::Fault,
        DiskError::NoMemory => SyncError::NoMemory,
        _ => name_changed(alloc, path),
    }
}
