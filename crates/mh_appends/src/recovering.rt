//! Taking away what was left over.

ghost use Rattle.std.specs.Prelude.{◌≡◌};
ghost use Rattle.folder_drivers.specs.Recovered.{TakesLeft};
ghost use Rattle.mh_appends.specs.Leftovers.{left_error as left_error_lem};

use crate::leftovers::take_leftovers;
use disk_model::{Disk, DiskError};
use folder_core::ScanError;
use std::alloc::Global;

// What a refused call makes of a folder in which something may be left over.
fn left_error(why: DiskError) -> ScanError
    ensures { result ≡ left_error_lem why }
{
    match why {
        DiskError::Fault => ScanError::Fault,
        DiskError::NoMemory => ScanError::NoMemory,
        _ => ScanError::Missing,
    }
}

/// Takes away what a call that was stopped left over in the MH folder at a path.
pub fn recover(alloc: Global, disk: &mut dyn Disk, path: &str) -> Result<(), ScanError>
    ensures { TakesLeft path.now result (seen disk.old) (seen disk.new) }
{
    match disk.stat(path) {
        Ok(_) => {}
        Err(why) => return Err(left_error(why)),
    }
    match take_leftovers(alloc, disk, path) {
        Ok(()) => Ok(()),
        Err(why) => Err(left_error(why)),
    }
}
