//! What a call that was stopped left over in an MH folder.

ghost use Rattle.std.specs.Prelude.{◌≡◌, IfErr, OnOk};
ghost use Rattle.disk_model.specs.Judge.{Counted};
ghost use Rattle.folder_drivers.specs.MhNames as spec;
ghost use Rattle.mh_appends.specs.Leftovers.{FailsTaking, IsLeftName, NotTaken};
ghost use Rattle.mh_appends.specs.Leftovers.{TakesBoth, TakesOne, TakesOver};
ghost use Rattle.mh_appends.specs.Leftovers.{unless_missing as unless_missing_lem};

use disk_model::{Disk, DiskError};
use folder_core::path_in;
use std::alloc::Global;

// A file that is missing needs not be taken away.
fn unless_missing(why: DiskError) -> Result<(), DiskError>
    ensures { result ≡ unless_missing_lem why }
{
    match why {
        DiskError::Missing => Ok(()),
        _ => Err(why),
    }
}

// Takes a file away, where it stands.
fn take_away(alloc: Global, disk: &mut dyn Disk, path: &str, word: &str) -> Result<(), DiskError>
    requires { IsLeftName word.now }
    ensures takes { TakesOver path.now (seen disk.old).told (seen disk.new).told }
    ensures taken { OnOk result (TakesOne path.now word.now
        (seen disk.old).told (seen disk.new).told) }
    ensures fails { IfErr result (λ why. NotTaken path.now word.now why
        (seen disk.old).told (seen disk.new).told) }
    ensures counts { Counted result (seen disk.old) (seen disk.new) }
{
    let at = path_in(alloc, path, word)?;
    match disk.remove(alloc, at.as_str()) {
        Ok(()) => Ok(()),
        Err(why) => unless_missing(why),
    }
}

/// Takes away the new sequences and the message that were not put in place.
pub fn take_leftovers(alloc: Global, disk: &mut dyn Disk, path: &str) -> Result<(), DiskError>
    ensures takes { TakesOver path.now (seen disk.old).told (seen disk.new).told }
    ensures taken { OnOk result (TakesBoth path.now (seen disk.old).told (seen disk.new).told) }
    ensures fails { IfErr result (λ why. FailsTaking path.now why
        (seen disk.old).told (seen disk.new).told) }
    ensures counts { Counted result (seen disk.old) (seen disk.new) }
{
    match take_away(alloc, disk, path, ".mh_sequences.new") {
        Ok(()) => {}
        Err(why) => return Err(why),
    }
    take_away(alloc, disk, path, ".mutt_append")
}
