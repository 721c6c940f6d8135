//! New sequences, which are written beside the old ones and put in their place.

ghost use Rattle.std.specs.Prelude.{ℕ, ◌≡◌, IfErr, List, Option};
ghost use Rattle.disk_model.specs.Journal.{Past};
ghost use Rattle.disk_model.specs.Judge.{Counted, GoesOn, Grows};
ghost use Rattle.folder_core.specs.Mh.{sequences_path};
ghost use Rattle.folder_changes.specs.Calls.{GoesBy};
ghost use Rattle.folder_changes.specs.Refused.{IsBetween, IsOfTree, StepRefused};
ghost use Rattle.folder_changes.specs.Serving.{IsErrorAt, Serves};
ghost use Rattle.folder_drivers.specs.MhLeft.{IsFolderCall};
ghost use Rattle.folder_drivers.specs.MhNames.{new_sequences_path};
ghost use Rattle.mh_syncs.specs.Causes.{CallCause, IsClearing, IsPutting};
ghost use Rattle.mh_syncs.specs.Parts as spec;

use disk_model::{Disk, DiskError};
use folder_changes::{SyncError, error_at};
use folder_core::path_in;
use mail_base::NoMemory;
use std::alloc::Global;

// Writes a file beside another, and puts it in its place once a stop leaves its bytes. Why it is
// refused is told from a mark on at which an earlier side file may still have stood, which our own
// calls have taken away since.
fn put_over(
    alloc: Global,
    disk: &mut dyn Disk,
    side: &str,
    to: &str,
    text: &[u8],
) -> Result<(), DiskError>
    ensures puts { (path : List ℕ) → side.now ≡ new_sequences_path path
        → to.now ≡ sequences_path path → spec.PutsOver path text.now result (seen disk.old).told
        (seen disk.new).told }
    ensures counts { Counted result (seen disk.old) (seen disk.new) }
    ensures grows { Grows (seen disk.old).told (seen disk.new).told }
    ensures calls { (path : List ℕ) → side.now ≡ new_sequences_path path
        → to.now ≡ sequences_path path → GoesOn (GoesBy (IsPutting path))
        (seen disk.old).told (seen disk.new).told }
    ensures cause { (path : List ℕ) → side.now ≡ new_sequences_path path
        → to.now ≡ sequences_path path → (before : Option Past)
        → GoesOn (GoesBy (IsClearing path)) before (seen disk.old).told
        → IfErr result (λ why. IsOfTree why → IsBetween (StepRefused (IsFolderCall path))
        before (seen disk.new).told) }
{
    match disk.create(alloc, side) {
        Ok(()) => {}
        Err(why) => return Err(why),
    }
    match disk.write_at(alloc, side, 0, text) {
        Ok(()) => {}
        Err(why) => return Err(why),
    }
    match disk.sync(alloc, side) {
        Ok(()) => {}
        Err(why) => return Err(why),
    }
    disk.rename(alloc, side, to)
}

/// Puts new sequences in place. Why they are refused is told from before side files were taken
/// away.
pub fn put_sequences(
    alloc: Global,
    disk: &mut dyn Disk,
    path: &str,
    text: &[u8],
) -> Result<(), SyncError>
    ensures serves { Serves result (seen disk.old) (seen disk.new) }
    ensures puts { spec.PutsNew path.now text.now result (seen disk.old).told
        (seen disk.new).told }
    ensures holds { (keys : List (List ℕ)) → spec.KeepsAllBut path.now keys
        (seen disk.old).told (seen disk.new).told }
    ensures at { IfErr result (IsErrorAt path.now) }
    ensures calls { GoesOn (GoesBy (IsPutting path.now)) (seen disk.old).told
        (seen disk.new).told }
    ensures cause { (before : Option Past)
        → GoesOn (GoesBy (IsClearing path.now)) before (seen disk.old).told
        → IfErr result (λ why. IsBetween (CallCause (IsFolderCall path.now) why)
        before (seen disk.new).told) }
{
    let side = match path_in(alloc, path, ".mh_sequences.new") {
        Ok(side) => side,
        Err(NoMemory) => return Err(SyncError::NoMemory),
    };
    let to = match path_in(alloc, path, ".mh_sequences") {
        Ok(to) => to,
        Err(NoMemory) => return Err(SyncError::NoMemory),
    };
    match put_over(alloc, disk, side.as_str(), to.as_str(), text) {
        Ok(()) => Ok(()),
        Err(why) => Err(error_at(alloc, path, why)),
    }
}
