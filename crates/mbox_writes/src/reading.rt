//! The reading of a mailbox under its lock.

ghost use Rattle.std.specs.Prelude.{Bool, IfErr, IfOk, List, ℕ};
ghost use Rattle.folder_changes.specs.Serving.{Serves};
ghost use Rattle.folder_tails.specs.Recovery.{SafeLeads};
ghost use Rattle.mbox_writes.specs.Calls.{ReadFor};
ghost use Rattle.folder_drivers.specs.MboxLocked as spec;

use crate::refusals::refused_read;
use disk_model::Disk;
use folder_changes::SyncError;
use folder_core::MOST_BYTES;
use mail_base::Bytes;
use std::alloc::Global;

/// Reads the whole mailbox.
pub fn read_mailbox(alloc: Global, disk: &mut dyn Disk, path: &str) -> Result<Bytes, SyncError>
    ensures reads { IfOk result (λ bytes. spec.ReadsWhole path.now bytes.items
        (seen disk.old).told (seen disk.new).told) }
    ensures unread { IfErr result (λ why. ReadFor path.now why (seen disk.old).told
        (seen disk.new).told) }
    ensures stays { (ours : List ℕ → Bool)
        → SafeLeads path.now ours (seen disk.old).told (seen disk.new).told
        (spec.Locked path.now ours) (spec.Locked path.now ours) }
    ensures serves { Serves result (seen disk.old) (seen disk.new) }
{
    match disk.read_all(alloc, path, MOST_BYTES) {
        Ok(file) => Ok(file.bytes),
        Err(why) => Err(refused_read(alloc, path, why)),
    }
}
