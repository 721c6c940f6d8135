//! The sync of a mailbox: its lock, the reading under it, and the writing.

ghost use Rattle.std.specs.Prelude.{◌≡◌, ◌≤◌, ◌⊎◌, ◌+◌, ◌++◌, [], Bool, false, List, ℕ, length};
ghost use Rattle.std.specs.Prelude.{map};
ghost use Rattle.mail_base.specs.declared.kind.Kind.TheVariants.{Mbox};
ghost use Rattle.folder_letters.specs.Letters.{plain_letter};
ghost use Rattle.folder_changes.specs.Asked.{AreListed};
ghost use Rattle.folder_changes.specs.Serving.{Serves};
ghost use Rattle.folder_core.specs.Limits.{most_bytes};
ghost use Rattle.folder_core.specs.Right.{Right as IsRightKnown};
ghost use Rattle.folder_tails.specs.Recovery.{Entered, PassesOwn, SafeLeads};
ghost use Rattle.folder_tails.specs.Rows.{IsSafe};
ghost use Rattle.index_items.specs.Changes.{AreBelow, plain_changes};
ghost use Rattle.mbox_writes.specs.Calls as calls;
ghost use Rattle.folder_drivers.specs.Synced.{Syncs};

use crate::plan::{Plan, plan_sync};
use crate::reading::read_mailbox;
use crate::refusals::refused_tail;
use crate::writing::{give_back_unwritten, write_end};
use disk_model::Disk;
use folder_changes::SyncError;
use folder_core::{Archive, Known};
use folder_letters::Changed1;
use folder_tails::take_lock_on;
use mail_base::{Bytes, Stamps};
use std::alloc::Global;

// Changes a file of these bytes under the lock.
fn change_read(
    alloc: Global,
    disk: &mut dyn Disk,
    known: &Known,
    held: &mut bool,
    owner: &[u8],
    bytes: Bytes,
    bound: usize,
    changes: &[Changed1],
) -> Result<Plan, SyncError>
    requires { AreBelow bound changes.now }
    ensures rewrote { calls.Rewrote known.now owner.now (plain_changes changes.now) bytes.items
        held.new result (seen disk.old).told
        (seen disk.new).told }
    ensures serves { Serves result (seen disk.old)
        (seen disk.new) }
{
    let plan = match plan_sync(alloc, bytes, known, bound, changes) {
        Ok(plan) => plan,
        Err(why) => return Err(give_back_unwritten(alloc, disk, known.path(), held, owner, why)),
    };
    let (front, tail) = (plan.front.as_slice(), plan.tail.as_slice());
    match write_end(alloc, disk, known.path(), held, owner, front, tail) {
        Ok(()) => Ok(plan),
        Err(why) => Err(why),
    }
}

// Reads the file under the lock, and changes it.
fn change_locked(
    alloc: Global,
    disk: &mut dyn Disk,
    known: &Known,
    held: &mut bool,
    owner: &[u8],
    bound: usize,
    changes: &[Changed1],
) -> Result<Plan, SyncError>
    requires { AreBelow bound changes.now }
    ensures changes { calls.LockedChanges owner.now known.now (plain_changes changes.now) held.new
        result
        (seen disk.old).told
        (seen disk.new).told }
    ensures serves { Serves result (seen disk.old)
        (seen disk.new) }
{
    match read_mailbox(alloc, disk, known.path()) {
        Ok(bytes) => change_read(alloc, disk, known, held, owner, bytes, bound, changes),
        Err(why) => Err(give_back_unwritten(alloc, disk, known.path(), held, owner, why)),
    }
}

// Takes the lock, and changes the file under it.
fn change_file(
    alloc: Global,
    disk: &mut dyn Disk,
    known: &Known,
    held: &mut bool,
    owner: &[u8],
    bound: usize,
    changes: &[Changed1],
) -> Result<Plan, SyncError>
    requires { AreBelow bound changes.now }
    ensures changes { calls.Changes owner.now known.now (plain_changes changes.now) held.old
        held.new result
        (seen disk.old).told
        (seen disk.new).told }
    ensures serves { Serves result (seen disk.old)
        (seen disk.new) }
{
    match take_lock_on(alloc, disk, known.path(), held, owner) {
        Ok(()) => change_locked(alloc, disk, known, held, owner, bound, changes),
        Err(why) => Err(refused_tail(alloc, known.path(), why)),
    }
}

// Knows what was written.
fn put_plan(alloc: Global, known: &mut Known, plan: Plan)
    requires { length plan.tail.items ≤ plan.front.room }
    ensures { known.new ≡ record known.old {
      listing = plan.listing.items;
      bytes = plan.front.items ++ plan.tail.items;
      stamps = [];
      held = false;
    } }
{
    let Plan {
        front,
        tail,
        listing,
    } = plan;
    let mut bytes = front;
    bytes.append_reserved(tail.as_slice());
    known.put(listing, bytes, Stamps::new(alloc));
    known.set_held(false);
}

/// Does these changes to the messages of a mailbox, under its lock: one that is held, or that the
/// owner has if he has a name, is taken over. After Ok the known listing is the old one without the
/// discarded messages and with the changes, and the known bytes are the file as written, whose
/// stamp is not known. A lock that a refused call could not give back is held.
pub fn sync_mailbox(
    alloc: Global,
    disk: &mut dyn Disk,
    known: &mut Known,
    owner: &[u8],
    archive: &Archive,
    changes: &[Changed1],
) -> Result<(), SyncError>
    requires right { IsRightKnown Mbox (map plain_letter archive.now.items) known.old
        (seen disk.old).told }
    requires listed { AreListed known.old.listing (plain_changes changes.now) }
    ensures { (purge : Bool) → Syncs Mbox owner.now purge (map plain_letter archive.now.items)
        (plain_changes changes.now) known.old known.new result (seen disk.old)
        (seen disk.new) }
{
    let mut held = known.held();
    match change_file(alloc, disk, known, &mut held, owner, archive.len(), changes) {
        Ok(plan) => {
            put_plan(alloc, known, plan);
            Ok(())
        }
        Err(why) => {
            known.set_held(held);
            Err(why)
        }
    }
}
