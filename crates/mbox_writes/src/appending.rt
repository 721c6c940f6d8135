//! A message that is added to a mailbox: its lock, the reading under it, and the writing.

ghost use Rattle.std.specs.Prelude.{◌≡◌, ◌++◌, IfErr, IfOk, false, length, true};
ghost use Rattle.folder_changes.specs.Serving.{Serves};
ghost use Rattle.folder_core.specs.Mbox.{begins_mailbox, raw_messages};
ghost use Rattle.folder_drivers.specs.MboxAppend.{AddsToMailbox};
ghost use Rattle.folder_drivers.specs.MboxFeeds.{feeds_before as feeds_lem};
ghost use Rattle.folder_drivers.specs.MboxRegion.{item_region};
ghost use Rattle.mbox_writes.specs.Calls as calls;

use crate::reading::read_mailbox;
use crate::refusals::refused_tail;
use crate::writing::{give_back_unwritten, write_end};
use disk_model::Disk;
use folder_changes::{Item, SyncError};
use folder_core::{MOST_BYTES, MOST_MESSAGES};
use folder_tails::take_lock_on;
use mail_base::{Bytes, NoMemory};
use mbox_items::{feeds_before, item_text};
use mbox_text::{CutError, cut_regions};
use std::alloc::Global;

// How many messages a mailbox of these bytes has.
fn count_messages(alloc: Global, bytes: &[u8]) -> Result<usize, SyncError>
    ensures count { IfOk result (λ count. count ≡ length (raw_messages bytes.now)) }
    ensures mailbox { IfOk result (λ count. begins_mailbox bytes.now ≡ true) }
    ensures refused { IfErr result (λ why. (item : _) → calls.NoAdditionFor item bytes.now why) }
{
    match cut_regions(alloc, bytes) {
        Ok(regions) => Ok(regions.len()),
        Err(CutError::NotMailbox) => Err(SyncError::NotFolder),
        Err(CutError::NoMemory) => Err(SyncError::NoMemory),
    }
}

// What comes behind the bytes of a mailbox to which a message is added.
fn end_with(alloc: Global, bytes: &[u8], item: &Item) -> Result<Bytes, NoMemory>
    ensures { IfOk result (λ end. end.items ≡ feeds_lem bytes.now ++ item_region item.now) }
{
    let text = item_text(alloc, item)?;
    let mut end = Bytes::copy_of(alloc, feeds_before(bytes))?;
    end.append(text.as_slice())?;
    Ok(end)
}

// The same, where the mailbox has room for the message.
fn addition_to(alloc: Global, bytes: &[u8], item: &Item) -> Result<Bytes, SyncError>
    ensures ok { IfOk result (λ end. calls.IsAddition item.now bytes.now end.items) }
    ensures err { IfErr result (calls.NoAdditionFor item.now bytes.now) }
{
    let count = match count_messages(alloc, bytes) {
        Ok(count) => count,
        Err(why) => return Err(why),
    };
    if count >= MOST_MESSAGES {
        return Err(SyncError::TooMany(count.max(MOST_MESSAGES + 1) as u64));
    }
    let end = match end_with(alloc, bytes, item) {
        Ok(end) => end,
        Err(NoMemory) => return Err(SyncError::NoMemory),
    };
    let size = bytes.len() as u64 + end.len() as u64;
    if size > MOST_BYTES {
        return Err(SyncError::TooLarge(size));
    }
    Ok(end)
}

// Adds a message to a file of these bytes under the lock.
fn append_read(
    alloc: Global,
    disk: &mut dyn Disk,
    path: &str,
    held: &mut bool,
    owner: &[u8],
    bytes: &[u8],
    item: &Item,
) -> Result<(), SyncError>
    ensures added { calls.Added path.now owner.now item.now bytes.now result (seen disk.old).told
        (seen disk.new).told }
    ensures serves { Serves result (seen disk.old) (seen disk.new) }
{
    match addition_to(alloc, bytes, item) {
        Ok(end) => write_end(alloc, disk, path, held, owner, bytes, end.as_slice()),
        Err(why) => Err(give_back_unwritten(alloc, disk, path, held, owner, why)),
    }
}

// Reads the file under the lock, and adds a message to it.
fn append_locked(
    alloc: Global,
    disk: &mut dyn Disk,
    path: &str,
    held: &mut bool,
    owner: &[u8],
    item: &Item,
) -> Result<(), SyncError>
    ensures adds { calls.LockedAdds path.now owner.now item.now result (seen disk.old).told
        (seen disk.new).told }
    ensures serves { Serves result (seen disk.old) (seen disk.new) }
{
    match read_mailbox(alloc, disk, path) {
        Ok(bytes) => append_read(alloc, disk, path, held, owner, bytes.as_slice(), item),
        Err(why) => Err(give_back_unwritten(alloc, disk, path, held, owner, why)),
    }
}

// Takes the lock, and adds a message under it.
fn append_file(
    alloc: Global,
    disk: &mut dyn Disk,
    path: &str,
    owner: &[u8],
    item: &Item,
) -> Result<(), SyncError>
    ensures adds { calls.Adds path.now owner.now item.now result (seen disk.old).told
        (seen disk.new).told }
    ensures serves { Serves result (seen disk.old) (seen disk.new) }
{
    let mut held = false;
    match take_lock_on(alloc, disk, path, &mut held, owner) {
        Ok(()) => append_locked(alloc, disk, path, &mut held, owner, item),
        Err(why) => Err(refused_tail(alloc, path, why)),
    }
}

// A refusal, where what is not as it should be is no folder.
fn as_folder(why: SyncError) -> SyncError
    ensures { result ≡ calls.as_folder why }
{
    match why {
        SyncError::Changed(_) => SyncError::NotFolder,
        why => why,
    }
}

/// Adds one message to a mailbox, behind all that it holds, under its lock: one that the owner has,
/// if he has a name, is taken over. After a refusal the mailbox is as before.
pub fn append_mailbox(
    alloc: Global,
    disk: &mut dyn Disk,
    path: &str,
    owner: &[u8],
    item: &Item,
) -> Result<(), SyncError>
    ensures { AddsToMailbox path.now owner.now item.now result (seen disk.old) (seen disk.new) }
{
    match append_file(alloc, disk, path, owner, item) {
        Ok(()) => Ok(()),
        Err(why) => Err(as_folder(why)),
    }
}
