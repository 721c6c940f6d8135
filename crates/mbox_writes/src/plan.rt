//! What is to be written of a mailbox, made before anything of it is.

ghost use Rattle.std.specs.Prelude.{◌≡◌, ◌≤◌, ◌+◌, IfErr, IfOk, length, take};
ghost use Rattle.mail_base.specs.declared.kind.Kind.TheVariants.{Mbox};
ghost use Rattle.folder_changes.specs.Left.{listing_synced as listing_left};
ghost use Rattle.index_items.specs.Changes.{AreBelow, plain_changes};
ghost use Rattle.folder_drivers.specs.MboxSync.{UnplannedFor};
ghost use Rattle.mbox_writes.specs.Plan as spec;

use crate::front::known_front;
use crate::refusals::refused_front;
use folder_changes::{SyncError, listing_synced};
use folder_core::{Known, MOST_BYTES};
use folder_letters::{Changed1, Listing};
use mail_base::{Bytes, Kind, NoMemory};
use mbox_text::{Rewritten, rewrite};
use std::alloc::Global;

/// What is to be written: the bytes of the file that stay in front, with room for those that come
/// behind them, and what is listed then.
#[derive(Drop)]
pub struct Plan {
    pub front: Bytes,
    pub tail: Bytes,
    pub listing: Listing,
}

// What the changes make of a file of these bytes, where it is the one that is known.
fn rewrite_known(
    alloc: Global,
    bytes: &[u8],
    known: &Known,
    bound: usize,
    changes: &[Changed1],
) -> Result<Rewritten, SyncError>
    requires { AreBelow bound changes.now }
    ensures ok { IfOk result (spec.Rewrites known.now (plain_changes changes.now) bytes.now) }
    ensures err { IfErr result (UnplannedFor known.now (plain_changes changes.now)
        bytes.now) }
{
    let regions = match known_front(alloc, bytes, known.bytes().as_slice()) {
        Ok(regions) => regions,
        Err(why) => return Err(refused_front(why)),
    };
    let listing = known.listing().as_slice();
    match rewrite(alloc, bytes, regions.as_slice(), bound, listing, changes) {
        Ok(rewritten) => Ok(rewritten),
        Err(NoMemory) => Err(SyncError::NoMemory),
    }
}

// The plan of a new end.
fn make_plan(
    alloc: Global,
    bytes: Bytes,
    rewritten: Rewritten,
    known: &Known,
    bound: usize,
    changes: &[Changed1],
) -> Result<Plan, NoMemory>
    requires below { AreBelow bound changes.now }
    requires within { rewritten.at ≤ length bytes.items }
    ensures front { IfOk result (λ plan. plan.front.items ≡ take rewritten.at bytes.items) }
    ensures tail { IfOk result (λ plan. plan.tail.items ≡ rewritten.tail.items) }
    ensures room { IfOk result (λ plan. length plan.tail.items ≤ plan.front.room) }
    ensures listing { IfOk result (λ plan. plan.listing.items
        ≡ listing_left Mbox (plain_changes changes.now) known.now.listing) }
{
    let listing = listing_synced(
        alloc,
        Kind::Mbox,
        bound,
        changes,
        known.listing().as_slice(),
    )?;
    let mut front = bytes;
    front.shorten(rewritten.at);
    front.reserve(rewritten.tail.len())?;
    Ok(Plan {
        front,
        tail: rewritten.tail,
        listing,
    })
}

/// What is to be written of a file of these bytes, where it is the one that is known.
pub fn plan_sync(
    alloc: Global,
    bytes: Bytes,
    known: &Known,
    bound: usize,
    changes: &[Changed1],
) -> Result<Plan, SyncError>
    requires { AreBelow bound changes.now }
    ensures ok { IfOk result (spec.IsPlan known.now (plain_changes changes.now) bytes.items) }
    ensures err { IfErr result (UnplannedFor known.now (plain_changes changes.now)
        bytes.items) }
{
    let rewritten = match rewrite_known(alloc, bytes.as_slice(), known, bound, changes) {
        Ok(rewritten) => rewritten,
        Err(why) => return Err(why),
    };
    let size = rewritten.at as u64 + rewritten.tail.len() as u64;
    if size > MOST_BYTES {
        return Err(SyncError::TooLarge(size));
    }
    match make_plan(alloc, bytes, rewritten, known, bound, changes) {
        Ok(plan) => Ok(plan),
        Err(NoMemory) => Err(SyncError::NoMemory),
    }
}
