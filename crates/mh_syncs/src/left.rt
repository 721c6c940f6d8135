//! What is known of the stamps behind a sync.

ghost use Rattle.std.specs.Prelude.{◌≡◌, ◌++◌, IfOk, List, OnOk, option_map};
ghost use Rattle.index_items.specs.Changes.{AreBelow, Changed, Tells, plain_change, plain_changes};
ghost use Rattle.folder_drivers.specs.MhLeft as spec;
ghost use Rattle.mh_syncs.specs.Left.{stamp_if, stays as stays_lem};

use folder_letters::{Change, Changed1, Listed};
use index_items::{ById, table_of};
use mail_base::{NoMemory, Stamps};
use std::alloc::Global;

// Whether a message stays of which this becomes.
fn stays(change: Option<Change>) -> bool
    ensures { result ≡ stays_lem (option_map plain_change change) }
{
    match change {
        Some(Change::Discard) => false,
        _ => true,
    }
}

// Adds the stamp of a listed message, where the message stays.
fn put_stamp(left: &mut Stamps, stamp: u128, is_left: bool) -> Result<(), NoMemory>
    ensures { OnOk result (left.new.items ≡ left.old.items ++ stamp_if is_left stamp) }
{
    if is_left {
        left.push(stamp)?;
    }
    Ok(())
}

// Adds the stamps of the listed messages that stay.
fn put_stamps(
    made: &mut Stamps,
    table: &ById<Change>,
    listing: &[Listed],
    stamps: &[u128],
) -> Result<(), NoMemory>
    ensures { (changes : List Changed) → Tells table.now changes → OnOk result (made.new.items
        ≡ made.old.items ++ spec.stamps_synced changes listing.now stamps.now) }
{
    let mut left = listing;
    let mut stamps_left = stamps;
    while let [listed, rest @ ..] = left {
        let [stamp, others @ ..] = stamps_left else {
            return Ok(());
        };
        put_stamp(made, *stamp, stays(table.get(listed.id.0 as usize)))?;
        left = rest;
        stamps_left = others;
    }
    Ok(())
}

/// The stamps of the listed messages that a sync with these changes leaves.
pub fn stamps_synced(
    alloc: Global,
    bound: usize,
    changes: &[Changed1],
    listing: &[Listed],
    stamps: &[u128],
) -> Result<Stamps, NoMemory>
    requires { AreBelow bound changes.now }
    ensures { IfOk result (λ synced. synced.items
        ≡ spec.stamps_synced (plain_changes changes.now) listing.now stamps.now) }
{
    let table = table_of(alloc, bound, changes)?;
    let mut synced = Stamps::new(alloc);
    put_stamps(&mut synced, &table, listing, stamps)?;
    Ok(synced)
}
