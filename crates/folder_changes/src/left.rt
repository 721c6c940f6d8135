//! The listing of a folder behind a sync.

ghost use Rattle.std.specs.Prelude.{◌≡◌, ◌++◌, IfOk, List, OnOk, option_map};
ghost use Rattle.index_items.specs.Changes.{AreBelow, Changed, Tells, plain_change, plain_changes};
ghost use Rattle.folder_changes.specs.Left as spec;

use folder_letters::{Change, Changed1, Listed, Listing};
use index_items::{ById, table_of};
use mail_base::{Kind, NoMemory};
use std::alloc::Global;

// Adds what a sync leaves of a listed message.
fn put_changed(
    kind: Kind,
    left: &mut Listing,
    listed: Listed,
    change: Option<Change>,
) -> Result<(), NoMemory>
    ensures { OnOk result (left.new.items
        ≡ left.old.items ++ spec.changed_listed kind listed (option_map plain_change change)) }
{
    match change {
        None => left.push(listed)?,
        Some(Change::Alter(delta)) => {
            left.push(Listed {
                flags: listed.flags.apply(delta).stored(kind),
                ..listed
            })?;
        }
        Some(Change::Discard) => {}
    }
    Ok(())
}

// Adds what a sync leaves of listed messages.
fn put_all_changed(
    kind: Kind,
    synced: &mut Listing,
    table: &ById<Change>,
    listing: &[Listed],
) -> Result<(), NoMemory>
    ensures { (changes : List Changed) → Tells table.now changes
        → OnOk result (synced.new.items
        ≡ synced.old.items ++ spec.listing_synced kind changes listing.now) }
{
    let mut left = listing;
    while let [first, rest @ ..] = left {
        put_changed(kind, synced, *first, table.get(first.id.0 as usize))?;
        left = rest;
    }
    Ok(())
}

/// What a sync with these changes leaves of a listing, whose ids are below a bound.
pub fn listing_synced(
    alloc: Global,
    kind: Kind,
    bound: usize,
    changes: &[Changed1],
    listing: &[Listed],
) -> Result<Listing, NoMemory>
    requires { AreBelow bound changes.now }
    ensures { IfOk result (λ synced. synced.items
        ≡ spec.listing_synced kind (plain_changes changes.now) listing.now) }
{
    let table = table_of(alloc, bound, changes)?;
    let mut synced = Listing::new(alloc);
    put_all_changed(kind, &mut synced, &table, listing)?;
    Ok(synced)
}
