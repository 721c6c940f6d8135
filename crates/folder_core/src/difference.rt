//! How the listing of a folder changes.

ghost use Rattle.std.specs.Prelude.{◌≡◌, ◌<◌, true, None, IfOk, OnErr, is_none, map, replicate};
ghost use Rattle.std.specs.List.{All, filter};
ghost use Rattle.folder_core.specs.Keeping.{IsDifference, ids_differ};
ghost use Rattle.folder_core.specs.Keeping.{same_flags as spec_same_flags};
ghost use Rattle.folder_core.specs.Difference as spec;

use crate::Known;
use folder_letters::{Found, Listed, Listing};
use mail_base::{Bytes, Flags, Id, Ids, NoMemory, Stamps};
use std::alloc::Global;

/// The flags of listed messages by their ids, each id a place.
type FlagTable = Vec<Option<Flags>>;

/// Replaces what is known of a folder, and answers how its listing changed. The known messages are
/// among so many letters, each once.
pub fn put_listing(
    alloc: Global,
    known: &mut Known,
    letters: usize,
    listing: Listing,
    bytes: Bytes,
    stamps: Stamps,
) -> Result<Found, NoMemory>
    requires within { All (λ listed. listed.id.0 < letters) known.old.listing }
    requires once { ids_differ known.old.listing ≡ true }
    ensures found { IfOk result (IsDifference known.old.listing listing.items) }
    ensures known { IfOk result (λ found. known.new ≡ record known.old {
      listing = listing.items;
      bytes = bytes.items;
      stamps = stamps.items;
    }) }
    ensures err { OnErr result (known.new ≡ known.old) }
{
    let found = match difference_of(
        alloc,
        letters,
        known.listing().as_slice(),
        listing.as_slice(),
    ) {
        Ok(found) => found,
        Err(why) => return Err(why),
    };
    known.put(listing, bytes, stamps);
    Ok(found)
}

/// What went, what came, and which flags changed from one listing to another. The old messages are
/// among so many letters, each once.
pub fn difference_of(
    alloc: Global,
    letters: usize,
    old: &[Listed],
    new: &[Listed],
) -> Result<Found, NoMemory>
    requires within { All (λ listed. listed.id.0 < letters) old.now }
    requires once { ids_differ old.now ≡ true }
    ensures { IfOk result (IsDifference old.now new.now) }
{
    let gone = gone_ids(alloc, letters, old, new)?;
    let before = flag_table(alloc, letters, old)?;
    let came = new_listed(alloc, new, before.as_slice())?;
    let reflagged = reflagged(alloc, new, before.as_slice())?;
    Ok(Found {
        gone,
        came,
        reflagged,
    })
}

// The flags of these listed messages, by their ids below a number.
fn flag_table(alloc: Global, letters: usize, listing: &[Listed]) -> Result<FlagTable, NoMemory>
    ensures { IfOk result (λ table. table.items
        ≡ spec.filled (replicate letters None) listing.now) }
{
    let mut table = empty_table(alloc, letters)?;
    let mut left = listing;
    while let [listed, rest @ ..] = left {
        put_flags(&mut table, *listed);
        left = rest;
    }
    Ok(table)
}

// A table of so many places without flags.
fn empty_table(alloc: Global, letters: usize) -> Result<FlagTable, NoMemory>
    ensures { IfOk result (λ table. table.items ≡ replicate letters None) }
{
    let mut table: FlagTable = Vec::new(alloc);
    let mut left = letters;
    while left > 0 {
        table.push(None)?;
        left -= 1;
    }
    Ok(table)
}

// Puts the flags of a listed message into its place, where the table has it.
fn put_flags(table: &mut [Option<Flags>], listed: Listed)
    ensures { table.new ≡ spec.with_flags table.old listed }
{
    let place = listed.id.0 as usize;
    if place < table.len() {
        table[place] = Some(listed.flags);
    }
}

// The flags in the place of an id.
fn flags_at(table: &[Option<Flags>], id: Id) -> Option<Flags>
    ensures { result ≡ spec.flags_at table.now id.0 }
{
    match table.get(id.0 as usize) {
        Some(flags) => *flags,
        None => None,
    }
}

// The ids of the old listing that are not in the new one.
fn gone_ids(alloc: Global, letters: usize, old: &[Listed], new: &[Listed]) -> Result<Ids, NoMemory>
    ensures { IfOk result (λ gone. gone.items ≡ map (λ listed. listed.id)
        (filter (spec.is_new (spec.filled (replicate letters None) new.now)) old.now)) }
{
    let after = flag_table(alloc, letters, new)?;
    let mut gone = Ids::new(alloc);
    let mut left = old;
    while let [listed, rest @ ..] = left {
        if is_new(after.as_slice(), *listed) {
            gone.push(listed.id)?;
        }
        left = rest;
    }
    Ok(gone)
}

// Those that are not in the table.
fn new_listed(
    alloc: Global,
    listing: &[Listed],
    table: &[Option<Flags>],
) -> Result<Listing, NoMemory>
    ensures { IfOk result (λ came. came.items ≡ filter (spec.is_new table.now) listing.now) }
{
    let mut came = Listing::new(alloc);
    let mut left = listing;
    while let [listed, rest @ ..] = left {
        if is_new(table, *listed) {
            came.push(*listed)?;
        }
        left = rest;
    }
    Ok(came)
}

// Those that have other flags in the table.
fn reflagged(
    alloc: Global,
    listing: &[Listed],
    table: &[Option<Flags>],
) -> Result<Listing, NoMemory>
    ensures { IfOk result (λ reflagged. reflagged.items
        ≡ filter (spec.has_others table.now) listing.now) }
{
    let mut reflagged = Listing::new(alloc);
    let mut left = listing;
    while let [listed, rest @ ..] = left {
        if has_others(table, *listed) {
            reflagged.push(*listed)?;
        }
        left = rest;
    }
    Ok(reflagged)
}

// A listed message is not in the table.
fn is_new(table: &[Option<Flags>], listed: Listed) -> bool
    ensures { result ≡ spec.is_new table.now listed }
{
    flags_at(table, listed.id).is_none()
}

// A listed message has other flags in the table.
fn has_others(table: &[Option<Flags>], listed: Listed) -> bool
    ensures { result ≡ spec.has_others table.now listed }
{
    match flags_at(table, listed.id) {
        Some(flags) => !same_flags(flags, listed.flags),
        None => false,
    }
}

/// The flags are the same.
pub fn same_flags(flags: Flags, others: Flags) -> bool
    ensures { result ≡ spec_same_flags flags others }
{
    flags.seen == others.seen
        && flags.aged == others.aged
        && flags.replied == others.replied
        && flags.flagged == others.flagged
        && flags.passed == others.passed
        && flags.draft == others.draft
        && flags.trashed == others.trashed
}
