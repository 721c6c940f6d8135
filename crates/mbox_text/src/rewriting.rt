//! A mailbox of which some messages change (mbox(5)).

ghost use Rattle.std.specs.Prelude.{◌≡◌, ◌≤◌, ◌++◌, ℕ, IfOk, List, OnOk, drop, length, option_map};
ghost use Rattle.std.specs.List.{concat};
ghost use Rattle.folder_core.specs.Mbox.{Cover};
ghost use Rattle.index_items.specs.Changes.{AreBelow, Changed, Tells, plain_change, plain_changes};
ghost use Rattle.mbox_text.specs.Rewriting as spec;

use crate::status::read_status;
use crate::status_fields::with_status;
use folder_core::Region;
use folder_letters::{Change, Changed1, Listed};
use index_items::{ById, table_of};
use mail_base::{Bytes, Kind, NoMemory};
use std::alloc::Global;

/// What becomes of a file: its bytes up to a place stay, and these stand behind them.
#[derive(Drop)]
pub struct Rewritten {
    pub at: usize,
    pub tail: Bytes,
}

/// What these changes of listed messages, which are the first ones of a file, make of it. The ids
/// of the messages that change are below a bound.
pub fn rewrite(
    alloc: Global,
    bytes: &[u8],
    regions: &[Region],
    bound: usize,
    listing: &[Listed],
    changes: &[Changed1],
) -> Result<Rewritten, NoMemory>
    requires cover { Cover 0 (length bytes.now) regions.now }
    requires below { AreBelow bound changes.now }
    ensures at { IfOk result (λ r. r.at ≡ spec.first_changed
        (spec.wanted_of (plain_changes changes.now) listing.now)
        (spec.raws_in bytes.now regions.now)) }
    ensures tail { IfOk result (λ r. r.tail.items ≡ spec.changed_tail
        (spec.wanted_of (plain_changes changes.now) listing.now)
        (spec.raws_in bytes.now regions.now)) }
{
    let table = table_of(alloc, bound, changes)?;
    let (count, at) = unchanged(&table, bytes, regions, listing);
    let left = behind(listing, count);
    let mut tail = Bytes::new(alloc);
    append_changed(alloc, &mut tail, &table, bytes, &regions[count..], left)?;
    Ok(Rewritten { at, tail })
}

// The listed messages behind so many.
fn behind(listing: &[Listed], count: usize) -> &[Listed]
    ensures { result.now ≡ drop count listing.now }
{
    if count < listing.len() {
        &listing[count..]
    } else {
        &[]
    }
}

// What is wanted of the first of listed messages, if anything.
fn first_change(table: &ById<Change>, listed: &[Listed]) -> Option<Change>
    ensures { (changes : List Changed) → Tells table.now changes
        → option_map plain_change result ≡ spec.first_wanted (spec.wanted_of changes listed.now) }
{
    match listed {
        [first, ..] => table.get(first.id.0 as usize),
        [] => None,
    }
}

// How many messages at the front of a file do not change, and how many bytes they have.
fn unchanged(
    table: &ById<Change>,
    bytes: &[u8],
    regions: &[Region],
    listing: &[Listed],
) -> (usize, usize)
    requires cover { Cover 0 (length bytes.now) regions.now }
    ensures count { (changes : List Changed) → Tells table.now changes
        → result.0 ≡ spec.unchanged_count (spec.wanted_of changes listing.now)
        (spec.raws_in bytes.now regions.now) }
    ensures at { (changes : List Changed) → Tells table.now changes
        → result.1 ≡ spec.first_changed (spec.wanted_of changes listing.now)
        (spec.raws_in bytes.now regions.now) }
    ensures within { result.0 ≤ length regions.now }
{
    let (mut count, mut at) = (0, 0);
    let (mut left, mut listed) = (regions, listing);
    while let [region, more @ ..] = left {
        if first_change(table, listed).is_some() {
            return (count, at);
        }
        count += 1;
        at = region.end;
        left = more;
        listed = behind(listed, 1);
    }
    (count, at)
}

// Adds what becomes of messages.
fn append_changed(
    alloc: Global,
    text: &mut Bytes,
    table: &ById<Change>,
    bytes: &[u8],
    regions: &[Region],
    listing: &[Listed],
) -> Result<(), NoMemory>
    requires cover { (from : ℕ) × Cover from (length bytes.now) regions.now }
    ensures { (changes : List Changed) → Tells table.now changes
        → OnOk result (text.new.items ≡ text.old.items ++ concat (spec.changed_raws
        (spec.wanted_of changes listing.now) (spec.raws_in bytes.now regions.now))) }
{
    let (mut left, mut listed) = (regions, listing);
    while let [region, more @ ..] = left {
        append_one(
            alloc,
            text,
            first_change(table, listed),
            &bytes[region.start..region.end],
        )?;
        left = more;
        listed = behind(listed, 1);
    }
    Ok(())
}

// Adds what becomes of a message.
fn append_one(
    alloc: Global,
    text: &mut Bytes,
    change: Option<Change>,
    raw: &[u8],
) -> Result<(), NoMemory>
    ensures { OnOk result (text.new.items ≡ text.old.items
        ++ concat (spec.changed_raw (option_map plain_change change) raw.now)) }
{
    match change {
        None => text.append(raw)?,
        Some(Change::Alter(delta)) => {
            let flags = read_status(raw).apply(delta).stored(Kind::Mbox);
            let changed = with_status(alloc, raw, flags)?;
            text.append(changed.as_slice())?;
        }
        Some(Change::Discard) => {}
    }
    Ok(())
}
