//! What a case asks of a sync.

ghost use Rattle.std.specs.Prelude.{◌≡◌, IsTrue, true, length};
ghost use Rattle.std.specs.Prelude.{None};
ghost use Rattle.folder_changes.specs.Asked.{AreListed, AreOnce};
ghost use Rattle.folder_core.specs.Keeping.{lists_id};
ghost use Rattle.index_items.specs.Changes.{change_for, plain_changes};
ghost use Rattle.rows_writes.specs.Asked.{has_change};

use crate::flags::flags_named;
use case_files::{CaseFault, read_number};
use folder_letters::{Change, Changed1, Changes, Listed};
use mail_base::{Delta, Id};
use std::alloc::Global;

/// Whether a message with the id is listed.
fn is_listed(listing: &[Listed], id: Id) -> bool
    ensures { result ≡ lists_id listing.now id.0 }
{
    listing.iter().any(|listed| listed.id.0 == id.0)
}

/// Whether one of the changes is of the message with the id.
fn is_changed(changes: &[Changed1], id: Id) -> bool
    ensures { result ≡ has_change changes.now id.0 }
{
    changes.iter().any(|changed| id.0 == changed.id.0)
}

/// Whether a change is of a listed message of which none of the others is.
fn is_alone(listing: &[Listed], id: Id, others: &[Changed1]) -> bool
    ensures listed { IsTrue result → lists_id listing.now id.0 ≡ true }
    ensures once { IsTrue result → change_for (plain_changes others.now) id.0 ≡ None }
{
    is_listed(listing, id) && !is_changed(others, id)
}

/// Whether a sync may be asked for these changes: each of a listed message, none twice.
pub fn may_sync(listing: &[Listed], changes: &[Changed1]) -> bool
    ensures listed { IsTrue result → AreListed listing.now (plain_changes changes.now) }
    ensures once { IsTrue result → AreOnce (plain_changes changes.now) }
{
    match changes {
        [first, rest @ ..] => is_alone(listing, first.id, rest) && may_sync(listing, rest),
        [] => true,
    }
}

/// The changes of a value: an id with `discard`, or with letters of flags behind `+` and `-`; `; `
/// stands between them. An empty value has none.
pub fn changes_of(alloc: Global, value: &str) -> Result<Changes, CaseFault> {
    let mut changes = Changes::new(alloc);
    for piece in value.split("; ").filter(|piece| !piece.is_empty()) {
        changes.push(change_of(piece)?)?;
    }
    Ok(changes)
}

fn change_of(piece: &str) -> Result<Changed1, CaseFault> {
    let (id, words) = piece.split_once(' ').ok_or(CaseFault::BadInput)?;
    let id = u32::try_from(read_number(id.as_bytes())?).unwrap_or(u32::MAX);
    let change = if words == "discard" {
        Change::Discard
    } else {
        Change::Alter(delta_of(words)?)
    };
    Ok(Changed1 { id: Id(id), change })
}

fn delta_of(words: &str) -> Result<Delta, CaseFault> {
    let (added, cleared) = match words.split_once(' ') {
        Some(pair) => pair,
        None => (words, "-"),
    };
    let added = added.strip_prefix("+").ok_or(CaseFault::BadInput)?;
    let cleared = cleared.strip_prefix("-").ok_or(CaseFault::BadInput)?;
    let added = flags_named(added.as_bytes())?;
    let cleared = flags_named(cleared.as_bytes())?;
    Delta::new(added, cleared).ok_or(CaseFault::BadInput)
}
