//! Cases of mailboxes of which messages change.

ghost use Rattle.std.specs.Prelude.{◌≡◌, IsTrue, true};
ghost use Rattle.index_items.specs.Changes.{AreBelow};

use crate::flags::flags_named;
use case_files::{Answer, Case, CaseFault, Entry, Subject, read_number};
use folder_letters::{Change, Changed1, Changes, Listed, Listing};
use mail_base::{Delta, Flags, Id};
use mbox_text::{cut_regions, rewrite};
use std::alloc::Global;

/// `bytes` is a mailbox of which the first messages are `listed`, so many; `discard N` takes the
/// message at a place away, `add N` and `clear N` change its flags by letters. `at` is where the
/// first message that changes starts, and `tail` what stands from there on then.
pub struct Rewriting;

impl Subject for Rewriting {
    fn inputs(&self) -> &[&[u8]] {
        &[b"bytes", b"listed", b"discard", b"add", b"clear"]
    }

    fn answer(&self, alloc: Global, case: &Case, answer: &mut Answer) -> Result<(), CaseFault> {
        let bytes = case.need(b"bytes")?;
        let count = case.number(b"listed")?.unwrap_or(0);
        let changes = changes_of(alloc, case)?;
        put_rewritten(alloc, answer, bytes, count, &changes)
    }
}

fn put_rewritten(
    alloc: Global,
    answer: &mut Answer,
    bytes: &[u8],
    count: u64,
    changes: &Changes,
) -> Result<(), CaseFault> {
    let Ok(regions) = cut_regions(alloc, bytes) else {
        return Err(CaseFault::BadInput);
    };
    let listing = listing_of(alloc, count)?;
    let bound = listing.len();
    let changes = changes.as_slice();
    if !are_below(bound, changes) {
        return Err(CaseFault::BadInput);
    }
    let (regions, listing) = (regions.as_slice(), listing.as_slice());
    let rewritten = rewrite(alloc, bytes, regions, bound, listing, changes)?;
    answer.put_count(b"at", rewritten.at)?;
    answer.put(b"tail", rewritten.tail.as_slice())
}

/// Whether all changes are of messages below a number.
fn are_below(bound: usize, changes: &[Changed1]) -> bool
    ensures { IsTrue result → AreBelow bound changes.now }
{
    changes
        .iter()
        .all(|changed| (changed.id.0 as usize) < bound)
}

/// A listing of so many messages.
fn listing_of(alloc: Global, count: u64) -> Result<Listing, CaseFault> {
    let mut listing = Listing::new(alloc);
    for id in 0..u32::try_from(count).unwrap_or(0) {
        listing.push(Listed {
            id: Id(id),
            flags: Flags::NONE,
        })?;
    }
    Ok(listing)
}

fn changes_of(alloc: Global, case: &Case) -> Result<Changes, CaseFault> {
    let mut changes = Changes::new(alloc);
    for entry in case.entries.as_slice() {
        if let Some(change) = change_of(entry)? {
            let id = u32::try_from(read_number(entry.about())?).unwrap_or(u32::MAX);
            changes.push(Changed1 { id: Id(id), change })?;
        }
    }
    Ok(changes)
}

fn change_of(entry: &Entry) -> Result<Option<Change>, CaseFault> {
    let letters = entry.value.as_slice();
    match entry.role() {
        b"discard" => Ok(Some(Change::Discard)),
        b"add" => delta_of(letters, b""),
        b"clear" => delta_of(b"", letters),
        _ => Ok(None),
    }
}

fn delta_of(added: &[u8], cleared: &[u8]) -> Result<Option<Change>, CaseFault> {
    match Delta::new(flags_named(added)?, flags_named(cleared)?) {
        Some(delta) => Ok(Some(Change::Alter(delta))),
        None => Err(CaseFault::BadInput),
    }
}
