//! What a scan leaves of the listed messages.

ghost use Rattle.std.specs.Prelude.{◌≡◌, ◌++◌, length, map, IfOk, OnOk};
ghost use Rattle.folder_letters.specs.Letters.{plain_letter};
ghost use Rattle.folder_letters.specs.declared.listing.Found as found;
ghost use Rattle.index_items.specs.Found as spec;
ghost use Rattle.index_items.specs.Items.{plain_item, plain_items};

use crate::by_id::ById;
use crate::item::Item;
use folder_letters::{Archive, Found, Listed};
use mail_base::{Flags, Id, NoMemory};
use std::alloc::Global;
use std::cmp::Ordering;

fn gone_table(alloc: Global, bound: usize, gone: &[Id]) -> Result<ById<Id>, NoMemory>
    requires { spec.AreIdsBelow bound gone.now }
    ensures { IfOk result (λ t. spec.HasGone t gone.now) }
{
    let mut table = ById::new(alloc, bound)?;
    for place in 0..gone.len() {
        let id = gone[place];
        table.put(id.0 as usize, id);
    }
    Ok(table)
}

fn flags_table(alloc: Global, bound: usize, listed: &[Listed]) -> Result<ById<Flags>, NoMemory>
    requires { spec.AreListedBelow bound listed.now }
    ensures { IfOk result (λ t. spec.HasFlags t listed.now) }
{
    let mut table = ById::new(alloc, bound)?;
    for place in 0..listed.len() {
        let found = listed[place];
        table.put(found.id.0 as usize, found.flags);
    }
    Ok(table)
}

fn put_kept(
    kept: &mut Vec<Item>,
    item: Item,
    gone: bool,
    flags: Option<Flags>,
) -> Result<(), NoMemory>
    ensures { OnOk result (plain_items kept.new.items
        ≡ plain_items kept.old.items ++ spec.kept_item gone flags (plain_item item)) }
{
    if !gone {
        kept.push(Item {
            flags: flags.unwrap_or(item.flags),
            ..item
        })?;
    }
    Ok(())
}

// Adds what is left of some messages.
fn put_all_kept(
    kept: &mut Vec<Item>,
    gone: &ById<Id>,
    flags: &ById<Flags>,
    items: &[Item],
) -> Result<(), NoMemory>
    ensures { (found : found.Found) → spec.HasGone gone.now found.gone.items
        → spec.HasFlags flags.now found.reflagged.items
        → OnOk result (plain_items kept.new.items
        ≡ plain_items kept.old.items ++ spec.kept_items found (plain_items items.now)) }
{
    let mut left = items;
    while let [first, rest @ ..] = left {
        let number = first.id.0 as usize;
        put_kept(kept, *first, gone.get(number).is_some(), flags.get(number))?;
        left = rest;
    }
    Ok(())
}

fn put_came(items: &mut Vec<Item>, came: &[Listed]) -> Result<(), NoMemory>
    ensures { OnOk result (plain_items items.new.items
        ≡ plain_items items.old.items ++ spec.came_items came.now) }
{
    let mut left = came;
    while let [first, rest @ ..] = left {
        items.push(Item::listed(first.id, first.flags))?;
        left = rest;
    }
    Ok(())
}

fn order_at(archive: &Archive, id: Id) -> u64
    ensures { result ≡ spec.order_at (map plain_letter archive.now.items) id.0 }
{
    match archive.get(id.0 as usize) {
        Some(letter) => letter.order,
        None => 0,
    }
}

fn key_at(archive: &Archive, id: Id) -> &[u8]
    ensures { result.now ≡ spec.key_at (map plain_letter archive.now.items) id.0 }
{
    match archive.get(id.0 as usize) {
        Some(letter) => letter.key.as_slice(),
        None => b"",
    }
}

fn listing_order(archive: &Archive, a: &Item, b: &Item) -> Ordering
    ensures { result ≡ spec.listing_cmp (map plain_letter archive.now.items)
        (plain_item a.now) (plain_item b.now) }
{
    let keys = key_at(archive, a.id).cmp(&key_at(archive, b.id));
    order_at(archive, a.id)
        .cmp(&order_at(archive, b.id))
        .then(keys)
        .then(a.id.0.cmp(&b.id.0))
}

// Adds what a scan leaves of some messages.
fn put_left(
    alloc: Global,
    letters: usize,
    found: &Found,
    items: &[Item],
    left: &mut Vec<Item>,
) -> Result<(), NoMemory>
    requires { spec.IsFoundBelow letters found.now }
    ensures { OnOk result (plain_items left.new.items
        ≡ plain_items left.old.items ++ spec.kept_items found.now (plain_items items.now)) }
{
    let gone = gone_table(alloc, letters, found.gone.as_slice())?;
    let flags = flags_table(alloc, letters, found.reflagged.as_slice())?;
    put_all_kept(left, &gone, &flags, items)
}

// What is left of the messages, and those that came behind them.
fn gathered(
    alloc: Global,
    letters: usize,
    found: &Found,
    items: &[Item],
) -> Result<Vec<Item>, NoMemory>
    requires { spec.IsFoundBelow letters found.now }
    ensures { IfOk result (λ more. plain_items more.items
        ≡ spec.kept_items found.now (plain_items items.now)
        ++ spec.came_items found.now.came.items) }
{
    let mut more = Vec::with_capacity(alloc, items.len())?;
    put_left(alloc, letters, found, items, &mut more)?;
    put_came(&mut more, found.came.as_slice())?;
    Ok(more)
}

/// The messages that a scan leaves, with those that came, in listing order.
pub fn joined(
    alloc: Global,
    archive: &Archive,
    found: &Found,
    items: &[Item],
) -> Result<Vec<Item>, NoMemory>
    requires { spec.IsFoundBelow (length archive.now.items) found.now }
    ensures { IfOk result (λ more. spec.IsJoined (map plain_letter archive.now.items) found.now
        (plain_items items.now) (plain_items more.items)) }
{
    let mut more = gathered(alloc, archive.len(), found, items)?;
    more.sort_by(
        |a: &Item, b: &Item| -> Ordering
            ensures { result ≡ spec.listing_cmp (map plain_letter archive.entry.now.items)
                (plain_item a.now) (plain_item b.now) }
        { listing_order(archive, a, b) },
    )?;
    Ok(more)
}
