//! What a sync is to do, and what it leaves of the listed messages.

ghost use Rattle.std.specs.Prelude.{◌≡◌, ◌++◌, IfOk, List, OnOk, option_map};
ghost use Rattle.index_items.specs.Changes as spec;
ghost use Rattle.index_items.specs.Items.{plain_item, plain_items};

use crate::by_id::ById;
use crate::item::Item;
use folder_letters::{Change, Changed1, Changes};
use mail_base::{Kind, NoMemory};
use std::alloc::Global;

/// What a sync is to do with a message.
pub(crate) fn change_of(kind: Kind, purge: bool, item: Item) -> Option<Change>
    ensures { option_map spec.plain_change result ≡ spec.change_of kind purge (plain_item item) }
{
    if item.pending.deleted && purge {
        return Some(Change::Discard);
    }
    if item.shown().stored(kind) == item.flags {
        return None;
    }
    Some(Change::Alter(item.pending.delta))
}

fn put_change(changes: &mut Changes, item: Item, change: Option<Change>) -> Result<(), NoMemory>
    ensures { OnOk result (spec.plain_changes changes.new.items
        ≡ spec.plain_changes changes.old.items
        ++ spec.changed_item (plain_item item) (option_map spec.plain_change change)) }
{
    if let Some(change) = change {
        let id = item.id;
        changes.push(Changed1 { id, change })?;
    }
    Ok(())
}

/// What a sync is to do with the messages, in their order; those marked deleted go where `purge`.
pub fn changes(alloc: Global, kind: Kind, purge: bool, items: &[Item]) -> Result<Changes, NoMemory>
    ensures { IfOk result (λ c. spec.plain_changes c.items
        ≡ spec.changes_of kind purge (plain_items items.now)) }
{
    let mut changes = Changes::new(alloc);
    let mut left = items;
    while let [first, rest @ ..] = left {
        put_change(&mut changes, *first, change_of(kind, purge, *first))?;
        left = rest;
    }
    Ok(changes)
}

/// The first change of each number below a bound.
pub fn table_of(alloc: Global, bound: usize, changes: &[Changed1]) -> Result<ById<Change>, NoMemory>
    requires { spec.AreBelow bound changes.now }
    ensures { IfOk result (λ t. spec.Tells t (spec.plain_changes changes.now)) }
{
    let mut table = ById::new(alloc, bound)?;
    for place in 0..changes.len() {
        let changed = changes[place];
        table.put(changed.id.0 as usize, changed.change);
    }
    Ok(table)
}

// What a sync leaves of a message.
fn put_settled(
    left: &mut Vec<Item>,
    kind: Kind,
    item: Item,
    change: Option<Change>,
) -> Result<(), NoMemory>
    ensures { OnOk result (plain_items left.new.items ≡ plain_items left.old.items
        ++ spec.settled_item kind (plain_item item) (option_map spec.plain_change change)) }
{
    match change {
        None => left.push(item)?,
        Some(Change::Alter(delta)) => {
            let held = item.flags.apply(delta).stored(kind);
            left.push(Item {
                flags: held,
                pending: item.pending.left(held),
                ..item
            })?;
        }
        Some(Change::Discard) => {}
    }
    Ok(())
}

// Adds what a sync leaves of messages.
fn put_all_settled(
    settled: &mut Vec<Item>,
    kind: Kind,
    table: &ById<Change>,
    items: &[Item],
) -> Result<(), NoMemory>
    ensures { (changes : List spec.Changed) → spec.Tells table.now changes
        → OnOk result (plain_items settled.new.items
        ≡ plain_items settled.old.items ++ spec.settled kind changes (plain_items items.now)) }
{
    let mut left = items;
    while let [first, rest @ ..] = left {
        put_settled(settled, kind, *first, table.get(first.id.0 as usize))?;
        left = rest;
    }
    Ok(())
}

/// What a sync with these changes leaves of the messages, whose numbers are below a bound.
pub fn settled(
    alloc: Global,
    kind: Kind,
    bound: usize,
    changes: &[Changed1],
    items: &[Item],
) -> Result<Vec<Item>, NoMemory>
    requires changes { spec.AreBelow bound changes.now }
    ensures { IfOk result (λ left. plain_items left.items
        ≡ spec.settled kind (spec.plain_changes changes.now) (plain_items items.now)) }
{
    let table = table_of(alloc, bound, changes)?;
    let mut settled = Vec::with_capacity(alloc, items.len())?;
    put_all_settled(&mut settled, kind, &table, items)?;
    Ok(settled)
}
