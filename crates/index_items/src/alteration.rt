//! What a call changes of a message.

ghost use Rattle.std.specs.Prelude.{◌≡◌, IfOk};
ghost use Rattle.index_items.specs.Items.{plain_item, plain_items};
ghost use Rattle.index_items.specs.Alteration as spec;

use crate::item::Item;
use mail_base::{Delta, Id, NoMemory};
use std::alloc::Global;

/// What a call changes of a message.
#[derive(Clone, Copy)]
pub enum Alteration {
    /// Flags to add and to clear, and the mark of deletion.
    Pending(Delta, Option<bool>),
    Tag(bool),
    /// The thread of which it is the root is shut, or open.
    Shut(bool),
}

/// The message with a change.
pub(crate) fn altered_item(alteration: Alteration, item: Item) -> Item
    ensures { plain_item result ≡ spec.altered_by alteration (plain_item item) }
{
    match alteration {
        Alteration::Pending(delta, deleted) => Item {
            pending: item.pending.changed(delta, deleted),
            ..item
        },
        Alteration::Tag(tagged) => Item { tagged, ..item },
        Alteration::Shut(shut) => Item { shut, ..item },
    }
}

fn altered_where(alteration: Alteration, id: Id, item: Item) -> Item
    ensures { plain_item result
        ≡ spec.altered_where id (spec.altered_by alteration) (plain_item item) }
{
    if item.id == id {
        altered_item(alteration, item)
    } else {
        item
    }
}

/// The messages, of which the one with this id is altered.
pub fn altered(
    alloc: Global,
    items: &[Item],
    id: Id,
    alteration: Alteration,
) -> Result<Vec<Item>, NoMemory>
    ensures { IfOk result (λ all. plain_items all.items
        ≡ spec.alter_at id (spec.altered_by alteration) (plain_items items.now)) }
{
    let mut all = Vec::with_capacity(alloc, items.len())?;
    let mut left = items;
    while let [first, rest @ ..] = left {
        all.push(altered_where(alteration, id, *first))?;
        left = rest;
    }
    Ok(all)
}
