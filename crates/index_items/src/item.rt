//! A listed message.

ghost use Rattle.std.specs.Prelude.{◌≡◌, IfOk};
ghost use Rattle.index_items.specs.Items as spec;

use crate::pending::Pending;
use mail_base::{Flags, Id, NoMemory};
use std::alloc::Global;

/// A listed message, as the index keeps it.
#[derive(Clone, Copy)]
pub struct Item {
    pub id: Id,
    /// Its flags as the folder has them.
    pub flags: Flags,
    pub pending: Pending,
    pub tagged: bool,
    /// The thread of which it is the root is shut.
    pub shut: bool,
}

impl Item {
    ghost use Rattle.std.specs.Prelude.{◌≡◌, false};
    ghost use Rattle.index_items.specs.Items.{listed, plain_item, shown_flags};

    /// A message as it comes: nothing of it is changed.
    pub fn listed(id: Id, flags: Flags) -> Item
        ensures { plain_item result ≡ listed id flags }
    {
        Item {
            id,
            flags,
            pending: Pending::none(),
            tagged: false,
            shut: false,
        }
    }

    /// Its flags as they are shown.
    pub fn shown(self) -> Flags
        ensures { result ≡ shown_flags (plain_item self) }
    {
        self.flags.apply(self.pending.delta)
    }
}

/// The ids of messages.
pub fn ids_of(alloc: Global, items: &[Item]) -> Result<Vec<Id>, NoMemory>
    ensures { IfOk result (λ ids. ids.items ≡ spec.ids_of (spec.plain_items items.now)) }
{
    let mut ids = Vec::with_capacity(alloc, items.len())?;
    let mut left = items;
    while let [first, rest @ ..] = left {
        ids.push(first.id)?;
        left = rest;
    }
    Ok(ids)
}
