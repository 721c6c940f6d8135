//! The listed messages with their tally.

use crate::act::Act;
use crate::item::Item;
use crate::tally::{Tally, tally_of, tally_with};
use std::alloc::Global;
use std::marker::Model;

/// The listed messages, of which is known how many are new, deleted and so on: they are counted
/// once, when they are put in, and what is done to one of them changes the counts by that one.
#[derive(Drop)]
pub struct Items {
    all: Vec<Item>,
    tally: Tally,
}

impl Model for Items {
    ghost use Rattle.std.specs.Prelude.{◌≡◌, List};
    ghost use Rattle.index_items.specs.Items.{PlainItem, plain_items};
    ghost use Rattle.index_items.specs.Tally.{tally_of};

    ghost Value = { List PlainItem };

    ghost view = { λ i. plain_items i.all.items };

    ghost invariant = { λ i. i.tally ≡ tally_of (plain_items i.all.items) };
}

impl Items {
    ghost use Rattle.std.specs.Prelude.{◌≡◌, ◌<◌, [], length, slice_set};
    ghost use Rattle.index_items.specs.Acts.{acted};
    ghost use Rattle.index_items.specs.Items.{item_at, plain_item, plain_items};
    ghost use Rattle.index_items.specs.Tally as spec;

    /// No messages.
    pub fn new(alloc: Global) -> Items
        ensures { result ≡ [] }
    {
        Items::from_vec(Vec::new(alloc))
    }

    /// These messages.
    pub fn from_vec(all: Vec<Item>) -> Items
        ensures { result ≡ plain_items all.items }
    {
        let tally = tally_of(&all);
        Items { all, tally }
    }

    /// The messages.
    pub fn as_slice(&self) -> &[Item]
        ensures { plain_items result.now ≡ self.now }
    {
        &self.all
    }

    /// How many of them are new, deleted and so on, and with how many a sync that purges has
    /// something to do.
    pub fn tally(&self) -> Tally
        ensures { result ≡ spec.tally_of self.now }
    {
        self.tally
    }

    /// Does this to the message at a place, and answers it as it stands then. No other message is
    /// looked at.
    pub fn act(&mut self, place: usize, act: Act) -> Item
        requires { place < length self.old }
        ensures items { self.new ≡ slice_set self.old place (acted act (item_at self.old place)) }
        ensures item { plain_item result ≡ acted act (item_at self.old place) }
    {
        let item = self.all[place].acted(act);
        self.tally = tally_with(self.tally, &self.all, place, item);
        self.all[place] = item;
        item
    }
}
