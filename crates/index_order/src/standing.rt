//! Where the messages of a listing stand among each other in threads.

ghost use Rattle.std.specs.Prelude.{◌≡◌, ◌<◌, length, IfOk, IfSome};
ghost use Rattle.index_order.specs.Inner as spec;
ghost use Rattle.index_order.specs.Keys as keys;
ghost use Rattle.index_order.specs.Order as order;

use crate::greatest::{greatest, no_values};
use crate::keys::{Placed, SortKeys, compare_keys};
use crate::options::SortOptions;
use crate::sorted::turned;
use indexmap::IndexSet;
use mail_base::{Id, NoMemory};
use std::alloc::Global;
use std::cmp::Ordering;
use std::marker::Model;

/// A listing, how it is sorted, and the places of the parents of its messages.
#[derive(Drop)]
pub struct Standing<'a> {
    keys: &'a [SortKeys],
    options: SortOptions,
    above: Vec<Option<usize>>,
    // the message whose key is that of a thread, where it is another than the first
    greatest: Vec<Option<usize>>,
    // the numbers of the ids
    numbers: IndexSet<u32>,
}

impl<'a> Model for Standing<'a> {
    ghost use Rattle.index_order.specs.Inner.{AreStanding, PlainStanding};

    ghost Value = { PlainStanding };

    ghost view = { λ s. record {
      options = s.options;
      keys = s.keys.now;
      above = s.above.items;
    } };

    ghost invariant = { λ s. AreStanding s.options s.keys.now s.above.items s.greatest.items
        s.numbers.keys };
}

fn key_places(
    alloc: Global,
    keys: &[SortKeys],
    above: &[Option<usize>],
    options: SortOptions,
) -> Result<Vec<Option<usize>>, NoMemory>
    requires long { length above.now ≡ length keys.now }
    requires forest { spec.IsForestOf above.now }
    ensures { IfOk result (λ p. spec.AreKeyPlaces options keys.now above.now p.items) }
{
    if options.aux_last {
        greatest(alloc, keys, above, options.aux)
    } else {
        no_values(alloc, keys.len())
    }
}

impl<'a> Standing<'a> {
    /// Takes in a listing, with the numbers of its ids and the places of parents.
    pub fn new(
        alloc: Global,
        keys: &'a [SortKeys],
        numbers: IndexSet<u32>,
        above: Vec<Option<usize>>,
        options: SortOptions,
    ) -> Result<Standing<'a>, NoMemory>
        requires long { length above.items ≡ length keys.now }
        requires forest { spec.IsForestOf above.items }
        requires numbers { numbers.keys ≡ spec.numbers keys.now }
        ensures { IfOk result (λ s. s ≡ record {
          options = options;
          keys = keys.now;
          above = above.items;
        }) }
    {
        let greatest = key_places(alloc, keys, &above, options)?;
        Ok(Standing {
            keys,
            options,
            above,
            greatest,
            numbers,
        })
    }

    fn place_of(&self, id: Id) -> Option<usize>
        ensures value { result ≡ spec.place_in (spec.numbers self.now.keys) id }
        ensures within { IfSome result (λ p. p < length self.now.keys) }
    {
        self.numbers.get_index_of(&id.0)
    }

    // Where the message stands whose key is that of a thread.
    fn key_place(&self, top: usize) -> usize
        requires { top < length self.now.keys }
        ensures value { result ≡ order.key_place self.now.options self.now.keys
            (spec.link_at self.now.above) top }
        ensures within { result < length self.now.keys }
    {
        self.greatest[top].unwrap_or(top)
    }

    fn key_of(&self, top: usize) -> Placed<'_>
        requires { top < length self.now.keys }
        ensures { spec.plain_placed result ≡ keys.at self.now.keys
            (order.key_place self.now.options self.now.keys (spec.link_at self.now.above) top) }
    {
        let keys = self.keys;
        let place = self.key_place(top);
        Placed {
            place,
            keys: &keys[place],
        }
    }

    fn compare_keys(&self, a: usize, b: usize) -> Ordering
        requires first { a < length self.now.keys }
        requires second { b < length self.now.keys }
        ensures { result ≡ spec.thread_keys_cmp self.now a b }
    {
        let order = compare_keys(self.options.aux, &self.key_of(a), &self.key_of(b));
        turned(self.options.aux_reverse, order)
    }

    // Roots stand first, and may stand in turned order.
    fn compare(&self, a: usize, b: usize) -> Ordering
        requires first { a < length self.now.keys }
        requires second { b < length self.now.keys }
        ensures { result ≡ spec.stands_cmp self.now a b }
    {
        match (self.above[a], self.above[b]) {
            (None, Some(_)) => Ordering::Less,
            (Some(_), None) => Ordering::Greater,
            (None, None) => turned(self.options.reverse, self.compare_keys(a, b)).then(a.cmp(&b)),
            (Some(_), Some(_)) => self.compare_keys(a, b).then(a.cmp(&b)),
        }
    }

    /// Whether one id comes before another among roots or siblings; ids that are not listed come
    /// last.
    pub fn comes_before(&self, a: Id, b: Id) -> bool
        ensures { result ≡ spec.comes_before self.now a b }
    {
        match (self.place_of(a), self.place_of(b)) {
            (Some(_), None) => true,
            (None, Some(_)) => false,
            (None, None) => a.0 < b.0,
            (Some(place), Some(other)) => self.compare(place, other).is_lt(),
        }
    }
}
