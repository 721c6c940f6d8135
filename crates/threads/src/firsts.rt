//! A table from texts to the first place of each.

ghost use Rattle.std.specs.Prelude.{◌≡◌, ◌<◌, ℕ, List, Some, None, OnOk, length, is_some, IfOk};
ghost use Rattle.std.specs.Prelude.{if◌then◌else◌};
ghost use Rattle.std.specs.Str.{bytes_eq};
ghost use Rattle.threads.specs.Firsts.{earlier, place_in};
ghost use Rattle.threads.specs.Inner.{IsBelow, is_before};
ghost use Rattle.threads.specs.Message.{plain_messages};

use crate::message::{Message, Order};
use indexmap::IndexMap;
use mail_base::NoMemory;
use std::alloc::Global;
use std::marker::Model;

/// A table from texts, which stay where they are, to places.
pub struct Firsts<'a> {
    places: IndexMap<&'a [u8], usize>,
}

impl<'a> Drop for Firsts<'a> {
    fn drop(self) {
        let Firsts { places: _ } = self;
    }
}

impl<'a> Model for Firsts<'a> {
    ghost use Rattle.std.specs.Prelude.{ℕ, List};
    ghost use Rattle.std.specs.Borrow.{Bor};

    ghost Value = { List (Bor (List ℕ) × ℕ) };

    ghost view = { λ f. f.places.entries };
}

impl<'a> Firsts<'a> {
    /// An empty table with room for so many texts.
    pub fn with_room(alloc: Global, count: usize) -> Result<Firsts<'a>, NoMemory>
        ensures { IfOk result (λ f. (text : List ℕ) → place_in f text ≡ None) }
    {
        let mut places = IndexMap::new(alloc);
        places.reserve(count)?;
        Ok(Firsts { places })
    }

    pub fn find(&self, text: &[u8]) -> Option<usize>
        ensures { result ≡ place_in self.now text.now }
    {
        self.places.get(text).copied()
    }

    /// Gives a text its place, and tells the one that it had.
    pub fn put(&mut self, text: &'a [u8], place: usize) -> Result<Option<usize>, NoMemory>
        ensures had { IfOk result (λ had. had ≡ place_in self.old text.now) }
        ensures put { OnOk result ((other : List ℕ) → place_in self.new other
            ≡ (if bytes_eq other text.now then Some place else place_in self.old other)) }
    {
        Ok(self.places.insert(text, place)?)
    }
}

/// Takes a place into a table of the first places of texts, and tells whether the text was there.
pub fn add_first<'a>(
    order: Order,
    messages: &[Message],
    firsts: &mut Firsts<'a>,
    text: &'a [u8],
    place: usize,
) -> Result<bool, NoMemory>
    requires within { place < length messages.now }
    requires below { IsBelow firsts.old (length messages.now) }
    ensures again { IfOk result (λ again. again ≡ is_some (place_in firsts.old text.now)) }
    ensures first { OnOk result ((other : List ℕ) → place_in firsts.new other
        ≡ (if bytes_eq other text.now
        then earlier (is_before order (plain_messages messages.now)) (place_in firsts.old other)
        place
        else place_in firsts.old other)) }
{
    let Some(first) = firsts.put(text, place)? else {
        return Ok(false);
    };
    if !order.is_before(messages, place, first) {
        firsts.put(text, first)?;
    }
    Ok(true)
}
