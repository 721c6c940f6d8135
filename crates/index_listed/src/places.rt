//! Where ids stand in a list.

ghost use Rattle.std.specs.Prelude.{◌≡◌, ◌<◌, ◌+◌, ◌^◌, ◌++◌, ◌∷◌, [], length, nat_eq};
ghost use Rattle.std.specs.Prelude.{position, false, IfOk, IfSome, OnOk};
ghost use Rattle.std.specs.List.{IsDistinct, list_any};
ghost use Rattle.index_listed.specs.Places.{numbers};

use indexmap::IndexSet;
use mail_base::{Id, NoMemory};
use std::alloc::Global;
use std::marker::Model;

/// Where each of some ids stands; contracts see them as their numbers.
pub struct Places {
    numbers: IndexSet<u32>,
}

impl Drop for Places {
    fn drop(self) {
        let Places { numbers: _ } = self;
    }
}

impl Model for Places {
    ghost use Rattle.std.specs.Prelude.{ℕ, List};

    ghost Value = { List ℕ };

    ghost view = { λ p. p.numbers.keys };
}

impl Places {
    pub fn new(alloc: Global) -> Places
        ensures { result ≡ [] }
    {
        Places {
            numbers: IndexSet::new(alloc),
        }
    }

    /// Puts an id last.
    pub fn add(&mut self, id: Id) -> Result<(), NoMemory>
        requires { list_any (nat_eq id.0) self.old ≡ false }
        ensures { OnOk result (self.new ≡ self.old ++ id.0 ∷ []) }
    {
        self.numbers.insert(id.0)?;
        Ok(())
    }

    /// The place of an id.
    pub fn find(&self, id: Id) -> Option<usize>
        ensures place { result ≡ position (nat_eq id.0) self.now }
        ensures within { IfSome result (λ p. p < length self.now) }
        ensures small { IfSome result (λ p. p + 1 < 2 ^ 64) }
    {
        let _count = self.numbers.len();
        self.numbers.get_index_of(&id.0)
    }
}

/// The places of ids that differ.
pub fn places_of(alloc: Global, ids: &[Id]) -> Result<Places, NoMemory>
    requires { IsDistinct nat_eq (numbers ids.now) }
    ensures { IfOk result (λ p. p ≡ numbers ids.now) }
{
    let mut places = Places::new(alloc);
    let mut left = ids;
    while let [first, rest @ ..] = left {
        places.add(*first)?;
        left = rest;
    }
    Ok(places)
}
