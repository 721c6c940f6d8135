//! The bindings of a menu: sequences of keys, found by a table.

ghost use Rattle.std.specs.Prelude.{◌≡◌, ◌||◌, ◌++◌, ℕ, List, [], Vec, option_map, OnOk, OnErr};
ghost use Rattle.std.specs.declared.alloc.Global as global;
ghost use Rattle.keymap.specs.Bindings as spec;
ghost use Rattle.keymap.specs.declared.key.Key as key;

use crate::function::Function;
use crate::key::{Key, Keys};
use indexmap::{IndexMap, IndexSet};
use mail_base::NoMemory;
use std::alloc::Global;
use std::marker::Model;

/// What a sequence of keys does.
#[derive(Drop)]
pub enum Action {
    Run(Function),
    /// The text of a macro, which replaces the keys.
    Replace(Keys),
}

/// What keys are among bindings.
pub enum Found<'a> {
    Bound(&'a Action),
    /// Some bound sequence begins with them and goes on.
    Begun,
    Unbound,
}

/// Bindings, which contracts see as a list, each sequence once. Beside what is bound stands each
/// beginning of a bound sequence, so that a look-up takes no longer where there are more bindings.
pub struct Bindings {
    actions: IndexMap<Vec<Key>, Action>,
    fronts: IndexSet<Vec<Key>>,
}

impl Model for Bindings {
    ghost use Rattle.std.specs.Prelude.{◌≡◌, List, map};
    ghost use Rattle.keymap.specs.Bindings.{Binding, is_among, is_begun, plain_binding};
    ghost use Rattle.keymap.specs.declared.key.Key.{Key};

    ghost Value = { List Binding };

    ghost view = { λ b. map plain_binding b.actions.entries };

    ghost invariant = { λ b. (keys : List Key) → is_among b.fronts.keys keys
        ≡ is_begun (map plain_binding b.actions.entries) keys };
}

impl Drop for Bindings {
    fn drop(self) {
        let Bindings {
            actions: _,
            fronts: _,
        } = self;
    }
}

impl Bindings {
    pub fn new(alloc: Global) -> Self
        ensures { result ≡ [] }
    {
        Bindings {
            actions: IndexMap::new(alloc),
            fronts: IndexSet::new(alloc),
        }
    }

    /// What the keys are bound to, or whether they begin a bound sequence.
    pub fn find(&self, keys: &[Key]) -> Found<'_>
        ensures { spec.plain_found result ≡ spec.found self.now keys.now }
    {
        match self.actions.get(keys) {
            Some(action) => Found::Bound(action),
            None if self.fronts.contains(keys) => Found::Begun,
            None => Found::Unbound,
        }
    }

    /// Binds the keys.
    pub fn bind(&mut self, alloc: Global, keys: &[Key], action: Action) -> Result<(), NoMemory>
        ensures ok { OnOk result (self.new
            ≡ spec.bound self.old keys.now (spec.plain_action action)) }
        ensures err { OnErr result (self.new ≡ self.old) }
    {
        self.actions.reserve(1)?;
        let whole = Vec::from_slice(alloc, keys)?;
        add_fronts(alloc, &mut self.fronts, keys)?;
        let _ = self.actions.insert(whole, action);
        Ok(())
    }
}

// Adds each beginning of the keys that is shorter.
fn add_fronts(alloc: Global, fronts: &mut IndexSet<Vec<Key>>, keys: &[Key]) -> Result<(), NoMemory>
    ensures ok { OnOk result ((s : List key.Key) → spec.is_among fronts.new.keys s
        ≡ spec.is_among fronts.old.keys s || spec.is_front s keys.now) }
    ensures err { OnErr result (fronts.new.keys ≡ fronts.old.keys) }
{
    let count = fronts.len();
    let added = add_each(alloc, fronts, keys);
    if added.is_err() {
        fronts.truncate(count);
    }
    added
}

fn add_each(alloc: Global, fronts: &mut IndexSet<Vec<Key>>, keys: &[Key]) -> Result<(), NoMemory>
    ensures ok { OnOk result ((s : List key.Key) → spec.is_among fronts.new.keys s
        ≡ spec.is_among fronts.old.keys s || spec.is_front s keys.now) }
    ensures grown { (more : List (Vec key.Key global.Global))
        × (fronts.new.keys ≡ fronts.old.keys ++ more) }
{
    for size in 0..keys.len() {
        let (front, _) = keys.split_at(size);
        fronts.insert(Vec::from_slice(alloc, front)?)?;
    }
    Ok(())
}
