//! Keys that wait to be pressed.

ghost use Rattle.std.specs.Prelude.{◌≡◌, ◌↔◌, ◌+◌, ◌-◌, ◌<◌, ◌≤◌, ◌++◌, ◌∷◌, [], drop, length};
ghost use Rattle.std.specs.Prelude.{option_copied, slice_get};
ghost use Rattle.std.specs.Prelude.{IsOk, OnOk, OnErr, false, if◌then◌else◌};
ghost use Rattle.keymap.specs.Queue as spec;

use crate::key::{Key, Keys};
use mail_base::NoMemory;
use std::alloc::Global;
use std::collections::VecDeque;
use std::marker::Model;

/// The most replacements of keys by texts of macros for one typed key.
pub const MOST_REPLACEMENTS: u16 = 1024;

/// Keys that wait to be pressed, with the number of replacements since the last typed key.
#[derive(Drop)]
pub struct KeyQueue {
    keys: VecDeque<Key>,
    replaced: u16,
}

impl Model for KeyQueue {
    ghost use Rattle.std.specs.Prelude.{◌≤◌, ◌-◌};
    ghost use Rattle.std.specs.VecDeque.{deque_len, deque_capacity};
    ghost use Rattle.keymap.specs.Queue.{PlainQueue, most_replacements};

    ghost Value = { PlainQueue };

    ghost view = { λ q. record {
      items = q.keys.items;
      room = deque_capacity q.keys - deque_len q.keys;
      replaced = q.replaced;
    } };

    ghost invariant = { λ q. q.replaced ≤ most_replacements };
}

impl KeyQueue {
    pub fn new(alloc: Global) -> Self
        ensures items { result.items ≡ [] }
        ensures replaced { result.replaced ≡ 0 }
    {
        KeyQueue {
            keys: VecDeque::new(alloc),
            replaced: 0,
        }
    }

    pub fn len(&self) -> usize
        ensures { result ≡ length self.now.items }
    {
        self.keys.len()
    }

    pub fn get(&self, place: usize) -> Option<&Key>
        ensures { option_copied result ≡ slice_get self.now.items place }
    {
        self.keys.get(place)
    }

    /// How many replacements were made since the last typed key.
    pub fn replaced(&self) -> u16
        ensures value { result ≡ self.now.replaced }
        ensures within { result ≤ spec.most_replacements }
    {
        self.replaced
    }

    /// Makes room for so many more keys.
    pub fn reserve(&mut self, more: usize) -> Result<(), NoMemory>
        ensures kept { spec.IsAsBefore self.old self.new }
        ensures room { OnOk result (more ≤ self.new.room) }
        ensures no_less { self.old.room ≤ self.new.room }
    {
        self.keys.reserve(more)?;
        Ok(())
    }

    /// Puts a key last, without a word on who typed it.
    pub fn push(&mut self, key: Key) -> Result<(), NoMemory>
        ensures ok { OnOk result (self.new.items ≡ self.old.items ++ key ∷ []) }
        ensures err { OnErr result (self.new.items ≡ self.old.items) }
        ensures has_room { 0 < self.old.room → IsOk result × (self.new.room + 1 ≡ self.old.room) }
        ensures replaced { self.new.replaced ≡ self.old.replaced }
    {
        self.keys.push_back(key)?;
        Ok(())
    }

    /// Puts a typed key last, from which on replacements are counted anew.
    pub fn typed(&mut self, key: Key) -> Result<(), NoMemory>
        ensures items { OnOk result (self.new.items ≡ self.old.items ++ key ∷ []) }
        ensures replaced { OnOk result (self.new.replaced ≡ 0) }
        ensures err { OnErr result (spec.IsAsBefore self.old self.new) }
    {
        self.push(key)?;
        self.replaced = 0;
        Ok(())
    }

    /// Puts keys before all that wait.
    pub fn put_before(&mut self, keys: &Keys) -> Result<(), NoMemory>
        ensures ok { OnOk result (self.new.items ≡ keys.now.items ++ self.old.items) }
        ensures err { OnErr result (self.new.items ≡ self.old.items) }
        ensures replaced { self.new.replaced ≡ self.old.replaced }
    {
        self.reserve(keys.len())?;
        self.put_reserved(keys.as_slice());
        Ok(())
    }

    // Puts keys for which there is room before all that wait.
    fn put_reserved(&mut self, keys: &[Key])
        requires { length keys.now ≤ self.old.room }
        ensures items { self.new.items ≡ keys.now ++ self.old.items }
        ensures replaced { self.new.replaced ≡ self.old.replaced }
    {
        let mut left = keys;
        while let Some((last, rest)) = left.split_last() {
            let _ = self.keys.push_front(*last);
            left = rest;
        }
    }

    /// An empty queue that goes on with the count.
    pub(crate) fn ahead(&self, alloc: Global) -> KeyQueue
        ensures items { result.items ≡ [] }
        ensures replaced { result.replaced ≡ self.now.replaced }
    {
        KeyQueue {
            keys: VecDeque::new(alloc),
            replaced: self.replaced,
        }
    }

    /// Puts the keys of another queue in the place of the first so many, and takes its count.
    pub(crate) fn replace_first(&mut self, count: usize, ahead: KeyQueue) -> Result<(), NoMemory>
        requires { count ≤ length self.old.items }
        ensures items { OnOk result (self.new.items ≡ ahead.items ++ drop count self.old.items) }
        ensures replaced { OnOk result (self.new.replaced ≡ ahead.replaced) }
        ensures err { OnErr result (spec.IsAsBefore self.old self.new) }
    {
        self.reserve(ahead.len())?;
        for _key in 0..count {
            let _ = self.keys.pop_front();
        }
        self.replaced = ahead.replaced;
        self.move_before(ahead);
        Ok(())
    }

    // Puts the keys of another queue, for which there is room, before all that wait.
    fn move_before(&mut self, mut ahead: KeyQueue)
        requires { length ahead.items ≤ self.old.room }
        ensures items { self.new.items ≡ ahead.items ++ self.old.items }
        ensures replaced { self.new.replaced ≡ self.old.replaced }
    {
        while let Some(key) = ahead.keys.pop_back() {
            let _ = self.keys.push_front(key);
        }
    }

    /// Takes the first key.
    pub fn take_first(&mut self) -> Option<Key>
        ensures items { spec.TakesFirst result self.old.items self.new.items }
        ensures replaced { self.new.replaced ≡ self.old.replaced }
    {
        self.keys.pop_front()
    }

    /// Drops all keys.
    pub fn clear(&mut self)
        ensures items { self.new.items ≡ [] }
        ensures replaced { self.new.replaced ≡ self.old.replaced }
    {
        self.keys.clear();
    }

    /// Counts a replacement, or answers false where 1,024 were made.
    pub fn count_one(&mut self) -> bool
        ensures items { self.new.items ≡ self.old.items }
        ensures full { result ≡ false ↔ (self.old.replaced ≡ spec.most_replacements) }
        ensures counted { self.new.replaced
            ≡ (if result then self.old.replaced + 1 else self.old.replaced) }
    {
        if self.replaced >= MOST_REPLACEMENTS {
            return false;
        }
        self.replaced += 1;
        true
    }
}
