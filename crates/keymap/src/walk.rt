//! A walk through the keys that wait.

ghost use Rattle.std.specs.Prelude.{◌≡◌, ◌<◌, ◌≤◌, ◌+◌, ◌++◌, [], length, IfOk, OnOk};
ghost use Rattle.keymap.specs.Queue.{TakesFirst, most_replacements};
ghost use Rattle.keymap.specs.Walk as spec;

use crate::key::{Key, Keys};
use crate::key_queue::KeyQueue;
use mail_base::NoMemory;
use std::alloc::Global;

/// A walk through a queue, which stays as it is: the keys of a begun sequence, the keys put ahead
/// of those that wait, with the count of replacements, and how many of the queue were taken.
#[derive(Drop)]
pub struct Walk {
    pub begun: Vec<Key>,
    pub ahead: KeyQueue,
    pub taken: usize,
}

impl Walk {
    pub fn start(alloc: Global, begun: &[Key], queue: &KeyQueue) -> Result<Walk, NoMemory>
        ensures { IfOk result (λ w. (w.begun.items ≡ begun.now) × (w.ahead.items ≡ [])
            × (w.ahead.replaced ≡ queue.now.replaced) × (w.taken ≡ 0)) }
    {
        Ok(Walk {
            begun: Vec::from_slice(alloc, begun)?,
            ahead: queue.ahead(alloc),
            taken: 0,
        })
    }

    /// Takes the next key.
    pub fn next(&mut self, queue: &KeyQueue) -> Option<Key>
        requires { self.old.taken ≤ length queue.now.items }
        ensures key { TakesFirst result (spec.waiting_on self.old queue.now)
            (spec.waiting_on self.new queue.now) }
        ensures kept { spec.IsWithin self.old self.new queue.now }
        ensures begun { self.new.begun.items ≡ self.old.begun.items }
    {
        if let Some(key) = self.ahead.take_first() {
            return Some(key);
        }
        if self.taken >= queue.len() {
            return None;
        }
        let key = queue.get(self.taken)?;
        self.taken += 1;
        Some(*key)
    }

    /// Puts a text in the place of a begun sequence, where a replacement is left.
    pub fn replace(&mut self, text: &Keys) -> Result<(), NoMemory>
        requires { self.old.ahead.replaced < most_replacements }
        ensures begun { OnOk result (self.new.begun.items ≡ []) }
        ensures ahead { OnOk result (self.new.ahead.items
            ≡ text.now.items ++ self.old.ahead.items) }
        ensures replaced { self.new.ahead.replaced ≡ self.old.ahead.replaced + 1 }
        ensures taken { self.new.taken ≡ self.old.taken }
    {
        self.begun.clear();
        let _counted = self.ahead.count_one();
        self.ahead.put_before(text)
    }

    /// Drops all keys.
    pub fn drop_all(&mut self, queue: &KeyQueue)
        ensures begun { self.new.begun.items ≡ [] }
        ensures waiting { spec.waiting_on self.new queue.now ≡ [] }
        ensures kept { spec.IsWithin self.old self.new queue.now }
    {
        self.begun.clear();
        self.ahead.clear();
        self.taken = queue.len();
    }
}
