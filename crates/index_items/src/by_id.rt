//! Tables by the numbers of ids.

ghost use Rattle.std.specs.Prelude.{◌≡◌, ◌<◌, ℕ, length, replicate, slice_get, slice_index_or};
ghost use Rattle.std.specs.Prelude.{slice_set, None, Some, IfOk};
ghost use Rattle.index_items.specs.ById as spec;

use mail_base::NoMemory;
use std::alloc::Global;
use std::marker::Model;

/// The first value that each number below a bound was given.
#[derive(Drop)]
pub struct ById<T> {
    firsts: Vec<Option<T>>,
}

impl<T> Model for ById<T> {
    ghost use Rattle.std.specs.Prelude.{List, Option};

    ghost Value = { List (Option T) };

    ghost view = { λ t. t.firsts.items };
}

impl<T: Copy> ById<T> {
    /// A table for the numbers below a bound, none of which has a value.
    pub fn new(alloc: Global, bound: usize) -> Result<ById<T>, NoMemory>
        ensures { IfOk result (λ t. t ≡ replicate bound None) }
    {
        Ok(ById {
            firsts: vec![in alloc; None; bound]?,
        })
    }

    /// The value of a number.
    pub fn get(&self, number: usize) -> Option<T>
        ensures { result ≡ slice_index_or self.now number None }
    {
        self.firsts.get(number).copied().flatten()
    }

    /// Gives a number its value, unless it has one.
    pub fn put(&mut self, number: usize, value: T)
        requires { number < length self.old }
        ensures { self.new ≡ spec.put self.old number value }
    {
        if self.firsts[number].is_none() {
            self.firsts[number] = Some(value);
        }
    }
}
