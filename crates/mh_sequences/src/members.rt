//! The numbers of a sequence, for many questions.

ghost use Rattle.std.specs.Prelude.{◌≡◌, ℕ, IfOk, slice_get, true};
ghost use Rattle.std.specs.List.{list_all};
ghost use Rattle.mh_sequences.specs.Laws.{is_upright};
ghost use Rattle.mh_sequences.specs.Ranges as spec;

use crate::range::{Range, Ranges, in_order};
use mail_base::NoMemory;
use std::alloc::Global;

/// Numbers as ranges in rising order, of which no two meet.
#[derive(Drop)]
pub struct Members {
    pub ranges: Ranges,
    pub ghost upright: { list_all is_upright ranges.items ≡ true },
    pub ghost rises: { spec.rises_from 0 ranges.items ≡ true },
}

impl Members {
    /// The numbers of ranges in any order.
    pub fn of(alloc: Global, ranges: Vec<Range>) -> Result<Members, NoMemory>
        requires { list_all is_upright ranges.items ≡ true }
        ensures { IfOk result
            (λ m. (n : ℕ) → spec.any_holds n m.ranges.items ≡ spec.any_holds n ranges.items) }
    {
        Ok(Members {
            ranges: in_order(alloc, ranges)?,
        })
    }

    // The place of the first range that does not end before the number, by a search in halves.
    fn place_of(&self, number: u32) -> usize
        ensures { spec.any_holds number self.now.ranges.items
            ≡ spec.begins_by number (slice_get self.now.ranges.items result) }
    {
        let ends_before = |range: &Range| range.last < number;
        self.ranges.as_slice().partition_point(ends_before)
    }

    /// Whether the number is one of them. It takes time by the logarithm of the number of ranges.
    pub fn holds(&self, number: u32) -> bool
        ensures { result ≡ spec.any_holds number self.now.ranges.items }
    {
        match self.ranges.get(self.place_of(number)) {
            Some(range) => range.first <= number,
            None => false,
        }
    }
}
