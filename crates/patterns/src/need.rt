//! What a term asks, apart from the text that was read.

ghost use Rattle.std.specs.Prelude.{◌≡◌, IfOk};
ghost use Rattle.patterns.specs.Needs.{plain_need};
ghost use Rattle.patterns.specs.Tokens.{plain_leaf};

use crate::token::Leaf;
use jiff::civil::Date;
use mail_base::{Bytes, NoMemory};
use patterns_match::{Day, Field, Mark, Number, Range};
use std::alloc::Global;

/// What a term asks.
#[derive(Drop)]
pub enum Need {
    Tells(Mark),
    /// Where a text is searched for, and whether it is no expression.
    Searches(Field, bool, Bytes),
    Dated(Day, Range<Date>),
    Counts(Number, Range<u64>),
}

impl Need {
    /// What a leaf asks, with a text of its own.
    pub fn of(alloc: Global, leaf: &Leaf<'_>) -> Result<Need, NoMemory>
        ensures { IfOk result (λ need. plain_need need ≡ plain_leaf leaf.now) }
    {
        Ok(match leaf {
            Leaf::Tells(mark) => Need::Tells(*mark),
            Leaf::Searches(field, plain, text) => {
                Need::Searches(*field, *plain, Bytes::copy_of(alloc, text)?)
            }
            Leaf::Dated(day, range) => Need::Dated(*day, *range),
            Leaf::Counts(number, range) => Need::Counts(*number, *range),
        })
    }
}
