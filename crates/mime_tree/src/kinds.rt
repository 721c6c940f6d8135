//! The content types of parts.

ghost use Rattle.std.specs.Prelude.{◌≡◌, IfOk, map};
ghost use Rattle.mail_base.specs.Series.{plain_texts};

use crate::part::Parts;
use mail_base::{Bytes, Names, NoMemory};
use std::alloc::Global;

/// The content types of parts, in their order.
pub fn kind_list(alloc: Global, parts: &Parts) -> Result<Names, NoMemory>
    ensures { IfOk result (λ n. plain_texts n ≡ map (λ p. p.content.items) parts.now.items) }
{
    let mut names = Names::new(alloc);
    let mut left = parts.as_slice();
    while let [first, rest @ ..] = left {
        names.push(Bytes::copy_of(alloc, first.content.as_slice())?)?;
        left = rest;
    }
    Ok(names)
}
