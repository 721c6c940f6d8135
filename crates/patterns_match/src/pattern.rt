//! Patterns that can be asked.

ghost use Rattle.patterns_match.specs.Asked.{asked_operations};
ghost use Rattle.patterns_match.specs.Operations.{IsCode};

use crate::asked::Asked;
use crate::operation::Operation;

/// A pattern, as it is asked of messages.
#[derive(Drop)]
pub struct Pattern {
    pub operations: Vec<Operation<Asked>>,
    /// By which days are counted, in seconds before UTC.
    pub offset: i32,
    ghost code: { IsCode (asked_operations operations.items) },
}
