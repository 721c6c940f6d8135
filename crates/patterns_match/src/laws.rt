//! Laws of the definitions, each the contract of a function that does nothing.

ghost use Rattle.patterns_match.specs.Machine.{OperationsAnswer};

/// Asking the operations of a pattern in order, with what is skipped, tells whether a message
/// satisfies it.
pub fn operations_answer()
    ensures { OperationsAnswer }
{}
