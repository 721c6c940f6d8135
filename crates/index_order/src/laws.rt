//! Laws of the definitions, each the contract of a function that does nothing.

ghost use Rattle.index_order.specs.Laws.{GreatestIsGreatest};

/// No message of a thread has a greater key than the one whose key counts for it.
pub fn greatest_is_greatest()
    ensures { GreatestIsGreatest }
{}
