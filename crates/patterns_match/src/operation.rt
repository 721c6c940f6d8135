//! Patterns in postfix form.

ghost use Rattle.std.specs.Prelude.{◌≡◌, ◌++◌, ◌∷◌, [], IfOk};

use crate::relation::Relation;
use mail_base::NoMemory;

/// A step in asking a pattern. Each operator stands behind what it is about; what need not be asked
/// is skipped.
#[derive(Drop)]
pub enum Operation<L> {
    Ask(L),
    Negate,
    /// Skips so many operations unless what is before them holds.
    SkipUnless(usize),
    /// Skips so many operations if what is before them holds.
    SkipIf(usize),
    /// The next operations, so many, are about other messages.
    Others(Relation, usize),
    Both,
    Either,
    Group,
    Related(Relation),
}

/// The operations with another behind them.
pub fn with_last<L: Drop>(
    mut operations: Vec<Operation<L>>,
    last: Operation<L>,
) -> Result<Vec<Operation<L>>, NoMemory>
    ensures { IfOk result (λ v. v.items ≡ operations.items ++ last ∷ []) }
{
    operations.push(last)?;
    Ok(operations)
}
