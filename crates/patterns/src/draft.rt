//! Patterns as they are read, before their expressions are.

ghost use Rattle.std.specs.Prelude.{◌≡◌, ◌++◌, ◌∷◌, [], IfOk};
ghost use Rattle.patterns.specs.Needs.{plain_need};
ghost use Rattle.patterns_match.specs.Operations.{IsCode};
ghost use Rattle.patterns.specs.Needs.{made, plain_operations};
ghost use Rattle.patterns_match.specs.Trees.{Asks, Not, And, Or, Group, Related};

use crate::need::Need;
use mail_base::NoMemory;
use patterns_match::{Operation, Relation, with_last};
use std::alloc::Global;

/// A pattern whose expressions are texts.
#[derive(Drop)]
pub struct Draft {
    pub operations: Vec<Operation<Need>>,
    ghost code: { IsCode (plain_operations operations.items) },
}

// Two patterns, with an operation between them and one behind them.
fn joined(
    mut left: Vec<Operation<Need>>,
    skip: Operation<Need>,
    mut right: Vec<Operation<Need>>,
    last: Operation<Need>,
) -> Result<Vec<Operation<Need>>, NoMemory>
    ensures { IfOk result (λ v. v.items
        ≡ left.items ++ skip ∷ [] ++ right.items ++ last ∷ []) }
{
    left.push(skip)?;
    left.append(&mut right)?;
    left.push(last)?;
    Ok(left)
}

impl Draft {
    /// What a term asks.
    pub fn ask(alloc: Global, need: Need) -> Result<Self, NoMemory>
        ensures { IfOk result (λ d. made d.operations.items ≡ Asks (plain_need need)) }
    {
        let operations = with_last(Vec::new(alloc), Operation::Ask(need))?;
        Ok(Draft { operations })
    }

    pub fn negate(self) -> Result<Self, NoMemory>
        ensures { IfOk result (λ d. made d.operations.items ≡ Not (made self.operations.items)) }
    {
        let operations = with_last(self.operations, Operation::Negate)?;
        Ok(Draft { operations })
    }

    pub fn group(self) -> Result<Self, NoMemory>
        ensures { IfOk result (λ d. made d.operations.items ≡ Group (made self.operations.items)) }
    {
        let operations = with_last(self.operations, Operation::Group)?;
        Ok(Draft { operations })
    }

    pub fn and(self, other: Self) -> Result<Self, NoMemory>
        ensures { IfOk result (λ d. made d.operations.items
            ≡ And (made self.operations.items) (made other.operations.items)) }
    {
        let skip = Operation::SkipUnless(other.operations.len());
        let operations = joined(self.operations, skip, other.operations, Operation::Both)?;
        Ok(Draft { operations })
    }

    pub fn or(self, other: Self) -> Result<Self, NoMemory>
        ensures { IfOk result (λ d. made d.operations.items
            ≡ Or (made self.operations.items) (made other.operations.items)) }
    {
        let skip = Operation::SkipIf(other.operations.len());
        let operations = joined(self.operations, skip, other.operations, Operation::Either)?;
        Ok(Draft { operations })
    }

    /// The pattern asked of other messages.
    pub fn relate(self, alloc: Global, relation: Relation) -> Result<Self, NoMemory>
        ensures { IfOk result (λ d. made d.operations.items
            ≡ Related relation (made self.operations.items)) }
    {
        let others = Operation::Others(relation, self.operations.len());
        let last = Operation::Related(relation);
        let operations = joined(Vec::new(alloc), others, self.operations, last)?;
        Ok(Draft { operations })
    }
}
