//! Which patterns may stand in a score.

ghost use Rattle.std.specs.Prelude.{◌≡◌, false};
ghost use Rattle.std.specs.List.{list_all};
ghost use Rattle.patterns_match.specs.Asked.{asked_operations, plain_asked};
ghost use Rattle.patterns_match.specs.Leaves as spec;
ghost use Rattle.patterns_match.specs.Operations.{operation_map};
ghost use Rattle.patterns_match.specs.Pattern.{pattern_tree};

use crate::asked::Asked;
use crate::letter::{Field, Mark, Number};
use crate::operation::Operation;
use crate::pattern::Pattern;

fn mark_may_score(mark: Mark) -> bool
    ensures { result ≡ spec.mark_may_score mark }
{
    !matches!(mark, Mark::Collapsed | Mark::Duplicate | Mark::Childless)
}

fn field_may_score(field: Field) -> bool
    ensures { result ≡ spec.field_may_score field }
{
    !matches!(
        field,
        Field::Body | Field::Whole | Field::Header | Field::ContentType
    )
}

fn number_may_score(number: Number) -> bool
    ensures { result ≡ spec.number_may_score number }
{
    matches!(number, Number::Bytes)
}

fn term_may_score(asked: &Asked) -> bool
    ensures { result ≡ spec.leaf_may_score (plain_asked asked.now) }
{
    match asked {
        Asked::Tells(mark) => mark_may_score(*mark),
        Asked::Searches(field, _) => field_may_score(*field),
        Asked::Dated(_, _) => true,
        Asked::Counts(number, _) => number_may_score(*number),
    }
}

fn step_may_score(operation: &Operation<Asked>) -> bool
    ensures { result
        ≡ spec.passes spec.leaf_may_score false (operation_map plain_asked operation.now) }
{
    match operation {
        Operation::Ask(asked) => term_may_score(asked),
        Operation::Others(_, _) | Operation::Related(_) => false,
        Operation::Negate | Operation::SkipUnless(_) | Operation::SkipIf(_) => true,
        Operation::Both | Operation::Either | Operation::Group => true,
    }
}

fn all_may_score(operations: &[Operation<Asked>]) -> bool
    ensures { result
        ≡ list_all (spec.passes spec.leaf_may_score false) (asked_operations operations.now) }
{
    let mut left = operations;
    while let [first, rest @ ..] = left {
        if !step_may_score(first) {
            return false;
        }
        left = rest;
    }
    true
}

/// Whether the pattern may stand in a score.
pub fn may_score(pattern: &Pattern) -> bool
    ensures { result ≡ spec.may_score (pattern_tree pattern.now) }
{
    all_may_score(pattern.operations.as_slice())
}
