//! Texts of patterns, with their expressions.

ghost use Rattle.std.specs.Prelude.{◌≡◌, ◌≤ℤ◌, None, false, neg_ℤ, pos, option_map, map};
ghost use Rattle.std.specs.Prelude.{IfOk, IfErr};
ghost use Rattle.patterns_match.specs.Asked.{asked_operations, plain_asked};
ghost use Rattle.patterns.specs.Exprs.{asked, exprs_in};
ghost use Rattle.patterns.specs.Exprs as spec;
ghost use Rattle.patterns.specs.Causes.{Judges};
ghost use Rattle.patterns.specs.Errors.{is_fault};
ghost use Rattle.patterns.specs.Needs.{plain_need};
ghost use Rattle.patterns_match.specs.Pattern.{pattern_tree};
ghost use Rattle.patterns_match.specs.Operations.{IsCode, operation_map};
ghost use Rattle.patterns.specs.Needs.{plain_operations};
ghost use Rattle.patterns.specs.Readings.{ReadsPattern};

use crate::day::day_at;
use crate::draft_text::read_draft;
use crate::need::Need;
use crate::pattern_error::PatternError;
use mail_base::{Bytes, NoMemory};
use patterns_match::{Asked, Field, Operation, Pattern, Sought, with_last};
use people::{Expr, Verdicts};
use std::alloc::Global;

// Where the operation searches for an expression, and for which.
fn expr_of(operation: &Operation<Need>) -> Option<(Field, &[u8])>
    ensures { option_map (λ p. (p.0, p.1.now)) result
        ≡ spec.expr_of (operation_map plain_need operation.now) }
{
    match operation {
        Operation::Ask(Need::Searches(field, false, text)) => Some((*field, text.as_slice())),
        _ => None,
    }
}

// What a need without an expression asks.
fn asked_plainly(alloc: Global, need: &Need) -> Result<Asked, NoMemory>
    requires { spec.leaf_expr (plain_need need.now) ≡ None }
    ensures { IfOk result (λ a. plain_asked a ≡ asked (plain_need need.now)) }
{
    Ok(match need {
        Need::Tells(mark) => Asked::Tells(*mark),
        Need::Searches(field, _, text) => {
            Asked::Searches(
                *field,
                Sought::Plain(Bytes::copy_of(alloc, text.as_slice())?),
            )
        }
        Need::Dated(day, range) => Asked::Dated(*day, *range),
        Need::Counts(number, range) => Asked::Counts(*number, *range),
    })
}

// The same operation, where it searches for no expression.
fn copied(alloc: Global, operation: &Operation<Need>) -> Result<Operation<Asked>, NoMemory>
    requires { spec.expr_of (operation_map plain_need operation.now) ≡ None }
    ensures { IfOk result (λ o. operation_map plain_asked o
        ≡ operation_map asked (operation_map plain_need operation.now)) }
{
    Ok(match operation {
        Operation::Ask(need) => Operation::Ask(asked_plainly(alloc, need)?),
        Operation::Negate => Operation::Negate,
        Operation::SkipUnless(count) => Operation::SkipUnless(*count),
        Operation::SkipIf(count) => Operation::SkipIf(*count),
        Operation::Others(relation, count) => Operation::Others(*relation, *count),
        Operation::Both => Operation::Both,
        Operation::Either => Operation::Either,
        Operation::Group => Operation::Group,
        Operation::Related(relation) => Operation::Related(*relation),
    })
}

// The operations with their expressions read.
#[tactic(auto, using(crate::proofs::CauseLemmas::no_fault))]
fn read_exprs(
    alloc: Global,
    operations: &[Operation<Need>],
    verdicts: &mut Verdicts,
) -> Result<Vec<Operation<Asked>>, PatternError>
    requires { IsCode (plain_operations operations.now) }
    ensures value { IfOk result (λ v. asked_operations v.items
        ≡ map (operation_map asked) (plain_operations operations.now)) }
    ensures errors { IfErr result (λ e. is_fault e ≡ false) }
    ensures judges { Judges (exprs_in (plain_operations operations.now)) result
        verdicts.old.kept verdicts.new.kept
        (refused (verdicts.old.builder.vtable, verdicts.old.builder.value))
        (refused (verdicts.new.builder.vtable, verdicts.new.builder.value)) }
{
    let mut asked = Vec::new(alloc);
    let mut left = operations;
    while let Some((operation, rest)) = left.split_first() {
        let next = match expr_of(operation) {
            Some((field, text)) => {
                let expr = Expr::read(alloc, text, verdicts)?;
                Operation::Ask(Asked::Searches(field, Sought::Expression(expr)))
            }
            None => copied(alloc, operation)?,
        };
        asked = with_last(asked, next)?;
        left = rest;
    }
    Ok(asked)
}

/// The pattern that a text is, at a moment of a clock and an offset from UTC.
pub fn read_pattern(
    alloc: Global,
    text: &[u8],
    moment: i64,
    offset: i32,
    verdicts: &mut Verdicts,
) -> Result<Pattern, PatternError>
    requires low { pos 0 ≤ℤ moment }
    requires high { moment ≤ℤ pos 253_000_000_000 }
    requires west { neg_ℤ (pos 86_400) ≤ℤ offset }
    requires east { offset ≤ℤ pos 86_400 }
    ensures offset { IfOk result (λ p. p.offset ≡ offset) }
    ensures reads { ReadsPattern pattern_tree text.now moment offset result
        verdicts.old.kept verdicts.new.kept
        (refused (verdicts.old.builder.vtable, verdicts.old.builder.value))
        (refused (verdicts.new.builder.vtable, verdicts.new.builder.value)) }
{
    let today = day_at(moment, offset);
    let draft = read_draft(alloc, today, text)?;
    let operations = read_exprs(alloc, draft.operations.as_slice(), verdicts)?;
    Ok(Pattern { operations, offset })
}
