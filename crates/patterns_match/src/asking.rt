//! Patterns that are asked of messages, operation by operation.

ghost use Rattle.std.specs.Prelude.{◌≡◌, ◌<◌, ◌∷◌, true, length, take, drop, slice_get};
ghost use Rattle.std.specs.Prelude.{IfOk, IsOk, if◌then◌else◌};
ghost use Rattle.patterns_match.specs.Asked.{asked_operations, asked_tree, plain_asked};
ghost use Rattle.patterns_match.specs.Entries.{plain_entry};
ghost use Rattle.patterns_match.specs.Kept.{IsKeptAt};
ghost use Rattle.patterns_match.specs.Machine.{AreFramed, Steps, are_free};
ghost use Rattle.patterns_match.specs.Operations.{IsCode, operation_map};
ghost use Rattle.patterns_match.specs.Pattern.{pattern_tree};
ghost use Rattle.patterns_match.specs.Leaves.{asks_freely};
ghost use Rattle.patterns_match.specs.Satisfies as spec;

use crate::asked::Asked;
use crate::asks::asks;
use crate::entry::{Entry, entry_at};
use crate::kept::Kept;
use crate::operation::Operation;
use crate::pattern::Pattern;
use crate::relation::Relation;
use crate::table::Table;
use crate::tells::is_child;
use mail_base::NoMemory;
use people::People;
use std::alloc::Global;

/// The first operations, so many.
pub fn front(operations: &[Operation<Asked>], count: usize) -> &[Operation<Asked>]
    ensures { result.now ≡ take count operations.now }
{
    let (front, _) = operations.split_at(count.min(operations.len()));
    front
}

fn behind(operations: &[Operation<Asked>], count: usize) -> &[Operation<Asked>]
    ensures { result.now ≡ drop count operations.now }
{
    let (_, behind) = operations.split_at(count.min(operations.len()));
    behind
}

// What is asked next where so many operations may be skipped.
fn skipped(operations: &[Operation<Asked>], skip: bool, count: usize) -> &[Operation<Asked>]
    ensures { result.now ≡ (if skip then drop count operations.now else operations.now) }
{
    if skip {
        behind(operations, count)
    } else {
        operations
    }
}

// Whether another message is so related to the one at a place.
fn is_related<T: Table>(
    relation: Relation,
    place: usize,
    entry: &Entry<'_>,
    other: usize,
    table: &T,
) -> bool
    requires { other < length (T.messages table.now) }
    ensures { result ≡ spec.passes (spec.is_related relation place (plain_entry entry.now) other)
        (slice_get (T.messages table.now) other) }
{
    match relation {
        Relation::Thread => table.root(other) == entry.root,
        Relation::Parent => entry.parent == Some(other),
        Relation::Child => is_child(place, other, table),
    }
}

// Whether a message that is so related to the one at a place satisfies the pattern of these
// operations. The parent is asked alone; for others each message is looked at, so that patterns of
// them in one another take a time that grows by the number of messages with each of them.
#[cycle(asking)]
fn some_related<T: Table>(
    alloc: Global,
    relation: Relation,
    operations: &[Operation<Asked>],
    offset: i32,
    place: usize,
    table: &T,
    people: &mut People,
) -> Result<bool, NoMemory>
    requires whole { IsCode (asked_operations operations.now) }
    ensures value { IfOk result (λ held. held
        ≡ spec.some_related (T.messages table.now) relation place
        (spec.satisfies people.old offset (T.messages table.now) (asked_tree operations.now))) }
    ensures same { people.new ≡ people.old }
    ensures memory { are_free (asked_operations operations.now) ≡ true → IsOk result }
{
    let Some(entry) = entry_at(place, table) else {
        return Ok(false);
    };
    if let Relation::Parent = relation {
        return match entry.parent {
            Some(parent) => {
                let mut kept = Kept::new(alloc);
                answer(&mut kept, operations, offset, parent, table, people)
            }
            None => Ok(false),
        };
    }
    for other in 0..table.len() {
        let mut kept = Kept::new(alloc);
        if is_related(relation, place, &entry, other, table)
            && answer(&mut kept, operations, offset, other, table, people)?
        {
            return Ok(true);
        }
    }
    Ok(false)
}

// The answer behind an operation, with the operations that are asked next.
#[cycle(asking)]
fn step<'a, T: Table>(
    kept: &mut Kept,
    operation: &Operation<Asked>,
    rest: &'a [Operation<Asked>],
    held: bool,
    offset: i32,
    place: usize,
    table: &T,
    people: &mut People,
) -> Result<(bool, &'a [Operation<Asked>]), NoMemory>
    requires framed { AreFramed (operation_map plain_asked operation.now
        ∷ asked_operations rest.now) }
    requires kept { IsKeptAt (T.messages table.now) place kept.old }
    ensures steps { IfOk result (λ p. Steps people.old offset (T.messages table.now) place held
        (operation_map plain_asked operation.now ∷ asked_operations rest.now)
        p.0 (asked_operations p.1.now)) }
    ensures kept { IfOk result (λ _. IsKeptAt (T.messages table.now) place kept.new) }
    ensures same { people.new ≡ people.old }
    ensures memory { are_free (operation_map plain_asked operation.now
        ∷ asked_operations rest.now) ≡ true → IsOk result }
{
    match operation {
        Operation::Ask(asked) => { Ok((asks(kept, asked, offset, place, table, people)?, rest)) }
        Operation::Negate => Ok((!held, rest)),
        Operation::SkipUnless(count) => Ok((held, skipped(rest, !held, *count))),
        Operation::SkipIf(count) => Ok((held, skipped(rest, held, *count))),
        Operation::Others(relation, count) => {
            let others = front(rest, *count);
            let found = some_related(kept.alloc, *relation, others, offset, place, table, people)?;
            Ok((found, behind(rest, *count)))
        }
        Operation::Both | Operation::Either | Operation::Group | Operation::Related(_) => {
            Ok((held, rest))
        }
    }
}

// Whether the message at a place satisfies the pattern of these operations.
#[cycle(asking)]
fn answer<T: Table>(
    kept: &mut Kept,
    operations: &[Operation<Asked>],
    offset: i32,
    place: usize,
    table: &T,
    people: &mut People,
) -> Result<bool, NoMemory>
    requires whole { IsCode (asked_operations operations.now) }
    requires kept { IsKeptAt (T.messages table.now) place kept.old }
    ensures value { IfOk result (λ held. held ≡ spec.satisfies people.old offset
        (T.messages table.now) (asked_tree operations.now) place) }
    ensures same { people.new ≡ people.old }
    ensures memory { are_free (asked_operations operations.now) ≡ true → IsOk result }
{
    let mut held = false;
    let mut left = operations;
    while let [first, rest @ ..] = left {
        let (next, behind) = step(kept, first, rest, held, offset, place, table, people)?;
        held = next;
        left = behind;
    }
    Ok(held)
}

/// Whether the message at a place satisfies the pattern, which is lent to be read alone.
pub fn is_matched<T: Table>(
    alloc: Global,
    pattern: &Pattern,
    place: usize,
    table: &T,
    people: &mut People,
) -> Result<bool, NoMemory>
    ensures value { IfOk result (λ found. found ≡ spec.satisfies people.old pattern.now.offset
        (T.messages table.now) (pattern_tree pattern.now) place) }
    ensures same { people.new ≡ people.old }
    ensures memory { asks_freely (pattern_tree pattern.now) ≡ true → IsOk result }
{
    let mut kept = Kept::new(alloc);
    answer(
        &mut kept,
        pattern.operations.as_slice(),
        pattern.offset,
        place,
        table,
        people,
    )
}

/// Whether the message at a place satisfies the pattern. Operations are asked front to back, up to
/// where the answer is known; a part is decoded where a term first asks for it.
pub fn matches<T: Table>(
    alloc: Global,
    pattern: &mut Pattern,
    place: usize,
    table: &T,
    people: &mut People,
) -> Result<bool, NoMemory>
    requires { place < length (T.messages table.now) }
    ensures value { IfOk result (λ found. found ≡ spec.satisfies people.old pattern.old.offset
        (T.messages table.now) (pattern_tree pattern.old) place) }
    ensures same { (pattern.new ≡ pattern.old) × (people.new ≡ people.old) }
    ensures memory { asks_freely (pattern_tree pattern.old) ≡ true → IsOk result }
{
    is_matched(alloc, pattern, place, table, people)
}
