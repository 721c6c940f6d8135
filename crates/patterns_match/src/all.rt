//! A pattern that is asked of all messages of a listing at once, operation by operation, so that
//! what it asks of other messages is asked once of each.

ghost use Rattle.std.specs.Prelude.{◌≡◌, ◌<◌, ◌∷◌, List, length, map, IfOk};
ghost use Rattle.patterns_match.specs.All as spec;
ghost use Rattle.patterns_match.specs.Asked.{asked_operations, asked_tree, plain_asked};
ghost use Rattle.patterns_match.specs.Machine.{AreFramed};
ghost use Rattle.patterns_match.specs.Operations.{IsCode, operation_map};
ghost use Rattle.patterns_match.specs.Pattern.{pattern_tree};
ghost use Rattle.patterns_match.specs.Satisfies.{all_satisfying};
ghost use Rattle.patterns_match.specs.Trees.{Leaf};
ghost use Rattle.patterns_match.specs.declared.operation.Operation as steps;

use crate::asked::Asked;
use crate::asking::{front, is_matched};
use crate::asks::asks;
use crate::kept::Kept;
use crate::letter::Mark;
use crate::operation::Operation;
use crate::pattern::Pattern;
use crate::relation::Relation;
use crate::table::Table;
use mail_base::NoMemory;
use people::People;
use std::alloc::Global;

/// The answer so far for a message, and how many operations are skipped for it.
#[derive(Clone, Copy)]
pub struct Turn {
    pub held: bool,
    pub skip: usize,
}

// The turn of the message at a place behind an operation, given what that asks of others for it.
fn next_turn<T: Table>(
    alloc: Global,
    operation: &Operation<Asked>,
    found: bool,
    turn: Turn,
    offset: i32,
    place: usize,
    table: &T,
    people: &mut People,
) -> Result<Turn, NoMemory>
    requires { place < length (T.messages table.now) }
    ensures next { IfOk result (λ next. (rest : List (steps.Operation Leaf))
        → (turn.skip ≡ 0 → found ≡ spec.others_at people.old offset (T.messages table.now)
        (operation_map plain_asked operation.now) rest place)
        → spec.behind people.old offset (T.messages table.now) place turn
        (operation_map plain_asked operation.now ∷ rest)
        ≡ spec.behind people.old offset (T.messages table.now) place next rest) }
    ensures same { people.new ≡ people.old }
{
    let Turn { held, skip } = turn;
    if skip > 0 {
        return Ok(Turn {
            held,
            skip: skip - 1,
        });
    }
    match operation {
        Operation::Ask(Asked::Tells(Mark::Childless)) => Ok(Turn {
            held: !found,
            skip: 0,
        }),
        Operation::Ask(asked) => {
            let mut kept = Kept::new(alloc);
            let held = asks(&mut kept, asked, offset, place, table, people)?;
            Ok(Turn { held, skip: 0 })
        }
        Operation::Negate => Ok(Turn {
            held: !held,
            skip: 0,
        }),
        Operation::SkipUnless(count) => Ok(Turn {
            held,
            skip: if held { 0 } else { *count },
        }),
        Operation::SkipIf(count) => Ok(Turn {
            held,
            skip: if held { *count } else { 0 },
        }),
        Operation::Others(_, count) => Ok(Turn {
            held: found,
            skip: *count,
        }),
        Operation::Both | Operation::Either | Operation::Group | Operation::Related(_) => {
            Ok(Turn { held, skip: 0 })
        }
    }
}

// The turns of all messages behind an operation.
fn next_turns<T: Table>(
    alloc: Global,
    operation: &Operation<Asked>,
    found: &[bool],
    turns: &[Turn],
    offset: i32,
    table: &T,
    people: &mut People,
) -> Result<Vec<Turn>, NoMemory>
    requires { length turns.now ≡ length (T.messages table.now) }
    ensures long { IfOk result (λ next. length next.items ≡ length (T.messages table.now)) }
    ensures next { IfOk result (λ next. spec.AreNext people.old offset (T.messages table.now)
        (operation_map plain_asked operation.now) found.now turns.now next.items
        (length (T.messages table.now))) }
    ensures same { people.new ≡ people.old }
{
    let mut next = Vec::with_capacity(alloc, turns.len())?;
    for place in 0..turns.len() {
        let found = found.get(place).copied().unwrap_or(false);
        let turn = turns[place];
        next.push(next_turn(alloc, operation, found, turn, offset, place, table, people)?)?;
    }
    Ok(next)
}

// Marks, for a message that satisfies a pattern, the place at which those that ask of it look.
fn mark<T: Table>(marked: &mut Vec<bool>, relation: Relation, other: usize, table: &T)
    requires other { other < length (T.messages table.now) }
    requires long { length marked.old.items ≡ length (T.messages table.now) }
    ensures { spec.Marks (T.messages table.now) relation other marked.old.items
        marked.new.items }
{
    match relation {
        Relation::Thread => marked[table.root(other)] = true,
        Relation::Parent => marked[other] = true,
        Relation::Child => {
            if let Some(parent) = table.parent(other) {
                marked[parent] = true;
            }
        }
    }
}

// The places that the messages that satisfy a pattern mark, given which do.
fn marks_of<T: Table>(
    alloc: Global,
    relation: Relation,
    answers: &[bool],
    table: &T,
) -> Result<Vec<bool>, NoMemory>
    requires { length answers.now ≡ length (T.messages table.now) }
    ensures { IfOk result (λ marked. spec.AreMarks (T.messages table.now) relation answers.now
        (length (T.messages table.now)) marked.items) }
{
    let mut marked = vec![in alloc; false; table.len()]?;
    for other in 0..answers.len() {
        if answers[other] {
            mark(&mut marked, relation, other, table);
        }
    }
    Ok(marked)
}

// Whether the place at which a message looks is marked.
fn is_marked<T: Table>(relation: Relation, marked: &[bool], place: usize, table: &T) -> bool
    requires place { place < length (T.messages table.now) }
    requires long { length marked.now ≡ length (T.messages table.now) }
    ensures { result ≡ spec.is_marked (T.messages table.now) relation marked.now place }
{
    match relation {
        Relation::Thread => marked[table.root(place)],
        Relation::Parent => match table.parent(place) {
            Some(parent) => marked[parent],
            None => false,
        },
        Relation::Child => marked[place],
    }
}

// For each message, whether one that is so related to it satisfies a pattern, given which do.
fn all_related<T: Table>(
    alloc: Global,
    relation: Relation,
    answers: &[bool],
    table: &T,
) -> Result<Vec<bool>, NoMemory>
    requires { length answers.now ≡ length (T.messages table.now) }
    ensures { IfOk result (λ found. spec.AreRelated (T.messages table.now) relation answers.now
        (length (T.messages table.now)) found.items) }
{
    let marked = marks_of(alloc, relation, answers, table)?;
    let mut found = Vec::with_capacity(alloc, marked.len())?;
    for place in 0..marked.len() {
        found.push(is_marked(relation, &marked, place, table))?;
    }
    Ok(found)
}

// For each message, what an operation asks of others for it; nothing where it asks none, or where
// all skip it.
#[cycle(all)]
fn all_found<T: Table>(
    alloc: Global,
    operation: &Operation<Asked>,
    rest: &[Operation<Asked>],
    turns: &[Turn],
    offset: i32,
    table: &T,
    people: &mut People,
) -> Result<Vec<bool>, NoMemory>
    requires framed { AreFramed (operation_map plain_asked operation.now
        ∷ asked_operations rest.now) }
    requires long { length turns.now ≡ length (T.messages table.now) }
    ensures found { IfOk result (λ found. spec.AreFound people.old offset
        (T.messages table.now) (operation_map plain_asked operation.now)
        (asked_operations rest.now) turns.now found.items) }
    ensures same { people.new ≡ people.old }
{
    if turns.iter().all(|turn| turn.skip > 0) {
        return Ok(Vec::new(alloc));
    }
    match operation {
        Operation::Others(relation, count) => {
            let answers = all_answers(alloc, front(rest, *count), offset, table, people)?;
            let found = all_related(alloc, *relation, &answers, table)?;
            Ok(found)
        }
        Operation::Ask(Asked::Tells(Mark::Childless)) => {
            let answers = vec![in alloc; true; table.len()]?;
            let found = all_related(alloc, Relation::Child, &answers, table)?;
            Ok(found)
        }
        _ => Ok(Vec::new(alloc)),
    }
}

// Which messages satisfy the pattern of these operations.
#[cycle(all)]
fn all_answers<T: Table>(
    alloc: Global,
    operations: &[Operation<Asked>],
    offset: i32,
    table: &T,
    people: &mut People,
) -> Result<Vec<bool>, NoMemory>
    requires { IsCode (asked_operations operations.now) }
    ensures value { IfOk result (λ answers. answers.items ≡ all_satisfying people.old offset
        (T.messages table.now) (asked_tree operations.now)) }
    ensures same { people.new ≡ people.old }
{
    let start = Turn {
        held: false,
        skip: 0,
    };
    let mut turns = vec![in alloc; start; table.len()]?;
    let mut left = operations;
    while let [first, rest @ ..] = left {
        let found = all_found(alloc, first, rest, &turns, offset, table, people)?;
        turns = next_turns(alloc, first, &found, &turns, offset, table, people)?;
        left = rest;
    }
    let answers = held_of(alloc, &turns)?;
    Ok(answers)
}

// The answers of turns.
fn held_of(alloc: Global, turns: &[Turn]) -> Result<Vec<bool>, NoMemory>
    ensures { IfOk result (λ held. held.items ≡ map (λ turn. turn.held) turns.now) }
{
    let mut held = Vec::with_capacity(alloc, turns.len())?;
    let mut left = turns;
    while let [first, rest @ ..] = left {
        held.push(first.held)?;
        left = rest;
    }
    Ok(held)
}

// Which messages satisfy the pattern, asked one after the other.
fn each_answer<T: Table>(
    alloc: Global,
    pattern: &Pattern,
    table: &T,
    people: &mut People,
) -> Result<Vec<bool>, NoMemory>
    ensures value { IfOk result (λ answers. answers.items ≡ all_satisfying people.old
        pattern.now.offset (T.messages table.now) (pattern_tree pattern.now)) }
    ensures same { people.new ≡ people.old }
{
    let mut answers = Vec::with_capacity(alloc, table.len())?;
    for place in 0..table.len() {
        answers.push(is_matched(alloc, pattern, place, table, people)?)?;
    }
    Ok(answers)
}

/// Which messages of the table satisfy the pattern, in the order of the listing. The time grows by
/// their number alone, whatever the pattern asks of other messages.
pub fn all_matches<T: Table>(
    alloc: Global,
    pattern: &Pattern,
    table: &T,
    people: &mut People,
) -> Result<Vec<bool>, NoMemory>
    ensures value { IfOk result (λ answers. answers.items ≡ all_satisfying people.old
        pattern.now.offset (T.messages table.now) (pattern_tree pattern.now)) }
    ensures same { people.new ≡ people.old }
{
    let operations = pattern.operations.as_slice();
    if operations.iter().any(|operation| {
        matches!(
            operation,
            Operation::Others(..) | Operation::Ask(Asked::Tells(Mark::Childless))
        )
    }) {
        return all_answers(alloc, operations, pattern.offset, table, people);
    }
    each_answer(alloc, pattern, table, people)
}
