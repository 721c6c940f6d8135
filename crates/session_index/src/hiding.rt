//! Where acts on messages change of what is seen at most whether each of these messages is.

ghost use Rattle.std.specs.Prelude.{◌≡◌, ◌&&◌, false, nat_eq};
ghost use Rattle.std.specs.List.{IsDistinct, list_all};
ghost use Rattle.index_listed.specs.Places.{numbers};
ghost use Rattle.index_view.specs.Answers.{is_open};
ghost use Rattle.index_view.specs.View.{facts_of};
ghost use Rattle.patterns_match.specs.Asked.{asked_operations, plain_asked};
ghost use Rattle.patterns_match.specs.Leaves.{passes};
ghost use Rattle.patterns_match.specs.Operations.{operation_map};
ghost use Rattle.patterns_match.specs.Pattern.{pattern_tree};
ghost use Rattle.session_index.specs.Hiding as spec;
ghost use Rattle.session_index.specs.Shown.{seen};

use crate::staying::entries_stay;
use index_view::View;
use mail_base::Id;
use patterns_match::{Asked, Operation, Pattern};

fn asks_no_other(operation: &Operation<Asked>) -> bool
    ensures { result ≡ passes spec.any_leaf false (operation_map plain_asked operation.now) }
{
    match operation {
        Operation::Others(_, _) | Operation::Related(_) => false,
        _ => true,
    }
}

fn ask_no_other(operations: &[Operation<Asked>]) -> bool
    ensures { result ≡ list_all (passes spec.any_leaf false) (asked_operations operations.now) }
{
    let mut left = operations;
    while let [first, rest @ ..] = left {
        if !asks_no_other(first) {
            return false;
        }
        left = rest;
    }
    true
}

// A pattern of no other messages.
fn is_alone(pattern: &Pattern) -> bool
    ensures { result ≡ spec.is_alone (pattern_tree pattern.now) }
{
    ask_no_other(pattern.operations.as_slice())
}

fn is_open(view: &View, id: Id) -> bool
    ensures { result ≡ is_open view.now.answers id }
{
    match view.row(id) {
        Some(row) => !row.collapsed,
        None => false,
    }
}

// All these messages are listed, and stand in threads that are not shut.
fn are_open(view: &View, ids: &[Id]) -> bool
    ensures { result ≡ list_all (is_open view.now.answers) ids.now }
{
    let mut left = ids;
    while let [first, rest @ ..] = left {
        if !is_open(view, *first) {
            return false;
        }
        left = rest;
    }
    true
}

// Ids stand among others, in the same order.
fn is_part(ids: &[Id], all: &[Id]) -> bool
    ensures { result ≡ spec.is_part ids.now all.now }
{
    let mut wanted = ids;
    let mut left = all;
    while let [id, others @ ..] = wanted {
        let [first, rest @ ..] = left else {
            return false;
        };
        if *id == *first {
            wanted = others;
        }
        left = rest;
    }
    true
}

// What is seen hangs on no flag but by the limit, and by that on those of no other message.
fn looks_alone(view: &View) -> bool
    ensures { result ≡ spec.looks_alone (facts_of view.now) }
{
    match view.limit() {
        None => entries_stay(view.scores()),
        Some(pattern) => entries_stay(view.scores()) && is_alone(pattern),
    }
}

// All messages of the index, in order, of which no two have one id.
fn ordered_ids(view: &View) -> &[Id]
    ensures order { result.now ≡ view.now.answers.sight.order }
    ensures apart { IsDistinct nat_eq (numbers result.now) }
{
    view.ordered().as_slice()
}

// These messages are seen, and those of the order stand in threads that are not shut.
fn are_part_of_open(view: &View, order: &[Id], ids: &[Id]) -> bool
    ensures { result ≡ list_all (is_open view.now.answers) order.now
        && spec.is_part ids.now (seen view.now.answers) }
{
    are_open(view, order) && is_part(ids, view.visible().as_slice())
}

/// Whether acts on these messages, which have to be seen, can hide each of them, and do no more to
/// what is seen. The ids of an index differ.
pub fn hide_alone(view: &View, ids: &[Id]) -> bool
    ensures value { result ≡ spec.hide_alone (facts_of view.now) view.now.answers ids.now }
    ensures apart { IsDistinct nat_eq (numbers view.now.answers.sight.order) }
{
    let order = ordered_ids(view);
    looks_alone(view) && are_part_of_open(view, order, ids)
}
