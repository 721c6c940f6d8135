//! What of the index hangs on no flag, no mark of deletion and no tag that an act can change.

ghost use Rattle.std.specs.Prelude.{◌≡◌, true};
ghost use Rattle.std.specs.List.{list_all};
ghost use Rattle.index_view.specs.View.{facts_of};
ghost use Rattle.patterns_match.specs.Asked.{asked_operations, plain_asked};
ghost use Rattle.patterns_match.specs.Leaves.{passes};
ghost use Rattle.patterns_match.specs.Operations.{operation_map};
ghost use Rattle.patterns_match.specs.Pattern.{pattern_tree};
ghost use Rattle.patterns_match.specs.ScoreEntries.{held_entries};
ghost use Rattle.index_view.specs.Staying as spec;
ghost use Rattle.session_index.specs.Touched.{plain_touched};

use crate::touched::{EVERYTHING, Touched};
use index_items::Act;
use index_view::View;
use patterns_match::{Asked, Mark, Operation, Pattern, ScoreEntry};

fn mark_stays(touched: Touched, mark: Mark) -> bool
    ensures { result ≡ spec.mark_stays (plain_touched touched) mark }
{
    match mark {
        Mark::Deleted => !touched.deleted,
        Mark::Tagged => !touched.tagged,
        Mark::Flagged | Mark::New | Mark::Old => !touched.flags,
        Mark::Replied | Mark::Read | Mark::Unread => !touched.flags,
        _ => true,
    }
}

fn step_stays(touched: Touched, operation: &Operation<Asked>) -> bool
    ensures { result ≡ passes (spec.leaf_stays (plain_touched touched)) true
        (operation_map plain_asked operation.now) }
{
    match operation {
        Operation::Ask(Asked::Tells(mark)) => mark_stays(touched, *mark),
        _ => true,
    }
}

fn all_stay(touched: Touched, operations: &[Operation<Asked>]) -> bool
    ensures { result ≡ list_all (passes (spec.leaf_stays (plain_touched touched)) true)
        (asked_operations operations.now) }
{
    let mut left = operations;
    while let [first, rest @ ..] = left {
        if !step_stays(touched, first) {
            return false;
        }
        left = rest;
    }
    true
}

fn stays(touched: Touched, pattern: &Pattern) -> bool
    ensures { result ≡ spec.stays (plain_touched touched) (pattern_tree pattern.now) }
{
    all_stay(touched, pattern.operations.as_slice())
}

/// Whether no entry of scores looks at flags, marks of deletion and tags.
pub fn entries_stay(entries: &[ScoreEntry]) -> bool
    ensures { result ≡ spec.entries_stay (held_entries entries.now) }
{
    let mut left = entries;
    while let [first, rest @ ..] = left {
        if !stays(EVERYTHING, &first.pattern) {
            return false;
        }
        left = rest;
    }
    true
}

/// Whether an act changes nothing of what is seen, and not its order.
pub fn is_still(view: &View, act: Act) -> bool
    ensures { result ≡ spec.is_still (spec.touched act) (facts_of view.now) }
{
    match view.limit() {
        None => entries_stay(view.scores()),
        Some(pattern) => entries_stay(view.scores()) && stays(Touched::by(act), pattern),
    }
}
