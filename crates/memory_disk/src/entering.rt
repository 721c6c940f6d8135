//! How others act, and how the journal grows.

ghost use Rattle.std.specs.Prelude.{◌≡◌, ◌<◌, ◌≤◌, ◌+◌, ◌^◌, ◌++◌, ◌∷◌, [], length, map, IsTrue};
ghost use Rattle.std.specs.Prelude.{OnOk, OnErr, vec_len, vec_capacity};
ghost use Rattle.disk_model.specs.Journal.{Others, Own};
ghost use Rattle.disk_model.specs.State.{after_entry};
ghost use Rattle.memory_disk.specs.Entering.{Acts, IsUnchanged, is_due};
ghost use Rattle.disk_state.specs.Plain.{plain_action, plain_call, plain_entry};
ghost use Rattle.disk_state.specs.Plain.{plain_state};
ghost use Rattle.memory_disk.specs.Plain.{plain_planned, plain_scene};
ghost use Rattle.memory_disk.specs.Plan.{due};
ghost use Rattle.disk_state.specs.Plain.{answer_by_refusal};

use crate::Foreign;
use disk_model::DiskError;
use disk_state::{Action, Call, Entry, State};
use mail_base::NoMemory;
use std::alloc::Global;
use std::mem;

/// Lets others act who are due at a call. For want of memory some of them may have acted.
pub(crate) fn act(
    alloc: Global,
    state: &mut State,
    waiting: &mut Vec<Action>,
    plan: &mut Vec<Foreign>,
    call: u64,
) -> Result<(), NoMemory>
    requires { (plain_state state.old).clock + length plan.old.items < 2 ^ 127 }
    ensures acts { Acts call (plain_scene state.old waiting.old plan.old)
        (plain_scene state.new waiting.new plan.new) }
    ensures all { OnOk result (due call (map plain_planned plan.new.items) ≡ []) }
{
    while is_due(plan.as_slice(), call) {
        waiting.reserve(1)?;
        state.follow_others(alloc, &plan[0].action)?;
        let foreign = plan.remove(0);
        waiting.push_reserved(foreign.action);
    }
    Ok(())
}

fn is_due(plan: &[Foreign], call: u64) -> bool
    ensures due { result ≡ is_due call (map plain_planned plan.now) }
    ensures some { IsTrue result → 0 < length plan.now }
{
    match plan.first() {
        Some(foreign) => foreign.before_call <= call,
        None => false,
    }
}

/// Makes the entries of those who have acted, and of a call that was refused so, or not.
pub(crate) fn enter(
    alloc: Global,
    state: &mut State,
    waiting: &mut Vec<Action>,
    journal: &mut Vec<Entry>,
    call: Call,
    refused: Option<DiskError>,
) -> Result<(), NoMemory>
    requires { (plain_state state.old).clock < 2 ^ 127 }
    ensures state { OnOk result (plain_state state.new
        ≡ after_entry (plain_state state.old) (Own (plain_call call) (answer_by_refusal refused))) }
    ensures journal { OnOk result (map plain_entry journal.new.items ≡ map plain_entry
        journal.old.items
        ++ (map Others (map plain_action waiting.old.items)
        ++ Own (plain_call call) (answer_by_refusal refused) ∷ [])) }
    ensures waiting { OnOk result (waiting.new.items ≡ []) }
    ensures err { OnErr result (IsUnchanged (plain_state state.old) waiting.old.items
        journal.old.items
        (plain_state state.new) waiting.new.items journal.new.items) }
{
    journal.reserve(waiting.len() + 1)?;
    if refused.is_none() {
        state.follow(alloc, &call)?;
    }
    let acted = mem::replace(waiting, Vec::new(alloc));
    enter_actions(journal, acted);
    journal.push_reserved(Entry::Own(call, refused));
    Ok(())
}

fn enter_actions(journal: &mut Vec<Entry>, actions: Vec<Action>)
    requires { vec_len journal.old + vec_len actions ≤ vec_capacity journal.old }
    ensures entries { map plain_entry journal.new.items
        ≡ map plain_entry journal.old.items ++ map Others (map plain_action actions.items) }
    ensures room { vec_capacity journal.new ≡ vec_capacity journal.old }
    ensures length { vec_len journal.new ≡ vec_len journal.old + vec_len actions }
{
    for action in actions {
        journal.push_reserved(Entry::Others(action));
    }
}
