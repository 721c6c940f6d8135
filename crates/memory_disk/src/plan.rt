//! What others have still to do, in the order in which they will.

ghost use Rattle.std.specs.Prelude.{◌≡◌, ◌≤◌, length, map, IfOk, OnOk};
ghost use Rattle.memory_disk.specs.Plan.{in_order, place_before, planned};
ghost use Rattle.disk_state.specs.Plain.{plain_action};
ghost use Rattle.memory_disk.specs.Plain.{plain_planned};

use crate::Foreign;
use disk_state::Action;
use mail_base::{Bytes, NoMemory};
use std::alloc::Global;

/// The actions of a script by the calls that they stand before.
pub(crate) fn plan_of(alloc: Global, script: &[Foreign]) -> Result<Vec<Foreign>, NoMemory>
    ensures { IfOk result (λ plan. map plain_planned plan.items
        ≡ in_order (map plain_planned script.now)) }
{
    let mut plan = Vec::new(alloc);
    let mut left = script;
    while let [foreign, rest @ ..] = left {
        let copy = Foreign {
            before_call: foreign.before_call,
            action: copy_of(alloc, &foreign.action)?,
        };
        put(&mut plan, copy)?;
        left = rest;
    }
    Ok(plan)
}

/// Puts an action behind those that stand before the same call or an earlier one.
fn put(plan: &mut Vec<Foreign>, foreign: Foreign) -> Result<(), NoMemory>
    ensures { OnOk result (map plain_planned plan.new.items
        ≡ planned (plain_planned foreign) (map plain_planned plan.old.items)) }
{
    let place = place_in(plan.as_slice(), foreign.before_call);
    plan.insert(place, foreign)?;
    Ok(())
}

/// The place behind the actions that stand before that call or an earlier one.
fn place_in(plan: &[Foreign], before_call: u64) -> usize
    ensures place { result ≡ place_before before_call (map plain_planned plan.now) }
    ensures within { result ≤ length plan.now }
{
    let mut place = 0;
    let mut left = plan;
    while let [planned, rest @ ..] = left {
        if planned.before_call > before_call {
            return place;
        }
        place += 1;
        left = rest;
    }
    place
}

fn copy_of(alloc: Global, action: &Action) -> Result<Action, NoMemory>
    ensures { IfOk result (λ copy. plain_action copy ≡ plain_action action.now) }
{
    match action {
        Action::Append { path, bytes } => Ok(Action::Append {
            path: Bytes::copy_of(alloc, path.as_slice())?,
            bytes: Bytes::copy_of(alloc, bytes.as_slice())?,
        }),
        Action::Put { path, bytes } => Ok(Action::Put {
            path: Bytes::copy_of(alloc, path.as_slice())?,
            bytes: Bytes::copy_of(alloc, bytes.as_slice())?,
        }),
        Action::Rename { from, to } => Ok(Action::Rename {
            from: Bytes::copy_of(alloc, from.as_slice())?,
            to: Bytes::copy_of(alloc, to.as_slice())?,
        }),
        Action::Remove { path } => Ok(Action::Remove {
            path: Bytes::copy_of(alloc, path.as_slice())?,
        }),
        Action::Write { path, bytes } => Ok(Action::Write {
            path: Bytes::copy_of(alloc, path.as_slice())?,
            bytes: Bytes::copy_of(alloc, bytes.as_slice())?,
        }),
    }
}
