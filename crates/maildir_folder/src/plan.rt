//! What a sync is to do: a step for each change, all found before one of them is taken.

ghost use Rattle.std.specs.Prelude.{◌≡◌, ◌++◌, ◌∷◌, ◌<◌, [], IfErr, IfOk, OnOk, None, length, map};
ghost use Rattle.std.specs.Prelude.{option_map};
ghost use Rattle.std.specs.List.{All};
ghost use Rattle.std.specs.String.{string_bytes};
ghost use Rattle.folder_core.specs.Keeping.{mail_of};
ghost use Rattle.folder_letters.specs.Letters.{plain_letter};
ghost use Rattle.index_items.specs.Changes.{AreBelow, plain_change, plain_changes};
ghost use Rattle.maildir_folder.specs.Candidates.{IsCandidate, Rises, plain_file};
ghost use Rattle.folder_changes.specs.Asked.{ids_changed};
ghost use Rattle.maildir_folder.specs.Plan as spec;
ghost use Rattle.maildir_folder.specs.Steps.{AreSteps, GoesTo, IsStep, IsStepOf, plain_step};

use crate::candidates::Candidate;
use crate::named_file::find_file;
use crate::renaming::renamed;
use crate::steps::Step;
use crate::walk::file_path;
use folder_core::Letter;
use folder_letters::{Change, Changed1};
use mail_base::{Id, NoMemory};
use maildir_names::order_of;
use std::alloc::Global;

/// Why the steps of a sync were not found.
#[derive(Clone, Copy)]
pub enum PlanError {
    /// No file of the message with this id is there.
    Gone(Id),
    /// Memory ran out.
    NoMemory,
}

// The path to which the file of a message goes that is to change so, where it does not go away.
fn new_path(
    alloc: Global,
    path: &str,
    file: &Candidate,
    change: Change,
) -> Result<Option<String>, NoMemory>
    requires { IsCandidate file.now }
    ensures { IfOk result (λ to. GoesTo path.now (plain_file file.now) (plain_change change)
        (option_map string_bytes to)) }
{
    match change {
        Change::Alter(delta) => {
            let target = renamed(alloc, file, delta)?;
            Ok(Some(file_path(alloc, path, &target)?))
        }
        Change::Discard => Ok(None),
    }
}

// The step of a file whose message is to change so.
fn step_of(alloc: Global, path: &str, file: &Candidate, change: Change) -> Result<Step, NoMemory>
    requires { IsCandidate file.now }
    ensures { IfOk result (λ step. IsStep path.now (plain_file file.now) (plain_change change)
        (plain_step step)) }
{
    let from = file_path(alloc, path, file)?;
    let to = new_path(alloc, path, file, change)?;
    Ok(Step { from, to })
}

// The step of a change.
fn step_for(
    alloc: Global,
    path: &str,
    files: &[Candidate],
    archive: &[Letter],
    changed: Changed1,
) -> Result<Step, PlanError>
    requires each { All IsCandidate files.now }
    requires rises { Rises None (map plain_file files.now) }
    requires within { changed.id.0 < length archive.now }
    ensures step { IfOk result (λ step. IsStepOf path.now
        (mail_of (map plain_letter archive.now) changed.id.0).key (plain_change changed.change)
        (plain_step step)) }
    ensures gone { IfErr result (spec.IsPlanRefusal (map plain_file files.now)
        (map plain_letter archive.now) (changed.id ∷ [])) }
{
    let key = archive[changed.id.0 as usize].key.as_slice();
    match find_file(files, order_of(key), key) {
        Some(file) => match step_of(alloc, path, file, changed.change) {
            Ok(step) => Ok(step),
            Err(NoMemory) => Err(PlanError::NoMemory),
        },
        None => Err(PlanError::Gone(changed.id)),
    }
}

fn push_step(steps: &mut Vec<Step>, step: Step) -> Result<(), NoMemory>
    ensures { OnOk result (steps.new.items ≡ steps.old.items ++ step ∷ []) }
{
    steps.push(step)?;
    Ok(())
}

// Adds the step of a change.
fn add_step(
    alloc: Global,
    path: &str,
    files: &[Candidate],
    archive: &[Letter],
    changed: Changed1,
    steps: &mut Vec<Step>,
) -> Result<(), PlanError>
    requires each { All IsCandidate files.now }
    requires rises { Rises None (map plain_file files.now) }
    requires within { changed.id.0 < length archive.now }
    ensures step { OnOk result (spec.AddsStep path.now
        (mail_of (map plain_letter archive.now) changed.id.0).key (plain_change changed.change)
        (map plain_step steps.old.items) (map plain_step steps.new.items)) }
    ensures gone { IfErr result (spec.IsPlanRefusal (map plain_file files.now)
        (map plain_letter archive.now) (changed.id ∷ [])) }
{
    match step_for(alloc, path, files, archive, changed) {
        Ok(step) => match push_step(steps, step) {
            Ok(()) => Ok(()),
            Err(NoMemory) => Err(PlanError::NoMemory),
        },
        Err(why) => Err(why),
    }
}

/// A step for each of these changes, in their order.
pub fn plan(
    alloc: Global,
    path: &str,
    files: &[Candidate],
    archive: &[Letter],
    changes: &[Changed1],
) -> Result<Vec<Step>, PlanError>
    requires each { All IsCandidate files.now }
    requires rises { Rises None (map plain_file files.now) }
    requires within { AreBelow (length archive.now) changes.now }
    ensures steps { IfOk result (λ steps. AreSteps path.now (map plain_letter archive.now)
        (plain_changes changes.now) (map plain_step steps.items)) }
    ensures gone { IfErr result (spec.IsPlanRefusal (map plain_file files.now)
        (map plain_letter archive.now) (ids_changed changes.now)) }
{
    let mut steps = Vec::new(alloc);
    let mut left = changes;
    while let [changed, rest @ ..] = left {
        match add_step(alloc, path, files, archive, *changed, &mut steps) {
            Ok(()) => {}
            Err(why) => return Err(why),
        }
        left = rest;
    }
    Ok(steps)
}
