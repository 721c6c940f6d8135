//! Cases of hooks.

use case_files::{Answer, Case, CaseFault, Entry, Subject};
use hooks::{HookCommand, HookCommands, Hooks, PatternHook};
use mail_base::{Bytes, Names, NoMemory};
use people::{Expr, ExprError, RegexBuild, Verdicts};
use std::alloc::Global;

/// `folder EXPR` adds a command for folders in whose path the expression is found, and `folder_not
/// EXPR` for the others; `message` and `save`, with `_not` or without, likewise by a pattern. `for
/// PATH` are the commands of a folder, `messages` and `saves` what was added, each a line.
pub struct HookCalls;

impl Subject for HookCalls {
    fn inputs(&self) -> &[&[u8]] {
        &[
            b"folder",
            b"folder_not",
            b"message",
            b"message_not",
            b"save",
            b"save_not",
        ]
    }

    fn answer(&self, alloc: Global, case: &Case, answer: &mut Answer) -> Result<(), CaseFault> {
        let builder = Box::new(alloc, RegexBuild::new(Names::new(alloc)))?;
        let mut verdicts = Verdicts::new(alloc, builder);
        let mut hooks = Hooks::new(alloc);
        for entry in case.entries.as_slice() {
            match step_named(entry.role()) {
                Some(Step::Folder(negated)) => {
                    let expr = Expr::read(alloc, entry.about(), &mut verdicts);
                    add_folder(alloc, &mut hooks, negated, expr, entry)?;
                }
                Some(step) => play(alloc, answer, &mut hooks, step, entry)?,
                None => {}
            }
        }
        Ok(())
    }
}

fn add_folder(
    alloc: Global,
    hooks: &mut Hooks,
    negated: bool,
    expr: Result<Expr, ExprError>,
    entry: &Entry,
) -> Result<(), CaseFault> {
    match expr {
        Ok(expr) => {
            hooks.add_folder(negated, expr, command_of(alloc, entry)?)?;
            Ok(())
        }
        Err(ExprError::NoMemory) => Err(CaseFault::NoMemory),
        Err(_) => Err(CaseFault::BadInput),
    }
}

fn command_of(alloc: Global, entry: &Entry) -> Result<HookCommand, NoMemory> {
    Ok(HookCommand {
        command: Bytes::copy_of(alloc, entry.value.as_slice())?,
        file: Bytes::new(alloc),
        line: 1,
    })
}

// What an entry asks of the hooks; a hook may be negated.
#[derive(Clone, Copy)]
enum Step {
    Folder(bool),
    Message(bool),
    Save(bool),
    For,
    Messages,
    Saves,
}

fn step_named(name: &[u8]) -> Option<Step> {
    match name {
        b"folder" => Some(Step::Folder(false)),
        b"folder_not" => Some(Step::Folder(true)),
        b"message" => Some(Step::Message(false)),
        b"message_not" => Some(Step::Message(true)),
        b"save" => Some(Step::Save(false)),
        b"save_not" => Some(Step::Save(true)),
        b"for" => Some(Step::For),
        b"messages" => Some(Step::Messages),
        b"saves" => Some(Step::Saves),
        _ => None,
    }
}

// Adds a hook, or answers a question.
fn play(
    alloc: Global,
    answer: &mut Answer,
    hooks: &mut Hooks,
    step: Step,
    entry: &Entry,
) -> Result<(), CaseFault> {
    let key = entry.key.as_slice();
    match step {
        Step::Message(negated) => add_message(alloc, hooks, negated, entry),
        Step::Save(negated) => add_save(alloc, hooks, negated, entry),
        Step::For => put_commands_of(alloc, answer, hooks, entry),
        Step::Messages => put_hooks(alloc, answer, key, hooks.message_hooks().as_slice()),
        Step::Saves => put_hooks(alloc, answer, key, hooks.save_hooks().as_slice()),
        Step::Folder(_) => Ok(()),
    }
}

fn add_message(
    alloc: Global,
    hooks: &mut Hooks,
    negated: bool,
    entry: &Entry,
) -> Result<(), CaseFault> {
    let pattern = about(alloc, entry)?;
    Ok(hooks.add_message(negated, pattern, value(alloc, entry)?)?)
}

fn add_save(
    alloc: Global,
    hooks: &mut Hooks,
    negated: bool,
    entry: &Entry,
) -> Result<(), CaseFault> {
    let pattern = about(alloc, entry)?;
    Ok(hooks.add_save(negated, pattern, value(alloc, entry)?)?)
}

fn put_commands_of(
    alloc: Global,
    answer: &mut Answer,
    hooks: &mut Hooks,
    entry: &Entry,
) -> Result<(), CaseFault> {
    let commands = hooks.for_folder(alloc, entry.about())?;
    put_commands(alloc, answer, entry.key.as_slice(), &commands)
}

fn about(alloc: Global, entry: &Entry) -> Result<Bytes, NoMemory> {
    Bytes::copy_of(alloc, entry.about())
}

fn value(alloc: Global, entry: &Entry) -> Result<Bytes, NoMemory> {
    Bytes::copy_of(alloc, entry.value.as_slice())
}

fn put_commands(
    alloc: Global,
    answer: &mut Answer,
    key: &[u8],
    commands: &HookCommands,
) -> Result<(), CaseFault> {
    let mut text = Bytes::new(alloc);
    append_commands(&mut text, commands)?;
    answer.put(key, text.as_slice())
}

fn append_commands(text: &mut Bytes, commands: &HookCommands) -> Result<(), NoMemory> {
    for command in commands.as_slice() {
        text.append(command.command.as_slice())?;
        text.push(b'\n')?;
    }
    Ok(())
}

fn put_hooks(
    alloc: Global,
    answer: &mut Answer,
    key: &[u8],
    hooks: &[PatternHook],
) -> Result<(), CaseFault> {
    let mut text = Bytes::new(alloc);
    append_hooks(&mut text, hooks)?;
    answer.put(key, text.as_slice())
}

fn append_hooks(text: &mut Bytes, hooks: &[PatternHook]) -> Result<(), NoMemory> {
    for hook in hooks {
        if hook.negated {
            text.append(b"! ")?;
        }
        text.append(hook.pattern.as_slice())?;
        text.append(b": ")?;
        text.append(hook.command.as_slice())?;
        text.push(b'\n')?;
    }
    Ok(())
}
