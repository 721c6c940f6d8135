//! `folder-hook`.

ghost use Rattle.std.specs.Prelude.{◌≡◌, List, IfOk, OnOk, OnErr};
ghost use Rattle.hooks.specs.Hooks.{folder_hook, plain_command, with_folder};
ghost use Rattle.patterns.specs.Causes.{Keeps};
ghost use Rattle.people.specs.Judged.{PlainJudged};
ghost use Rattle.rc_lang.specs.Settings.{Answers, plain_names};
ghost use Rattle.hook_requests.specs.HookWords.{hook_words, plain_hook_words};
ghost use Rattle.hook_requests.specs.Places.{plain_place};
ghost use Rattle.session_state.specs.Exprs.{IsLent};
ghost use Rattle.session_state.specs.FolderHooks as spec;

use crate::expr::read_expr;
use hook_requests::{CommandPlace, HookWords};
use hooks::{HookCommand, Hooks};
use mail_base::{Bytes, NoMemory};
use people::{Expr, Verdicts};
use rc_lang::RcError;
use std::alloc::Global;

// The command of a hook, which keeps the place where it was given.
fn command_of(
    alloc: Global,
    place: CommandPlace<'_>,
    hook: HookWords<'_>,
) -> Result<HookCommand, NoMemory>
    ensures { IfOk result (λ command. plain_command command
        ≡ spec.command_of (plain_place place.entry) (plain_hook_words hook.entry)) }
{
    Ok(HookCommand {
        command: hook.command(alloc)?,
        file: Bytes::copy_of(alloc, place.file)?,
        line: place.line,
    })
}

// Adds the hook of an expression.
fn push_hook(
    alloc: Global,
    hooks: &mut Hooks,
    place: CommandPlace<'_>,
    hook: HookWords<'_>,
    expr: Expr,
) -> Result<(), NoMemory>
    ensures ok { OnOk result (hooks.new ≡ with_folder (folder_hook hook.entry.negated expr
        (spec.command_of (plain_place place.entry) (plain_hook_words hook.entry))) hooks.old) }
    ensures err { OnErr result (hooks.new ≡ hooks.old) }
{
    let command = command_of(alloc, place, hook)?;
    hooks.add_folder(hook.negated, expr, command)
}

/// Adds the hook that the words behind `folder-hook` give at a place.
pub fn add_folder_hook(
    alloc: Global,
    hooks: &mut Hooks,
    place: CommandPlace<'_>,
    words: &[Bytes],
    verdicts: &mut Verdicts,
) -> Result<(), RcError>
    requires { IsLent verdicts.old.kept }
    ensures keeps { Keeps verdicts.old.kept verdicts.new.kept }
    ensures value { (later : List PlainJudged) → Keeps verdicts.new.kept later
        → Answers (λ _. hooks.new) result (spec.with_folder_hook later (plain_place place.entry)
        (hook_words (plain_names words.now)) hooks.old) }
    ensures err { OnErr result (hooks.new ≡ hooks.old) }
{
    let hook = HookWords::read(words);
    let expr = read_expr(alloc, hook.text, hook.word, verdicts)?;
    match push_hook(alloc, hooks, place, hook, expr) {
        Ok(()) => Ok(()),
        Err(NoMemory) => Err(RcError::no_memory(alloc)),
    }
}
