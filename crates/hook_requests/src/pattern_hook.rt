//! `message-hook` and `save-hook`.

ghost use Rattle.std.specs.Prelude.{◌≡◌, OnOk, OnErr};
ghost use Rattle.hook_requests.specs.HookWords.{plain_hook_words};
ghost use Rattle.hook_requests.specs.PatternHooks as spec;

use crate::hook_words::HookWords;
use hooks::Hooks;
use mail_base::{Bytes, NoMemory};
use std::alloc::Global;

/// A list of hooks for messages.
#[derive(Clone, Copy, Debug, PartialEq, Eq)]
pub enum HookTable {
    /// Commands for messages that are shown.
    Messages,
    /// Mailboxes for messages that are saved.
    Saves,
}

/// Adds the hook of a pattern to a list. The pattern is not looked at.
pub fn add_pattern_hook(
    alloc: Global,
    hooks: &mut Hooks,
    table: HookTable,
    hook: HookWords<'_>,
    pattern: Bytes,
) -> Result<(), NoMemory>
    ensures ok { OnOk result (hooks.new
        ≡ spec.with_pattern table (plain_hook_words hook.entry) pattern.items hooks.old) }
    ensures err { OnErr result (hooks.new ≡ hooks.old) }
{
    let command = hook.command(alloc)?;
    match table {
        HookTable::Messages => hooks.add_message(hook.negated, pattern, command),
        HookTable::Saves => hooks.add_save(hook.negated, pattern, command),
    }
}
