//! What muttrc gives for folders, messages and mailboxes.

use mail_base::{Bytes, NoMemory, Series};
use std::alloc::Global;

/// A command, with the place where its hook was given.
#[derive(Drop)]
pub struct HookCommand {
    pub command: Bytes,
    /// The file of commands.
    pub file: Bytes,
    /// The line in it, from 1.
    pub line: u32,
}

/// A list of commands.
pub type HookCommands = Series<HookCommand>;

impl HookCommand {
    ghost use Rattle.std.specs.Prelude.{◌≡◌, IfOk};
    ghost use Rattle.hooks.specs.Hooks.{plain_command};

    /// A copy.
    pub fn copied(&self, alloc: Global) -> Result<HookCommand, NoMemory>
        ensures { IfOk result (λ copy. plain_command copy ≡ plain_command self.now) }
    {
        Ok(HookCommand {
            command: Bytes::copy_of(alloc, self.command.as_slice())?,
            file: Bytes::copy_of(alloc, self.file.as_slice())?,
            line: self.line,
        })
    }
}

/// A hook for messages: its pattern as it is read, and a command or a mailbox.
#[derive(Drop)]
pub struct PatternHook {
    /// It counts where the pattern does not match.
    pub negated: bool,
    pub pattern: Bytes,
    /// The command of a message hook, or the mailbox of a save hook.
    pub command: Bytes,
}

/// A list of hooks for messages.
pub type PatternHooks = Series<PatternHook>;
