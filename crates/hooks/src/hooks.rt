//! All hooks of a muttrc.

ghost use Rattle.std.specs.Prelude.{◌≡◌, ◌++◌, map, OnOk};
ghost use Rattle.hooks.specs.Fields.{plain_folder_hook};
ghost use Rattle.hooks.specs.Hooks as spec;
ghost use Rattle.hooks.specs.Hooks.{plain_command};

use crate::command::{HookCommand, HookCommands, PatternHook, PatternHooks};
use mail_base::{Bytes, NoMemory};
use people::Expr;
use std::alloc::Global;
use std::marker::Model;

// A command for the folders in whose paths the expression is found, or for the others.
#[derive(Drop)]
struct FolderHook {
    negated: bool,
    expr: Expr,
    command: HookCommand,
}

/// The hooks that muttrc gives for folders, for messages that are shown, and for those that are
/// saved (Mutt's manual, "folder-hook", "message-hook", "save-hook").
#[derive(Drop)]
pub struct Hooks {
    folders: Vec<FolderHook>,
    messages: PatternHooks,
    saves: PatternHooks,
}

impl Model for Hooks {
    ghost use Rattle.std.specs.Prelude.{map};
    ghost use Rattle.hooks.specs.Fields.{plain_folder_hook};
    ghost use Rattle.hooks.specs.Hooks.{PlainHooks, plain_pattern_hook};

    ghost Value = { PlainHooks };

    ghost view = { λ h. record {
      folders = map plain_folder_hook h.folders.items;
      messages = map plain_pattern_hook h.messages.items;
      saves = map plain_pattern_hook h.saves.items;
    } };
}

impl FolderHook {
    ghost use Rattle.std.specs.Prelude.{◌≡◌, IfOk};
    ghost use Rattle.hooks.specs.Fields.{plain_folder_hook};
    ghost use Rattle.hooks.specs.Hooks as spec;

    // Whether it counts for the folder at a path.
    fn counts(&self, path: &[u8]) -> Result<bool, NoMemory>
        ensures { IfOk result
            (λ counts. counts ≡ spec.counts path.now (plain_folder_hook self.now)) }
    {
        let found = self.expr.search(path)?;
        Ok(found != self.negated)
    }
}

// Adds the commands that count for a folder.
fn add_commands(
    alloc: Global,
    commands: &mut HookCommands,
    hooks: &[FolderHook],
    path: &[u8],
) -> Result<(), NoMemory>
    ensures { OnOk result (map plain_command commands.new.items
        ≡ map plain_command commands.old.items
        ++ spec.commands_for path.now (map plain_folder_hook hooks.now)) }
{
    let mut left = hooks;
    while let [first, rest @ ..] = left {
        if first.counts(path)? {
            commands.push(first.command.copied(alloc)?)?;
        }
        left = rest;
    }
    Ok(())
}

impl Hooks {
    ghost use Rattle.std.specs.Prelude.{◌≡◌, map, IfOk, OnOk, OnErr};
    ghost use Rattle.hooks.specs.Hooks as spec;
    ghost use Rattle.hooks.specs.Hooks.{plain_command, plain_pattern_hook};

    /// No hooks.
    pub fn new(alloc: Global) -> Hooks
        ensures { result ≡ spec.no_hooks }
    {
        Hooks {
            folders: Vec::new(alloc),
            messages: PatternHooks::new(alloc),
            saves: PatternHooks::new(alloc),
        }
    }

    /// Adds a command for the folders in whose paths the expression is found, or where `negated`
    /// for those in whose paths it is not.
    pub fn add_folder(
        &mut self,
        negated: bool,
        expr: Expr,
        command: HookCommand,
    ) -> Result<(), NoMemory>
        ensures ok { OnOk result (self.new
            ≡ spec.with_folder (spec.folder_hook negated expr (plain_command command)) self.old) }
        ensures err { OnErr result (self.new ≡ self.old) }
    {
        self.folders.push(FolderHook {
            negated,
            expr,
            command,
        })?;
        Ok(())
    }

    /// Adds a command for messages that are shown. The pattern is not looked at.
    pub fn add_message(
        &mut self,
        negated: bool,
        pattern: Bytes,
        command: Bytes,
    ) -> Result<(), NoMemory>
        ensures ok { OnOk result (self.new ≡ spec.with_message
            (spec.pattern_hook negated pattern.items command.items) self.old) }
        ensures err { OnErr result (self.new ≡ self.old) }
    {
        self.messages.push(PatternHook {
            negated,
            pattern,
            command,
        })
    }

    /// Adds a mailbox for messages that are saved. The pattern is not looked at.
    pub fn add_save(
        &mut self,
        negated: bool,
        pattern: Bytes,
        mailbox: Bytes,
    ) -> Result<(), NoMemory>
        ensures ok { OnOk result (self.new ≡ spec.with_save
            (spec.pattern_hook negated pattern.items mailbox.items) self.old) }
        ensures err { OnErr result (self.new ≡ self.old) }
    {
        self.saves.push(PatternHook {
            negated,
            pattern,
            command: mailbox,
        })
    }

    /// Copies of the commands that count for the folder at a path, in the order in which they were
    /// added.
    pub fn for_folder(&mut self, alloc: Global, path: &[u8]) -> Result<HookCommands, NoMemory>
        ensures commands { IfOk result (λ commands. map plain_command commands.items
            ≡ spec.commands_for path.now self.old.folders) }
        ensures same { self.new ≡ self.old }
    {
        let mut commands = HookCommands::new(alloc);
        add_commands(alloc, &mut commands, self.folders.as_slice(), path)?;
        Ok(commands)
    }

    /// The hooks for messages that are shown, in the order in which they were added.
    pub fn message_hooks(&self) -> &PatternHooks
        ensures { map plain_pattern_hook result.now.items ≡ self.now.messages }
    {
        &self.messages
    }

    /// The hooks for messages that are saved, in the order in which they were added.
    pub fn save_hooks(&self) -> &PatternHooks
        ensures { map plain_pattern_hook result.now.items ≡ self.now.saves }
    {
        &self.saves
    }
}
