//! Hooks: commands that muttrc gives for folders, messages and mailboxes.
//! Add them by `Hooks::add_folder`, `add_message` and `add_save`; `Hooks::for_folder` gives the
//! commands of a folder.
#![tactic(auto)]

mod command;
mod hooks;

pub use command::{HookCommand, HookCommands, PatternHook, PatternHooks};
pub use hooks::Hooks;
