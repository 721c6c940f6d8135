//! How Maildirs and MH folders are folders with one file a message, of which a stop may leave some:
//! definitions, and their laws as the contracts of functions that do nothing.
#![tactic(auto)]

mod laws;

pub use laws::{maildirs_are_folders, mh_folders_are_folders};
