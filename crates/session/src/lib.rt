//! A session: files of commands are read, a folder is opened, and keys act, each with its event.
//! `Session::start` comes first, then `pushed`, and for each key `check` and `key`; `screen` gives
//! the screen. `Session::answers` reads the files alone.
//!
//! What keys do to a `Core`, each function and each answer to a prompt by its definition, stands
//! under `turn`, `acting` and `answers`; `screen` shows it.
#![tactic(auto)]

mod acting;
mod answers;
mod beginning;
mod checking;
mod core_state;
mod learning;
mod opening;
mod paging;
mod pressing;
mod screen;
mod session_type;
mod showing;
mod source;
mod syncing;
mod turn;

pub use session_type::Session;
