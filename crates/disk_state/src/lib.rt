//! The state that a journal leaves, kept up to date: `First` is a first tree and gives the state
//! that a journal begins with, and `State` follows the journal entry by entry. It tells why a call
//! is refused, what a call gives that looks, and what a stop may leave.
#![tactic(auto)]

mod action;
mod bytes;
mod call;
mod file;
mod first;
mod following;
mod images;
mod listing;
mod names;
mod reading;
mod refusals;
mod state;

pub use action::Action;
pub use call::{Call, Entry};
pub use first::First;
pub use state::State;
