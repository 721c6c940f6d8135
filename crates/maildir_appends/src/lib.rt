//! Adding a message to a Maildir, so that a stop at any disk call costs no message (maildir(5)).
#![tactic(auto)]

mod appending;
mod base;
mod listing;
mod places;
mod put;

pub use appending::append;
