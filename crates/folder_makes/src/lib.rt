//! Making an empty folder of a kind, so that a stop at any disk call leaves one that was begun.
#![tactic(auto)]

mod beginning;
mod directories;
mod maildir;
mod mbox;
mod mh;

pub use maildir::make_maildir;
pub use mbox::make_mbox;
pub use mh::make_mh;
