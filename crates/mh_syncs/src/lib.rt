//! Syncs of MH folders (mh-mail(5), mh-sequence(5)): new sequences are put in place at once, and
//! then the files of discarded messages go.
#![tactic(auto)]

mod away;
mod left;
mod leftovers;
mod names;
mod placing;
mod sequences;
mod stamps;
mod syncing;

pub use leftovers::remove_leftovers;
pub use syncing::sync_folder;
