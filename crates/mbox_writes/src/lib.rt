//! What is written into mailboxes in one file (mbox(5)), under their lock: a sync, which compares
//! the file with what is known of it (`known_front`) and gives it a new end from the first message
//! on that changes; and a message that is added.
#![tactic(auto)]

mod appending;
mod front;
mod laws;
mod plan;
mod reading;
mod refusals;
mod same_cores;
mod syncing;
mod writing;

pub use appending::append_mailbox;
pub use front::{FrontError, known_front};
pub use laws::{cores_stay, few_messages, known_stays_right};
pub use syncing::sync_mailbox;
