//! The end of a mailbox in one file, put in its place by way of a tail file under a lock.
#![tactic(auto)]

mod acts;
mod error;
mod finish;
mod lock;
mod putting;
mod reading;
mod recover;
mod sides;
mod staging;
mod text;
mod write;

pub use error::TailError;
pub use lock::{take_lock, take_lock_on};
pub use recover::{finish_tail, finish_tail_on};
pub use write::{write_tail, write_tail_on};
