//! Threads of messages: which message answers which, by the ids of headers and by subjects.
//! Make a `Threads`, `add` each message of a listing, call `finish`, and then ask `parent`,
//! `thread_of` and `order_from`.
#![tactic(auto)]

mod firsts;
mod links;
mod message;
mod numbers;
mod options;
mod order;
mod step;
mod subjects;
mod threads;
mod walk;

pub use options::{Link, Parent, ThreadOptions};
pub use threads::Threads;
