//! Mailboxes in one file (mbox(5)): their driver, which lists the messages that it reads.
#![tactic(auto)]

mod driver;
mod listing;
mod read;

pub use driver::MboxDriver;
