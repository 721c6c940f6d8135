//! Folders of a file a message (maildir(5)): the driver that scans a folder, changes its files and
//! adds messages to it, `MaildirDriver`.
#![tactic(auto)]

mod candidates;
mod driver;
mod files;
mod gone;
mod known_base;
mod named_file;
mod plan;
mod renaming;
mod steps;
mod syncing;
mod walk;

pub use driver::MaildirDriver;
