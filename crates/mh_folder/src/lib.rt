//! Folders of a numbered file a message (mh-mail(5)): their driver, `MhDriver`.
#![tactic(auto)]

mod driver;
mod folder;
mod known_file;
mod known_files;
mod look;
mod numbered_name;
mod visit;
mod walk;

pub use driver::MhDriver;
