//! A disk in memory, for rows that are played: `MemoryDisk` has a tree, a script of others, calls
//! that fail and a stop.
#![tactic(auto)]

mod asked;
mod disk;
mod entering;
mod front;
mod plan;
mod script;

pub use disk::MemoryDisk;
pub use script::{Foreign, Script};
