//! The file system of the machine as a disk: `RealDisk` is made of a runtime, and goes into a
//! `Device`.
#![tactic(auto)]

mod disk;
mod folders;
mod reading;
mod system;
mod writing;

pub use disk::RealDisk;
