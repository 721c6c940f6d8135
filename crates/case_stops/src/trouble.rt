//! The calls of a disk that fail, one by one.

use case_disks::{disk_failing, disk_of, disk_stopped, disk_turning};
use case_files::{Case, CaseFault};
use memory_disk::MemoryDisk;
use std::alloc::Global;

/// Which calls fail, or before which others act.
#[derive(Clone, Copy)]
pub enum Trouble {
    No,
    From(u64),
    At(u64),
    Others(u64),
}

/// The disk of a case, on which such calls fail.
pub fn disk_in(alloc: Global, case: &Case, trouble: Trouble) -> Result<MemoryDisk, CaseFault> {
    match trouble {
        Trouble::No => disk_of(alloc, case),
        Trouble::From(call) => disk_stopped(alloc, case, Some(call)),
        Trouble::At(call) => disk_failing(alloc, case, call),
        Trouble::Others(call) => disk_turning(alloc, case, call),
    }
}
