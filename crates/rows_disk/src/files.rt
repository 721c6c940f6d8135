//! Cases of the calls of the file system, in the folder that the program runs in.

use crate::calls::{Stamps, put_calls};
use case_files::{Answer, Case, CaseFault, Subject};
use disk_model::Device;
use real_disk::RealDisk;
use std::alloc::Global;

/// Each `call` as the cases of a disk in memory have it, and `agree PATH LIMIT`, whether a look at
/// a file and a read of it tell the same. What a case makes stands there for the next ones.
#[derive(Drop)]
pub struct FileCalls<'a> {
    pub rt: &'a HostRuntime,
}

impl Subject for FileCalls<'_> {
    fn inputs(&self) -> &[&[u8]] {
        &[b"call"]
    }

    fn answer(&self, alloc: Global, case: &Case, answer: &mut Answer) -> Result<(), CaseFault> {
        let disk = RealDisk::new(self.rt.clone()?);
        let mut dev = Device::new(Box::new(alloc, disk)?);
        put_calls(alloc, answer, &mut dev, case, Stamps::Untold)
    }
}
