//! Cases of mailboxes that are cut into the regions of their messages.

use case_files::{Answer, Case, CaseFault, Subject};
use mbox_text::{CutError, Region, cut_regions};
use std::alloc::Global;

/// `file` is what the mailbox holds; each `region` is its start and its end.
pub struct FileRegions;

impl Subject for FileRegions {
    fn inputs(&self) -> &[&[u8]] {
        &[b"file"]
    }

    fn answer(&self, alloc: Global, case: &Case, answer: &mut Answer) -> Result<(), CaseFault> {
        match cut_regions(alloc, case.need(b"file")?) {
            Ok(regions) => put_regions(alloc, answer, regions.as_slice()),
            Err(CutError::NotMailbox) => answer.put(b"refused", b"not a mailbox"),
            Err(CutError::NoMemory) => Err(CaseFault::NoMemory),
        }
    }
}

fn put_regions(alloc: Global, answer: &mut Answer, regions: &[Region]) -> Result<(), CaseFault> {
    answer.put_count(b"regions", regions.len())?;
    for region in regions {
        let start = region.start;
        let end = region.end;
        answer.put_text(b"region", format!(in alloc; "{start} {end}")?.as_str())?;
    }
    Ok(())
}
