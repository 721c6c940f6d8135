//! Cases of what stays of a message when its status changes.

use case_files::{Answer, Case, CaseFault, Subject};
use mail_base::first_line;
use mbox_text::core_of;
use std::alloc::Global;

/// `region` is a message with its postmark and its separator.
pub struct Cores;

impl Subject for Cores {
    fn inputs(&self) -> &[&[u8]] {
        &[b"region"]
    }

    fn answer(&self, alloc: Global, case: &Case, answer: &mut Answer) -> Result<(), CaseFault> {
        let region = case.need(b"region")?;
        answer.put(b"core", core_of(alloc, region)?.as_slice())?;
        answer.put(b"first line", first_line(region))
    }
}
