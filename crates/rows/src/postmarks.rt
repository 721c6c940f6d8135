//! Cases of postmarks (mbox(5)).

use case_files::{Answer, Case, CaseFault, Subject};
use mbox_text::read_postmark;
use std::alloc::Global;

/// `line` is the line; its `moment` is in seconds since 1970 UTC, or `none`.
pub struct Postmarks;

impl Subject for Postmarks {
    fn inputs(&self) -> &[&[u8]] {
        &[b"line"]
    }

    fn answer(&self, alloc: Global, case: &Case, answer: &mut Answer) -> Result<(), CaseFault> {
        match read_postmark(case.need(b"line")?) {
            Some(moment) => answer.put_number(b"moment", moment),
            None => answer.put(b"moment", b"none"),
        }
    }
}
