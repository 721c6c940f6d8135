//! Cases of the numbers of messages (mh-mail(5)).

use case_files::{Answer, Case, CaseFault, Subject};
use folder_core::read_number;
use std::alloc::Global;

/// `name` is the name of a file; its `number` is `none` where it is no number.
pub struct MhNumbers;

impl Subject for MhNumbers {
    fn inputs(&self) -> &[&[u8]] {
        &[b"name"]
    }

    fn answer(&self, alloc: Global, case: &Case, answer: &mut Answer) -> Result<(), CaseFault> {
        match read_number(case.need(b"name")?) {
            Some(number) => answer.put_number(b"number", i64::from(number)),
            None => answer.put(b"number", b"none"),
        }
    }
}
