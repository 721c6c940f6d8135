//! Cases of the status fields of a message.

use crate::flags::{flags_named, put_flags};
use case_files::{Answer, Case, CaseFault, Subject};
use mbox_text::{read_status, with_status};
use std::alloc::Global;

/// `region` is a message with its postmark; `flags` are letters as in the cases of flags, and
/// `text` is the message with the flags that `with` names.
pub struct StatusFields;

impl Subject for StatusFields {
    fn inputs(&self) -> &[&[u8]] {
        &[b"region", b"with"]
    }

    fn answer(&self, alloc: Global, case: &Case, answer: &mut Answer) -> Result<(), CaseFault> {
        let region = case.need(b"region")?;
        put_flags(answer, b"flags", read_status(region))?;
        match case.find(b"with") {
            Some(letters) => put_with(alloc, answer, region, letters),
            None => Ok(()),
        }
    }
}

fn put_with(
    alloc: Global,
    answer: &mut Answer,
    region: &[u8],
    letters: &[u8],
) -> Result<(), CaseFault> {
    let text = with_status(alloc, region, flags_named(letters)?)?;
    answer.put(b"text", text.as_slice())
}
