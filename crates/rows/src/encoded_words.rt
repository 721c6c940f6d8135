//! Cases of encoded words (RFC 2047).

use case_files::{Answer, Case, CaseFault, Subject};
use headers::decode_words;
use std::alloc::Global;

/// `value` is an unfolded value.
pub struct EncodedWords;

impl Subject for EncodedWords {
    fn inputs(&self) -> &[&[u8]] {
        &[b"value"]
    }

    fn answer(&self, alloc: Global, case: &Case, answer: &mut Answer) -> Result<(), CaseFault> {
        let line = decode_words(alloc, case.need(b"value")?)?;
        answer.put(b"text", line.as_slice())
    }
}
