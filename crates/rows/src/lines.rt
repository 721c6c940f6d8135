//! Cases of the forms that a line of a message has.

use case_files::{Answer, Case, CaseFault, Subject};
use mail_base::{
    colon_of, is_continuation, is_empty_line, is_utf8, without_blanks, without_line_end,
};
use std::alloc::Global;

/// `line` is the line.
pub struct LineForms;

impl Subject for LineForms {
    fn inputs(&self) -> &[&[u8]] {
        &[b"line"]
    }

    fn answer(&self, alloc: Global, case: &Case, answer: &mut Answer) -> Result<(), CaseFault> {
        let line = case.need(b"line")?;
        match colon_of(line) {
            Some(colon) => answer.put_count(b"colon", colon)?,
            None => answer.put(b"colon", b"none")?,
        }
        answer.put_flag(b"continues", is_continuation(line))?;
        answer.put_flag(b"empty", is_empty_line(line))?;
        answer.put_flag(b"text", is_utf8(line))?;
        answer.put(b"behind blanks", without_blanks(line))?;
        answer.put(b"before the end", without_line_end(line))
    }
}
