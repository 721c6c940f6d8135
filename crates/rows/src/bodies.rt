//! Cases of the decoded text of messages of one part (RFC 2045, section 6).

ghost use Rattle.std.specs.Prelude.{◌≤◌, length};

use case_files::{Answer, Case, CaseFault, Subject};
use mail_base::{Bytes, Line, NoMemory};
use mime_tree::{MimeError, Part, decoded_text, read_parts};
use std::alloc::Global;

/// `message` is the raw message, and `lines` the lines of the text of its parts, each with a line
/// feed.
pub struct Bodies;

impl Subject for Bodies {
    fn inputs(&self) -> &[&[u8]] {
        &[b"message"]
    }

    fn answer(&self, alloc: Global, case: &Case, answer: &mut Answer) -> Result<(), CaseFault> {
        let raw = case.need(b"message")?;
        let parts = match read_parts(alloc, raw) {
            Ok(parts) => parts,
            Err(MimeError::TooDeep) => return Err(CaseFault::BadInput),
            Err(MimeError::NoMemory) => return Err(CaseFault::NoMemory),
        };
        for part in parts.as_slice() {
            put_text(alloc, answer, b"lines", raw, part)?;
        }
        Ok(())
    }
}

/// Puts the lines of a part's text under a key, each with a line feed.
pub fn put_text(
    alloc: Global,
    answer: &mut Answer,
    key: &[u8],
    raw: &[u8],
    part: &Part,
) -> Result<(), CaseFault>
    requires order { part.now.body_at ≤ part.now.body_end }
    requires within { part.now.body_end ≤ length raw.now }
{
    let lines = decoded_text(alloc, raw, part)?;
    let mut text = Bytes::new(alloc);
    append_lines(&mut text, lines.as_slice())?;
    answer.put(key, text.as_slice())
}

fn append_lines(text: &mut Bytes, lines: &[Line]) -> Result<(), NoMemory> {
    for line in lines {
        text.append(line.as_slice())?;
        text.push(b'\n')?;
    }
    Ok(())
}
