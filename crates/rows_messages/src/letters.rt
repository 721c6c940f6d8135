//! Letters of cases, and lists of lines that are answered.

ghost use Rattle.std.specs.Prelude.{◌≡◌, IfOk};

use case_files::{Answer, CaseFault};
use folder_letters::Letter;
use mail_base::{Bytes, Line, NoMemory};
use std::alloc::Global;

/// A letter of these bytes, without a postmark, received at 0.
pub fn letter_of(alloc: Global, raw: &[u8]) -> Result<Letter, NoMemory> {
    Ok(Letter {
        order: 0,
        key: Bytes::new(alloc),
        core: Bytes::copy_of(alloc, raw)?,
        text_at: 0,
        received: 0,
    })
}

/// Puts lines, each with a line feed.
pub fn put_lines(
    alloc: Global,
    answer: &mut Answer,
    key: &[u8],
    lines: &[Line],
) -> Result<(), CaseFault> {
    let mut text = Bytes::new(alloc);
    append_lines(&mut text, lines)?;
    answer.put(key, text.as_slice())
}

fn append_lines(text: &mut Bytes, lines: &[Line]) -> Result<(), NoMemory> {
    for line in lines {
        text.append(line.as_slice())?;
        text.push(b'\n')?;
    }
    Ok(())
}
