//! The rows of the attachment screen.

ghost use Rattle.std.specs.Prelude.{◌≡◌, ◌+◌, ◌<◌, ◌^◌, ◌-◌, ◌++◌, ◌∷◌, [], IfOk, OnOk, length};
ghost use Rattle.std.specs.Prelude.{map, option_map, replicate, unwrap_or};
ghost use Rattle.std.specs.Fmt.{decimal};
ghost use Rattle.mail_base.specs.Series.{plain_texts};
ghost use Rattle.mime_tree.specs.Part.{plain_part, plain_parts};
ghost use Rattle.message_text.specs.Rows as spec;

use crate::parts::parts_in;
use mail_base::{Line, Lines, NoMemory, append_utf8};
use mime_tree::{Part, Parts};
use std::alloc::Global;

// How many places a number takes at least.
const PLACES: usize = 3;

fn append_blanks(line: &mut Line, count: usize) -> Result<(), NoMemory>
    ensures { OnOk result (line.new.items ≡ line.old.items ++ replicate count 32) }
{
    for _i in 0..count {
        line.push(b' ')?;
    }
    Ok(())
}

// Adds a number at the right of three places.
fn append_in_three_places(alloc: Global, line: &mut Line, number: usize) -> Result<(), NoMemory>
    ensures { OnOk result
        (line.new.items ≡ line.old.items ++ spec.in_three_places (decimal number)) }
{
    let digits = number.to_string(alloc)?;
    append_blanks(line, PLACES.saturating_sub(digits.len()))?;
    line.append(&digits)
}

// Adds the row of a part.
fn add_row(alloc: Global, lines: &mut Lines, number: usize, part: &Part) -> Result<(), NoMemory>
    ensures { OnOk result (plain_texts lines.new
        ≡ plain_texts lines.old ++ spec.row_line number (plain_part part.now) ∷ []) }
{
    let mut line = Line::new(alloc);
    append_in_three_places(alloc, &mut line, number)?;
    line.append(" ")?;
    append_utf8(&mut line, part.content.as_slice())?;
    line.append(" ")?;
    line.append(part.filename.as_str())?;
    lines.push(line)
}

fn add_rows(alloc: Global, lines: &mut Lines, parts: &[Part]) -> Result<(), NoMemory>
    ensures { OnOk result (plain_texts lines.new
        ≡ plain_texts lines.old ++ spec.rows_behind 0 (map plain_part parts.now)) }
{
    for (before, part) in parts.iter().enumerate() {
        add_row(alloc, lines, before + 1, part)?;
    }
    Ok(())
}

/// A row for each of these parts.
pub fn all_rows(alloc: Global, parts: &[Part]) -> Result<Lines, NoMemory>
    ensures { IfOk result (λ l. plain_texts l ≡ spec.rows_behind 0 (map plain_part parts.now)) }
{
    let mut lines = Lines::new(alloc);
    add_rows(alloc, &mut lines, parts)?;
    Ok(lines)
}

/// A row for each part, none where parts nest too deep.
pub fn rows_of(alloc: Global, parts: &Option<Parts>) -> Result<Lines, NoMemory>
    ensures { IfOk result (λ l. plain_texts l
        ≡ spec.rows_behind 0 (unwrap_or (option_map plain_parts parts.now) [])) }
{
    match parts {
        Some(parts) => all_rows(alloc, parts.as_slice()),
        None => Ok(Lines::new(alloc)),
    }
}

/// A row for each part of a message, in the order of reading: its number, counted from 1, its
/// content type, and the name of its file. There is none where parts nest too deep.
pub fn attachment_rows(alloc: Global, raw: &[u8]) -> Result<Lines, NoMemory>
    ensures { IfOk result (λ l. plain_texts l ≡ spec.attachment_lines raw.now) }
{
    let parts = parts_in(alloc, raw)?;
    rows_of(alloc, &parts)
}
