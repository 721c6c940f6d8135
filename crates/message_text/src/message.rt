//! The text of a message, and of one of its parts.

ghost use Rattle.std.specs.Prelude.{◌≡◌, ◌<◌, ◌≤◌, ◌↔◌, ◌++◌, IfOk, IfSome, IsNone, OnOk, length};
ghost use Rattle.std.specs.Prelude.{option_map, Some, None, All, drop, map};
ghost use Rattle.mail_base.specs.Series.{plain_texts};
ghost use Rattle.mime_tree.specs.Order.{StandsWithin};
ghost use Rattle.mime_tree.specs.Part.{plain_part, plain_parts};
ghost use Rattle.mime_tree.specs.Parts.{parts_of};
ghost use Rattle.message_text.specs.Message as spec;
ghost use Rattle.message_text.specs.Rows.{attachment_lines, rows_behind};
ghost use Rattle.message_text.specs.Source.{lines_of_branch, parts_of_source};
ghost use Rattle.message_text.specs.Weeding.{plain_weeding, unweeded};

use crate::branch::{add_head, add_part};
use crate::marks::deep_mark;
use crate::parts::parts_in;
use crate::rows::{all_rows, rows_of};
use crate::source::Source;
use crate::weeding::Weeding;
use headers::Charset;
use mail_base::{Lines, NoMemory, body_of};
use mime_tree::{Part, Parts, append_lines};
use std::alloc::Global;

// How many levels of parts a message may have: the message itself, and 32 below it.
const LEVELS: u32 = 33;

// Adds the body of a message that has parts.
fn add_body(alloc: Global, lines: &mut Lines, source: &Source<'_>) -> Result<(), NoMemory>
    ensures { OnOk result (plain_texts lines.new ≡ plain_texts lines.old
        ++ spec.lines_from (plain_weeding source.now.weed.now) source.now.raw.now
        (parts_of_source source.now)) }
{
    if source.parts.is_empty() {
        return Ok(());
    }
    add_part(alloc, lines, source, 0, LEVELS)
}

// Adds the lines of a message, given its parts, unless they nest too deep.
fn add_message(
    alloc: Global,
    lines: &mut Lines,
    raw: &[u8],
    parts: &Option<Parts>,
    weed: &Weeding,
) -> Result<(), NoMemory>
    requires value { option_map plain_parts parts.now ≡ parts_of raw.now }
    requires within { IfSome parts.now (λ parts. All (StandsWithin (length raw.now)) parts.items) }
    ensures { OnOk result (plain_texts lines.new
        ≡ plain_texts lines.old ++ spec.message_lines (plain_weeding weed.now) raw.now) }
{
    add_head(alloc, lines, raw, weed)?;
    match parts {
        Some(parts) => {
            let source = Source {
                raw,
                parts: parts.as_slice(),
                weed,
            };
            add_body(alloc, lines, &source)
        }
        None => {
            lines.push(deep_mark(alloc)?)?;
            append_lines(alloc, lines, Charset::Utf8, body_of(raw))
        }
    }
}

/// What is shown of a message: lines, and a row for each of its parts.
#[derive(Drop)]
pub struct MessageText {
    pub lines: Lines,
    pub rows: Lines,
}

/// The lines of a message: its header, an empty line, and its body by the tree of its parts; and
/// the rows of its parts, which are read once.
pub fn message_text(alloc: Global, raw: &[u8], weed: &Weeding) -> Result<MessageText, NoMemory>
    ensures lines { IfOk result
        (λ t. plain_texts t.lines ≡ spec.message_lines (plain_weeding weed.now) raw.now) }
    ensures rows { IfOk result (λ t. plain_texts t.rows ≡ attachment_lines raw.now) }
{
    let parts = parts_in(alloc, raw)?;
    let mut lines = Lines::new(alloc);
    add_message(alloc, &mut lines, raw, &parts, weed)?;
    let rows = rows_of(alloc, &parts)?;
    Ok(MessageText { lines, rows })
}

// The lines of the part of the number.
fn lines_of_part(
    alloc: Global,
    raw: &[u8],
    parts: &[Part],
    number: usize,
) -> Result<Lines, NoMemory>
    requires number { number < length parts.now }
    requires within { All (StandsWithin (length raw.now)) parts.now }
    ensures { IfOk result (λ l. plain_texts l
        ≡ spec.lines_from unweeded raw.now (drop number (map plain_part parts.now))) }
{
    let weed = Weeding::none(alloc);
    let source = Source {
        raw,
        parts,
        weed: &weed,
    };
    let mut lines = Lines::new(alloc);
    add_part(alloc, &mut lines, &source, number, LEVELS)?;
    Ok(lines)
}

// What is shown of the part of the number among these.
fn text_of_part(
    alloc: Global,
    raw: &[u8],
    parts: &[Part],
    number: usize,
) -> Result<MessageText, NoMemory>
    requires number { number < length parts.now }
    requires within { All (StandsWithin (length raw.now)) parts.now }
    ensures lines { IfOk result (λ t. plain_texts t.lines
        ≡ spec.lines_from unweeded raw.now (drop number (map plain_part parts.now))) }
    ensures rows { IfOk result
        (λ t. plain_texts t.rows ≡ rows_behind 0 (map plain_part parts.now)) }
{
    let rows = all_rows(alloc, parts)?;
    let lines = lines_of_part(alloc, raw, parts, number)?;
    Ok(MessageText { lines, rows })
}

/// The lines of the part of the number, counted from 0 in the order of reading, without the header
/// of the message, and the rows of all parts; the headers of messages in it are shown whole.
pub fn part_text(alloc: Global, raw: &[u8], number: usize) -> Result<Option<MessageText>, NoMemory>
    ensures value { IfOk result
        (λ o. option_map (λ t. plain_texts t.lines) o ≡ spec.part_lines raw.now number) }
    ensures rows { IfOk result
        (λ o. IfSome o (λ t. plain_texts t.rows ≡ attachment_lines raw.now)) }
    ensures none { IfOk result (λ o. IsNone o ↔ (length (spec.listed_parts raw.now) ≤ number)) }
{
    match parts_in(alloc, raw)? {
        Some(parts) if number < parts.len() => {
            Ok(Some(text_of_part(alloc, raw, parts.as_slice(), number)?))
        }
        _ => Ok(None),
    }
}
