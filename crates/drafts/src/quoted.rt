//! The lines of a message as a reply to it begins with them.

ghost use Rattle.std.specs.Prelude.{◌≡◌, All, length, map, IfOk, OnOk, ◌++◌};
ghost use Rattle.std.specs.List.{find};
ghost use Rattle.mail_base.specs.Series.{plain_texts};
ghost use Rattle.drafts.specs.Texts.{texts};
ghost use Rattle.mime_tree.specs.Order.{StandsWithin};
ghost use Rattle.mime_tree.specs.Part.{plain_part};
ghost use Rattle.mime_tree.specs.Parts.{parts_of};
ghost use Rattle.drafts.specs.Reply as spec;

use crate::clean::append_clean;
use mail_base::{Line, Lines, NoMemory};
use mime_tree::{MimeError, Part, decoded_text, read_parts};
use std::alloc::Global;

fn is_text_part(part: &Part) -> bool
    ensures { result ≡ spec.is_text_part (plain_part part.now) }
{
    part.content.as_slice().starts_with(b"text/")
}

// The lines of the first part of text among parts of the message.
fn lines_in(alloc: Global, raw: &[u8], parts: &[Part]) -> Result<Lines, NoMemory>
    requires { All (StandsWithin (length raw.now)) parts.now }
    ensures { IfOk result (λ lines. plain_texts lines
        ≡ spec.lines_of_part raw.now (find spec.is_text_part (map plain_part parts.now))) }
{
    let mut left = parts;
    while let [first, rest @ ..] = left {
        if is_text_part(first) {
            return decoded_text(alloc, raw, first);
        }
        left = rest;
    }
    Ok(Lines::new(alloc))
}

// The lines of the first part of text of the message.
fn text_lines(alloc: Global, raw: &[u8]) -> Result<Lines, NoMemory>
    ensures { IfOk result
        (λ lines. plain_texts lines ≡ spec.first_lines raw.now (parts_of raw.now)) }
{
    match read_parts(alloc, raw) {
        Ok(parts) => lines_in(alloc, raw, parts.as_slice()),
        Err(MimeError::TooDeep) => Ok(Lines::new(alloc)),
        Err(MimeError::NoMemory) => Err(NoMemory),
    }
}

// The line with the indent before it.
fn quoted_line(alloc: Global, indent: &[u8], text: &[u8]) -> Result<Line, NoMemory>
    ensures { IfOk result (λ line. line.items ≡ spec.quoted indent.now text.now) }
{
    let mut line = Line::new(alloc);
    append_clean(alloc, &mut line, indent)?;
    append_clean(alloc, &mut line, text)?;
    Ok(line)
}

// Adds the lines at the end, each with the indent before it.
fn push_quoted(
    alloc: Global,
    body: &mut Lines,
    indent: &[u8],
    lines: &[Line],
) -> Result<(), NoMemory>
    ensures { OnOk result (plain_texts body.new
        ≡ plain_texts body.old ++ map (spec.quoted indent.now) (texts lines.now)) }
{
    let mut left = lines;
    while let [first, rest @ ..] = left {
        body.push(quoted_line(alloc, indent, first.as_slice())?)?;
        left = rest;
    }
    Ok(())
}

/// The lines of the first part of text of the message, each with the indent before it.
pub fn quoted_lines(alloc: Global, raw: &[u8], indent: &[u8]) -> Result<Lines, NoMemory>
    ensures { IfOk result (λ lines. plain_texts lines
        ≡ map (spec.quoted indent.now) (spec.first_lines raw.now (parts_of raw.now))) }
{
    let lines = text_lines(alloc, raw)?;
    let mut body = Lines::new(alloc);
    push_quoted(alloc, &mut body, indent, lines.as_slice())?;
    Ok(body)
}
