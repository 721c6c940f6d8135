//! A message with other flags in its status fields (mbox(5)).

ghost use Rattle.std.specs.Prelude.{◌≡◌, ◌≤◌, ◌++◌, IfOk, OnOk, length};
ghost use Rattle.std.specs.List.{concat};
ghost use Rattle.bstr.specs.Text.{lines_of};
ghost use Rattle.mail_base.specs.Flags.{stored};
ghost use Rattle.mail_base.specs.declared.kind.Kind.TheVariants.{Mbox};
ghost use Rattle.folder_core.specs.Mbox as mbox;
ghost use Rattle.mbox_text.specs.WithStatus as spec;

use crate::status::Told;
use bstr::ByteSlice;
use mail_base::{Bytes, Flags, NoMemory, body_at, first_line, is_empty_line, without_feed};
use std::alloc::Global;

/// A message with these flags in its fields Status and X-Status, which stand last in the header
/// block in place of its own; all else stays, and a last line gets the LF that it lacks.
pub fn with_status(alloc: Global, region: &[u8], flags: Flags) -> Result<Bytes, NoMemory>
    ensures text { IfOk result (λ text. text.items ≡ spec.with_status flags region.now) }
    ensures core { IfOk result (λ text. mbox.core text.items ≡ mbox.core region.now) }
    ensures status { IfOk result (λ text. mbox.status text.items ≡ stored Mbox flags) }
{
    let kept = kept_text(alloc, region)?;
    let kept = kept.as_slice();
    let (block, behind) = kept.split_at(block_end(kept));
    let mut text = Bytes::new(alloc);
    text.append(block)?;
    append_status(&mut text, flags)?;
    text.append(behind)?;
    Ok(text)
}

// The message without its status fields, with an LF at its end.
fn kept_text(alloc: Global, region: &[u8]) -> Result<Bytes, NoMemory>
    ensures { IfOk result (λ text. text.items ≡ spec.kept_text region.now) }
{
    let mut text = kept_lines(alloc, region)?;
    if without_feed(text.as_slice()).len() == text.len() {
        text.push(b'\n')?;
    }
    Ok(text)
}

// The message without its status fields.
fn kept_lines(alloc: Global, region: &[u8]) -> Result<Bytes, NoMemory>
    ensures { IfOk result (λ text. text.items ≡ concat (mbox.kept_lines (lines_of region.now))) }
{
    let mut text = Bytes::new(alloc);
    text.reserve(region.len())?;
    let mut told = Told::NOTHING;
    let mut lines = region.lines_with_terminator();
    text.append(lines.next().unwrap_or(&[]))?;
    let mut left = lines.as_bytes();
    while let Some(line) = lines.next() {
        if is_empty_line(line) {
            text.append(left)?;
            return Ok(text);
        }
        let (next, stays) = told.past(line);
        told = next;
        if stays {
            text.append(line)?;
        }
        left = lines.as_bytes();
    }
    Ok(text)
}

// The place behind the header block of a message.
fn block_end(text: &[u8]) -> usize
    ensures end { result ≡ spec.block_end text.now }
    ensures within { result ≤ length text.now }
{
    let first = first_line(text).len();
    first + body_at(&text[first..])
}

// Adds the status fields that tell the flags.
fn append_status(text: &mut Bytes, flags: Flags) -> Result<(), NoMemory>
    ensures { OnOk result (text.new.items
        ≡ text.old.items ++ concat (spec.status_lines flags)) }
{
    text.append(status_line(flags))?;
    text.append(x_status_line(flags))
}

fn status_line(flags: Flags) -> &'static [u8]
    ensures { result.now ≡ concat (spec.status_line flags) }
{
    if flags.seen {
        b"Status: RO\n"
    } else if flags.aged {
        b"Status: O\n"
    } else {
        b""
    }
}

fn x_status_line(flags: Flags) -> &'static [u8]
    ensures { result.now ≡ concat (spec.x_status_line flags) }
{
    match (flags.replied, flags.flagged) {
        (true, true) => b"X-Status: AF\n",
        (true, false) => b"X-Status: A\n",
        (false, true) => b"X-Status: F\n",
        (false, false) => b"",
    }
}
