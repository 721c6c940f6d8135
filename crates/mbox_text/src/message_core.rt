//! What stays of a message when its status changes, and its flags.

ghost use Rattle.std.specs.Prelude.{◌≡◌, [], ◌∷◌, ◌++◌, IfOk, OnOk};
ghost use Rattle.std.specs.List.{concat};
ghost use Rattle.bstr.specs.Text.{lines_of};
ghost use Rattle.mail_base.specs.Lines as lines;
ghost use Rattle.folder_core.specs.Mbox as spec;

use crate::status::Told;
use bstr::ByteSlice;
use mail_base::{Bytes, Flags, Kind, NoMemory, is_empty_line, without_feed};
use std::alloc::Global;

/// What stays of a message when its status changes: its lines without the status fields, each with
/// an LF, without the empty line that ends it.
pub fn core_of(alloc: Global, region: &[u8]) -> Result<Bytes, NoMemory>
    ensures { IfOk result (λ core. core.items ≡ spec.core region.now) }
{
    let (core, _) = read_message(alloc, region)?;
    Ok(core)
}

/// What stays of a message when its status changes, and its flags, in one walk over its header
/// block.
#[tactic(auto, unfolding(folder_core::specs::Mbox::core, folder_core::specs::Mbox::status))]
pub fn read_message(alloc: Global, region: &[u8]) -> Result<(Bytes, Flags), NoMemory>
    ensures core { IfOk result (λ read. read.0.items ≡ spec.core region.now) }
    ensures flags { IfOk result (λ read. read.1 ≡ spec.status region.now) }
{
    let mut core = Bytes::new(alloc);
    core.reserve(region.len())?;
    let mut told = Told::NOTHING;
    let mut lines = region.lines_with_terminator();
    let mut last = lines.next().unwrap_or(&[]);
    let mut left = lines.as_bytes();
    while let Some(line) = lines.next() {
        if is_empty_line(line) {
            core.append(last)?;
            append_text(&mut core, left)?;
            return Ok((core, told.flags.stored(Kind::Mbox)));
        }
        let (next, stays) = told.past(line);
        told = next;
        if stays {
            core.append(last)?;
            last = line;
        }
        left = lines.as_bytes();
    }
    append_last(&mut core, last)?;
    Ok((core, told.flags.stored(Kind::Mbox)))
}

// Whether the text and LF are an empty line.
fn is_empty_text(text: &[u8]) -> bool
    ensures { result ≡ lines.is_empty_line (text.now ++ 10 ∷ []) }
{
    text.is_empty() || text == b"\r".as_slice()
}

// Adds lines of which the last ends a message.
fn append_text(core: &mut Bytes, text: &[u8]) -> Result<(), NoMemory>
    ensures { OnOk result (core.new.items
        ≡ core.old.items ++ concat (spec.without_separator (lines_of text.now))) }
{
    let mut lines = text.lines_with_terminator();
    let Some(last) = lines.next_back() else {
        return Ok(());
    };
    core.append(lines.as_bytes())?;
    append_last(core, last)
}

// Adds a last line with the LF that it may lack, or nothing where it is then empty.
fn append_last(core: &mut Bytes, line: &[u8]) -> Result<(), NoMemory>
    ensures { OnOk result (core.new.items ≡ core.old.items ++ concat (spec.last_line line.now)) }
{
    let text = without_feed(line);
    if is_empty_text(text) {
        return Ok(());
    }
    core.append(text)?;
    core.push(b'\n')
}
