//! The bytes of messages that are added (mbox(5)).

ghost use Rattle.std.specs.Prelude.{◌≡◌, ◌++◌, IfOk, OnOk};
ghost use Rattle.folder_core.specs.Mbox as mbox;
ghost use Rattle.folder_drivers.specs.MboxRegion as spec;
ghost use Rattle.mbox_items.specs.Appended.{IsOneMessage};

use crate::postmark::append_postmark;
use bstr::ByteSlice;
use folder_changes::Item;
use mail_base::{Bytes, Kind, NoMemory, is_empty_line, without_feed};
use mbox_text::{read_postmark, with_status};
use std::alloc::Global;

/// What a message is in a mailbox, from its postmark to the empty line that ends it.
pub fn item_text(alloc: Global, item: &Item) -> Result<Bytes, NoMemory>
    ensures region { IfOk result (λ text. text.items ≡ spec.item_region item.now) }
    ensures message { IfOk result (λ text. IsOneMessage item.now text.items) }
{
    let region = plain_region(alloc, item)?;
    with_status(alloc, region.as_slice(), item.flags.stored(Kind::Mbox))
}

// The same without flags.
fn plain_region(alloc: Global, item: &Item) -> Result<Bytes, NoMemory>
    ensures { IfOk result (λ text. text.items ≡ spec.plain_region item.now.sender.items
        item.now.moment item.now.text.items) }
{
    let mut region = Bytes::new(alloc);
    append_postmark(&mut region, item.sender.as_slice(), item.moment)?;
    append_quoted(&mut region, item.text.as_slice())?;
    region.push(b'\n')?;
    Ok(region)
}

// Adds the lines of a text, with `>` in front of each that would begin a message.
fn append_quoted(region: &mut Bytes, text: &[u8]) -> Result<(), NoMemory>
    ensures { OnOk result (region.new.items ≡ region.old.items ++ spec.quoted_text text.now) }
{
    let mut empty = false;
    for line in text.lines_with_terminator() {
        if empty && is_postmark(line) {
            region.push(b'>')?;
        }
        append_line(region, line)?;
        empty = is_empty_line(line);
    }
    Ok(())
}

fn is_postmark(line: &[u8]) -> bool
    ensures { result ≡ mbox.is_postmark line.now }
{
    read_postmark(line).is_some()
}

// Adds a line with the LF that it may lack.
fn append_line(region: &mut Bytes, line: &[u8]) -> Result<(), NoMemory>
    ensures { OnOk result (region.new.items ≡ region.old.items ++ mbox.with_feed line.now) }
{
    region.append(without_feed(line))?;
    region.push(b'\n')
}
