//! The texts of persons in a row.

ghost use Rattle.std.specs.Prelude.{◌≡◌, ◌++◌, map, IfOk, OnOk};
ghost use Rattle.headers.specs.Person.{plain_person};
ghost use Rattle.index_rows.specs.Entry.{plain_entry};
ghost use Rattle.index_rows.specs.Texts as spec;

use crate::entry::Entry;
use crate::text::shown;
use headers::Person;
use mail_base::{Line, NoMemory, append_utf8};
use std::alloc::Global;

// The name of the first person, or else the address.
fn append_first_name(line: &mut Line, persons: &[Person]) -> Result<(), NoMemory>
    ensures { OnOk result (line.new.items
        ≡ line.old.items ++ spec.first_name (map plain_person persons.now)) }
{
    match persons {
        [] => Ok(()),
        [first, ..] if first.name.len() == 0 => append_utf8(line, first.address.as_slice()),
        [first, ..] => line.append_bytes(first.name.as_slice()),
    }
}

fn append_author(line: &mut Line, entry: &Entry<'_>) -> Result<(), NoMemory>
    ensures { OnOk result (line.new.items
        ≡ line.old.items ++ spec.author_text (plain_entry entry.now)) }
{
    append_first_name(line, entry.header.authors.as_slice())
}

fn append_recipient(line: &mut Line, entry: &Entry<'_>) -> Result<(), NoMemory>
    ensures { OnOk result (line.new.items
        ≡ line.old.items ++ spec.recipient_text (plain_entry entry.now)) }
{
    match entry.header.to.as_slice() {
        [] => append_first_name(line, entry.header.cc.as_slice()),
        to => append_first_name(line, to),
    }
}

/// The first author.
pub fn author_text(alloc: Global, entry: &Entry<'_>) -> Result<Line, NoMemory>
    ensures { IfOk result (λ line. line.items ≡ spec.author_text (plain_entry entry.now)) }
{
    let mut line = Line::new(alloc);
    append_author(&mut line, entry)?;
    Ok(line)
}

/// The first recipient.
pub fn recipient_text(alloc: Global, entry: &Entry<'_>) -> Result<Line, NoMemory>
    ensures { IfOk result (λ line. line.items ≡ spec.recipient_text (plain_entry entry.now)) }
{
    let mut line = Line::new(alloc);
    append_recipient(&mut line, entry)?;
    Ok(line)
}

/// The address of the first author.
pub fn address_text(alloc: Global, entry: &Entry<'_>) -> Result<Line, NoMemory>
    ensures { IfOk result (λ line. line.items ≡ spec.address_text (plain_entry entry.now)) }
{
    match entry.header.authors.as_slice() {
        [] => Ok(Line::new(alloc)),
        [first, ..] => shown(alloc, first.address.as_slice()),
    }
}

/// The recipient where the reader is the author, else the author.
pub fn other_text(alloc: Global, entry: &Entry<'_>) -> Result<Line, NoMemory>
    ensures { IfOk result (λ line. line.items ≡ spec.other_text (plain_entry entry.now)) }
{
    if !entry.ties.from_reader {
        return author_text(alloc, entry);
    }
    let mut line = Line::new(alloc);
    line.append("To ")?;
    append_recipient(&mut line, entry)?;
    Ok(line)
}

/// The list to which the message was sent, else the same.
pub fn list_text(alloc: Global, entry: &Entry<'_>) -> Result<Line, NoMemory>
    ensures { IfOk result (λ line. line.items ≡ spec.list_text (plain_entry entry.now)) }
{
    let Some(list) = &entry.ties.list else {
        return other_text(alloc, entry);
    };
    let mut line = Line::new(alloc);
    line.append("To ")?;
    append_utf8(&mut line, list.as_slice())?;
    Ok(line)
}
