//! The texts of the letters of a row.

ghost use Rattle.std.specs.Prelude.{◌≡◌, IfOk};
ghost use Rattle.index_rows.specs.Entry as entries;
ghost use Rattle.index_rows.specs.Entry.{plain_entry};
ghost use Rattle.index_rows.specs.Texts as spec;

use crate::date::date_text;
use crate::entry::Entry;
use crate::persons::{address_text, author_text, list_text, other_text, recipient_text};
use crate::status_chars::{first_status, status_text};
use crate::text::{number_text, shown};
use headers::{FoldedField, SentDate};
use mail_base::{Line, NoMemory};
use std::alloc::Global;

// The id of the message, if it has one.
fn id_text(alloc: Global, entry: &Entry<'_>) -> Result<Line, NoMemory>
    ensures { IfOk result (λ line. line.items ≡ spec.id_text (plain_entry entry.now)) }
{
    match &entry.header.message_id {
        Some(id) => shown(alloc, id.as_slice()),
        None => shown(alloc, b""),
    }
}

// The X-Label, as it stands.
fn label_text(alloc: Global, entry: &Entry<'_>) -> Result<Line, NoMemory>
    ensures { IfOk result (λ line. line.items ≡ spec.label_text (plain_entry entry.now)) }
{
    match FoldedField::named(entry.raw, b"x-label") {
        Some(field) => shown(alloc, field.join(alloc)?.as_slice()),
        None => shown(alloc, b""),
    }
}

// What stands before the subject, and the subject.
fn subject_text(alloc: Global, entry: &Entry<'_>) -> Result<Line, NoMemory>
    ensures { IfOk result (λ line. line.items ≡ spec.tree_and_subject (plain_entry entry.now)) }
{
    let mut line = Line::new(alloc);
    line.append_bytes(entry.tree.as_slice())?;
    if entry.header.subject.len() == 0 {
        line.append("(no subject)")?;
    } else {
        line.append_bytes(entry.header.subject.as_slice())?;
    }
    Ok(line)
}

// When the message was sent; received, in UTC, where it does not say.
fn sent_date(entry: &Entry<'_>) -> SentDate
    ensures { result ≡ entries.sent_date (plain_entry entry.now) }
{
    match entry.header.sent {
        Some(sent) => sent,
        None => SentDate {
            seconds: entry.received,
            offset: 0,
        },
    }
}

// The date sent, in the sender's offset.
fn sender_date(alloc: Global, entry: &Entry<'_>, format: &[u8]) -> Result<Line, NoMemory>
    ensures { IfOk result
        (λ line. line.items ≡ spec.sender_date (plain_entry entry.now) format.now) }
{
    let SentDate { seconds, offset } = sent_date(entry);
    date_text(alloc, format, seconds, offset)
}

// The same in the reader's offset.
fn reader_date(alloc: Global, entry: &Entry<'_>, format: &[u8]) -> Result<Line, NoMemory>
    ensures { IfOk result
        (λ line. line.items ≡ spec.reader_date (plain_entry entry.now) format.now) }
{
    date_text(alloc, format, sent_date(entry).seconds, entry.offset)
}

/// The text of a letter; `format` is that of a date.
#[tactic(auto, unfolding(crate::specs::Texts::index_text))]
pub fn letter_text(
    alloc: Global,
    entry: &Entry<'_>,
    letter: u8,
    format: &[u8],
) -> Result<Line, NoMemory>
    ensures { IfOk result
        (λ line. line.items ≡ spec.index_text (plain_entry entry.now) letter format.now) }
{
    match letter {
        b'C' => number_text(alloc, entry.number),
        b'm' => number_text(alloc, entry.count),
        b'Z' => status_text(alloc, entry),
        b'S' => first_status(alloc, entry),
        b'{' => sender_date(alloc, entry, format),
        b'[' => reader_date(alloc, entry, format),
        b'a' => address_text(alloc, entry),
        b'n' => author_text(alloc, entry),
        b'F' => other_text(alloc, entry),
        b'L' => list_text(alloc, entry),
        b't' => recipient_text(alloc, entry),
        b'i' => id_text(alloc, entry),
        b's' => subject_text(alloc, entry),
        b'c' => number_text(alloc, entry.size),
        b'l' => number_text(alloc, entry.header.body_lines),
        b'N' => number_text(alloc, entry.score),
        b'y' => label_text(alloc, entry),
        _ => Ok(Line::new(alloc)),
    }
}
