//! The characters of a message's status.

ghost use Rattle.std.specs.Prelude.{◌≡◌, ◌∷◌, [], IfOk};
ghost use Rattle.mail_base.specs.Shown.{utf8_text};
ghost use Rattle.index_rows.specs.Entry.{plain_entry};
ghost use Rattle.index_rows.specs.Texts as spec;

use crate::entry::Entry;
use crate::shut::Shut;
use mail_base::{Flags, Line, NoMemory, append_utf8};
use std::alloc::Global;

// N for new, O for old and unread, r for replied.
fn read_char(flags: Flags) -> u8
    ensures { result ≡ spec.read_char flags }
{
    match (flags.seen, flags.replied, flags.aged) {
        (true, true, _) => b'r',
        (true, false, _) => b' ',
        (false, _, true) => b'O',
        (false, _, false) => b'N',
    }
}

// The same of a message that stands for a shut thread, or for itself.
fn thread_char(shut: Option<Shut>, flags: Flags) -> u8
    ensures { result ≡ spec.thread_char shut flags }
{
    match shut {
        Some(Shut { has_new: true, .. }) => b'n',
        Some(Shut { has_old: true, .. }) => b'o',
        _ => read_char(flags),
    }
}

fn deleted_char(deleted: bool) -> u8
    ensures { result ≡ spec.deleted_char deleted }
{
    if deleted { b'D' } else { b' ' }
}

// Tagged, flagged, or what the message is to its reader.
fn tag_char(entry: &Entry<'_>) -> u8
    ensures { result ≡ spec.tag_char (plain_entry entry.now) }
{
    if entry.tagged {
        return b'*';
    }
    if entry.flags.flagged {
        return b'!';
    }
    let place = usize::from(entry.ties.place);
    entry.to_chars.get(place).copied().unwrap_or(b' ')
}

/// The three characters of the status.
pub fn status_text(alloc: Global, entry: &Entry<'_>) -> Result<Line, NoMemory>
    ensures { IfOk result (λ line. line.items ≡ spec.status_text (plain_entry entry.now)) }
{
    let first = thread_char(entry.shut, entry.flags);
    let status = [first, deleted_char(entry.deleted), tag_char(entry)];
    let mut line = Line::new(alloc);
    append_utf8(&mut line, &status)?;
    Ok(line)
}

/// The first of them.
pub fn first_status(alloc: Global, entry: &Entry<'_>) -> Result<Line, NoMemory>
    ensures { IfOk result (λ line. line.items ≡ spec.first_status (plain_entry entry.now)) }
{
    let mut line = Line::new(alloc);
    append_utf8(&mut line, &[thread_char(entry.shut, entry.flags)])?;
    Ok(line)
}
