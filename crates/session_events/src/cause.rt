//! Why a folder was not read or not written, as it is told.

ghost use Rattle.std.specs.Prelude.{◌≡◌, ◌++◌, codes, OnOk, IfOk};
ghost use Rattle.std.specs.Fmt.{decimal};
ghost use Rattle.session_events.specs.Causes as spec;
ghost use Rattle.session_events.specs.Events.{plain_refusal};

use folder_changes::{Spot, SyncError};
use folder_core::ScanError;
use mail_base::{Line, NoMemory, append_utf8, behind, behind_text};
use std::alloc::Global;

/// Adds why a folder was not read.
pub fn append_cause(alloc: Global, text: &mut Line, why: ScanError) -> Result<(), NoMemory>
    ensures { OnOk result (text.new.items ≡ text.old.items ++ spec.scan_cause why) }
{
    match why {
        ScanError::Missing => text.append("missing"),
        ScanError::NotMailbox(place) => append_numbered(alloc, text, "not a mailbox (", place),
        ScanError::TooMany(count) => append_numbered(alloc, text, "too many messages (", count),
        ScanError::TooLarge(length) => append_numbered(alloc, text, "too large (", length),
        ScanError::Unfinished => text.append("unfinished"),
        ScanError::ArchiveFull => text.append("archive full"),
        ScanError::Fault => text.append("disk fault"),
        ScanError::NoMemory => text.append("no memory"),
    }
}

// Adds a text and a number.
fn append_number(alloc: Global, text: &mut Line, front: &str, number: u64) -> Result<(), NoMemory>
    ensures { OnOk result (text.new.items ≡ text.old.items ++ (front.now ++ decimal number)) }
{
    text.append(front)?;
    text.append(number.to_string(alloc)?.as_str())
}

// Adds a text, a number and a closing parenthesis.
fn append_numbered(alloc: Global, text: &mut Line, front: &str, number: u64) -> Result<(), NoMemory>
    ensures { OnOk result (text.new.items ≡ text.old.items ++ spec.numbered front.now number) }
{
    append_number(alloc, text, front, number)?;
    text.append(")")
}

/// What is told of a check that was refused.
pub fn refusal_line(alloc: Global, why: ScanError) -> Result<Line, NoMemory>
    ensures { IfOk result (λ line. line.items ≡ spec.check_refusal why) }
{
    let mut line = Line::new(alloc);
    line.append("Check failed: ")?;
    append_cause(alloc, &mut line, why)?;
    Ok(line)
}

// The path below a folder, and any other path whole.
fn path_below<'a>(folder: &[u8], name: &'a [u8]) -> &'a [u8]
    ensures { result.now ≡ spec.path_below folder.now name.now }
{
    match behind_text(folder, name) {
        Some(rest) => behind(b'/', rest).unwrap_or(name),
        None => name,
    }
}

// Adds what is not as it is known.
fn append_spot(alloc: Global, text: &mut Line, folder: &str, spot: &Spot) -> Result<(), NoMemory>
    ensures { OnOk result (text.new.items
        ≡ text.old.items ++ spec.spot_told folder.now spot.now) }
{
    match spot {
        Spot::Name(name) => {
            text.append("Mailbox changed: ")?;
            append_utf8(text, path_below(folder.as_bytes(), name.as_slice()))
        }
        Spot::At(place) => append_number(alloc, text, "Mailbox changed at ", *place),
    }
}

// Adds why a sync of the folder was refused.
fn append_sync_refusal(
    alloc: Global,
    text: &mut Line,
    folder: &str,
    why: &SyncError,
) -> Result<(), NoMemory>
    ensures { OnOk result (text.new.items
        ≡ text.old.items ++ spec.sync_refusal folder.now (plain_refusal why.now)) }
{
    match why {
        SyncError::Locked => text.append("Mailbox is locked."),
        SyncError::Unfinished => text.append("Mailbox is unfinished."),
        SyncError::Changed(spot) => append_spot(alloc, text, folder, spot),
        SyncError::TooMany(_) | SyncError::TooLarge(_) => text.append("Mailbox is too full."),
        SyncError::Fault => text.append("Disk fault."),
        SyncError::NoMemory => text.append("No memory."),
        SyncError::NotFolder => text.append("Not a mailbox."),
    }
}

/// What is told of a sync that was refused, of the folder at a path.
pub fn sync_refusal_line(alloc: Global, folder: &str, why: &SyncError) -> Result<Line, NoMemory>
    ensures { IfOk result (λ line. line.items
        ≡ spec.sync_refusal folder.now (plain_refusal why.now)) }
{
    let mut line = Line::new(alloc);
    append_sync_refusal(alloc, &mut line, folder, why)?;
    Ok(line)
}
