//! What a call that writes has answered.

use case_files::{Answer, CaseFault};
use folder_changes::{Spot, SyncError};
use mail_base::Bytes;
use std::alloc::Global;

/// Puts `done`, or why a call was refused.
pub fn put_outcome(
    alloc: Global,
    answer: &mut Answer,
    key: &[u8],
    outcome: &Result<(), SyncError>,
) -> Result<(), CaseFault> {
    match outcome {
        Ok(()) => answer.put(key, b"done"),
        Err(why) => put_refusal(alloc, answer, key, why),
    }
}

fn put_refusal(
    alloc: Global,
    answer: &mut Answer,
    key: &[u8],
    why: &SyncError,
) -> Result<(), CaseFault> {
    match why {
        SyncError::Locked => answer.put(key, b"locked"),
        SyncError::Unfinished => answer.put(key, b"unfinished"),
        SyncError::Changed(Spot::Name(name)) => put_changed(alloc, answer, key, name.as_slice()),
        SyncError::Changed(Spot::At(place)) => {
            answer.put_text(key, format!(in alloc; "changed at {place}")?.as_str())
        }
        SyncError::TooMany(_) => answer.put(key, b"too many"),
        SyncError::TooLarge(_) => answer.put(key, b"too large"),
        SyncError::Fault => answer.put(key, b"fault"),
        SyncError::NoMemory => Err(CaseFault::NoMemory),
        SyncError::NotFolder => answer.put(key, b"no folder"),
    }
}

fn put_changed(
    alloc: Global,
    answer: &mut Answer,
    key: &[u8],
    name: &[u8],
) -> Result<(), CaseFault> {
    let mut text = Bytes::copy_of(alloc, b"changed: ")?;
    text.append(name)?;
    answer.put(key, text.as_slice())
}
