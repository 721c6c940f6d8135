//! A file as it was read, against what is known of it.

ghost use Rattle.std.specs.Prelude.{◌≡◌, ◌≤◌, None, true, length, nat_lt, IfErr, IfOk, OnOk};
ghost use Rattle.folder_core.specs.Limits.{most_messages};
ghost use Rattle.folder_core.specs.Mbox as mbox;
ghost use Rattle.folder_drivers.specs.MboxFront as known_file;
ghost use Rattle.mbox_writes.specs.Fronts as spec;

use crate::same_cores::cores_begin;
use folder_core::{MOST_MESSAGES, Region, Regions};
use mail_base::NoMemory;
use mbox_text::{CutError, cut_regions};
use std::alloc::Global;
use thiserror::Error;

/// Why a file is not the one that is known, with what was put behind it.
#[derive(Clone, Copy, Debug, PartialEq, Eq, Error)]
pub enum FrontError {
    /// The file is another one from this byte on. Behind the known bytes it is so where with what
    /// stands there the known messages are others, as behind a last line without LF.
    #[error("differs from what is known ({0})")]
    Differs(u64),
    /// The file holds so many messages, more than are listed.
    #[error("too many messages ({0})")]
    TooMany(u64),
    /// Memory ran out.
    #[error("no memory")]
    NoMemory,
}

impl From<NoMemory> for FrontError {
    ghost use Rattle.mbox_writes.specs.declared.front.FrontError.TheVariants as FrontError;

    ghost from_gives = { λ _ e. e ≡ FrontError.NoMemory };

    fn from(_: NoMemory) -> Self {
        FrontError::NoMemory
    }
}

/// The places of the messages in a file that begins with the known bytes and with their messages,
/// by what stays of each. The known bytes may be none, or those of no mailbox.
pub fn known_front(alloc: Global, bytes: &[u8], known: &[u8]) -> Result<Regions, FrontError>
    ensures front { IfOk result (λ r. spec.IsFront known.now bytes.now r.items) }
    ensures known { OnOk result (spec.front_refusal known.now bytes.now ≡ None) }
    // But for want of memory each refusal comes where it is due, and no other does.
    ensures refused { IfErr result (λ why.
        spec.IsCause why (spec.front_refusal known.now bytes.now)) }
{
    let regions = match cut_regions(alloc, bytes) {
        Ok(regions) => regions,
        Err(CutError::NotMailbox) => {
            return Err(FrontError::Differs(common_length(known, bytes) as u64));
        }
        Err(CutError::NoMemory) => return Err(FrontError::NoMemory),
    };
    let count = regions.len();
    if are_too_many(count) {
        return Err(FrontError::TooMany(count as u64));
    }
    match difference(alloc, known, bytes, regions.as_slice())? {
        None => Ok(regions),
        Some(place) => Err(FrontError::Differs(place as u64)),
    }
}

// Whether so many messages are more than are listed.
fn are_too_many(count: usize) -> bool
    ensures { result ≡ nat_lt most_messages count }
{
    count > MOST_MESSAGES
}

// Where a mailbox is first another one than is known.
fn difference(
    alloc: Global,
    known: &[u8],
    bytes: &[u8],
    regions: &[Region],
) -> Result<Option<usize>, NoMemory>
    requires mailbox { mbox.begins_mailbox bytes.now ≡ true }
    requires cut { regions.now ≡ mbox.regions bytes.now }
    ensures { IfOk result (λ place. place ≡ known_file.first_difference known.now bytes.now) }
{
    let common = common_length(known, bytes);
    if common < known.len() {
        return Ok(Some(common));
    }
    if cores_begin(alloc, known, bytes, regions)? {
        return Ok(None);
    }
    Ok(Some(known.len()))
}

// How many bytes two texts have alike, from their start on.
fn common_length(known: &[u8], bytes: &[u8]) -> usize
    ensures value { result ≡ known_file.common_length known.now bytes.now }
    ensures within { result ≤ length known.now }
{
    let (mut left, mut there) = (known, bytes);
    let mut count = 0;
    while let [a, more @ ..] = left {
        let [b, rest @ ..] = there else {
            return count;
        };
        if *a != *b {
            return count;
        }
        count += 1;
        left = more;
        there = rest;
    }
    count
}
