//! Whether the messages of a file begin with known ones, by what stays of each.

ghost use Rattle.std.specs.Prelude.{◌≡◌, ◌∷◌, [], true, length, take, IfOk};
ghost use Rattle.std.specs.Str.{bytes_eq};
ghost use Rattle.folder_core.specs.Mbox as mbox;
ghost use Rattle.folder_drivers.specs.MboxFront as known_file;
ghost use Rattle.mbox_writes.specs.Fronts as spec;

use folder_core::{Region, Regions};
use mail_base::NoMemory;
use mbox_text::{CutError, core_of, cut_regions};
use std::alloc::Global;

/// Whether the messages of a mailbox that begins with the known bytes begin with theirs.
pub fn cores_begin(
    alloc: Global,
    known: &[u8],
    bytes: &[u8],
    regions: &[Region],
) -> Result<bool, NoMemory>
    requires mailbox { mbox.begins_mailbox bytes.now ≡ true }
    requires front { take (length known.now) bytes.now ≡ known.now }
    requires cut { regions.now ≡ mbox.regions bytes.now }
    ensures { IfOk result (λ same. same ≡ known_file.begin_with (known_file.cores known.now)
        (known_file.cores bytes.now)) }
{
    let known_regions = front_regions(alloc, known, bytes)?;
    let (mut left, mut there) = (known_regions.as_slice(), regions);
    while let [first, more @ ..] = left {
        let [region, rest @ ..] = there else {
            return Ok(false);
        };
        if !is_same(alloc, known, *first, bytes, *region)? {
            return Ok(false);
        }
        left = more;
        there = rest;
    }
    Ok(true)
}

// The regions of bytes with which a mailbox begins: they are one line where they begin none.
fn front_regions(alloc: Global, known: &[u8], bytes: &[u8]) -> Result<Regions, NoMemory>
    requires mailbox { mbox.begins_mailbox bytes.now ≡ true }
    requires front { take (length known.now) bytes.now ≡ known.now }
    ensures { IfOk result (λ r. r.items ≡ mbox.regions known.now) }
{
    match cut_regions(alloc, known) {
        Ok(regions) => Ok(regions),
        Err(CutError::NotMailbox) => one_region(alloc, known.len()),
        Err(CutError::NoMemory) => Err(NoMemory),
    }
}

// One region of so many bytes.
fn one_region(alloc: Global, end: usize) -> Result<Regions, NoMemory>
    ensures { IfOk result (λ r. r.items ≡ record { start = 0; end = end } ∷ []) }
{
    let mut regions = Regions::new(alloc);
    regions.push(Region { start: 0, end })?;
    Ok(regions)
}

// Whether the same stays of a message of known bytes and of one of a file that begins with them.
fn is_same(
    alloc: Global,
    known: &[u8],
    first: Region,
    bytes: &[u8],
    region: Region,
) -> Result<bool, NoMemory>
    requires front { take (length known.now) bytes.now ≡ known.now }
    requires known { spec.IsWithin (length known.now) first }
    requires there { spec.IsWithin (length bytes.now) region }
    ensures { IfOk result (λ same. same ≡ bytes_eq (spec.core_in known.now first)
        (spec.core_in bytes.now region)) }
{
    if first.start == region.start && first.end == region.end {
        return Ok(true);
    }
    let core = core_of(alloc, &known[first.start..first.end])?;
    let other = core_of(alloc, &bytes[region.start..region.end])?;
    Ok(core.as_slice() == other.as_slice())
}
