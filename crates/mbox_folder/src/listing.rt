//! The letters of a mailbox, and their listing.

ghost use Rattle.std.specs.Prelude.{◌≡◌, ◌≤◌, ◌+◌, ◌++◌, ◌<◌, ℕ, length, map, take, IfOk, IfErr};
ghost use Rattle.std.specs.List.{All};
ghost use Rattle.folder_letters.specs.Letters.{plain_letter};
ghost use Rattle.folder_core.specs.Keeping.{mails_of, with_mail};
ghost use Rattle.folder_core.specs.Limits.{count_refusal as count_refusal_lem, most_letters};
ghost use Rattle.folder_core.specs.Mbox.{Cover, mbox_letter, received as received_lem};
ghost use Rattle.folder_core.specs.Mbox.{core as spec_core};
ghost use Rattle.folder_letters.specs.Moments.{IsClockMoment};
ghost use Rattle.mbox_folder.specs.ListedFile.{IsUnlisted, ListsFile, letters_from, listed_from};
ghost use Rattle.mbox_folder.specs.ListedFile.{raws_in, stay_count, stays as spec_stays};

use folder_core::{
    Archive, Letter, Listed, Listing, MOST_LETTERS, MOST_MESSAGES, Region, ScanError, same_flags,
};
use mail_base::{Bytes, Id, NoMemory, first_line};
use mbox_text::{CutError, cut_regions, read_message, read_postmark};
use std::alloc::Global;

/// Lists the messages of a file: those at the front that stand as they are listed stay, the letters
/// of the others are added to the archive. After a refusal letters may stand behind those that were
/// there.
pub fn list_file(
    alloc: Global,
    bytes: &[u8],
    old: &[Listed],
    archive: &mut Archive,
) -> Result<Listing, ScanError>
    requires within { All (λ listed. listed.id.0 < length archive.old.items) old.now }
    ensures listed { IfOk result (λ listing. ListsFile bytes.now
        (map plain_letter archive.old.items) (map plain_letter archive.new.items) old.now
        listing.items) }
    ensures unlisted { IfErr result (IsUnlisted bytes.now
        (mails_of (map plain_letter archive.old.items) old.now) (length archive.old.items)) }
    ensures front { take (length archive.old.items) archive.new.items ≡ archive.old.items }
{
    let regions = match cut_regions(alloc, bytes) {
        Ok(regions) => regions,
        Err(CutError::NotMailbox) => return Err(ScanError::NotMailbox(0)),
        Err(CutError::NoMemory) => return Err(ScanError::NoMemory),
    };
    let staying = match count_staying(alloc, bytes, regions.as_slice(), old, archive.as_slice()) {
        Ok(staying) => staying,
        Err(NoMemory) => return Err(ScanError::NoMemory),
    };
    match count_refusal(archive.len(), regions.len() - staying, regions.len()) {
        Some(why) => return Err(why),
        None => {}
    }
    let (listed, fresh) = (&old[..staying], &regions.as_slice()[staying..]);
    match list_messages(alloc, bytes, fresh, listed, archive) {
        Ok(listing) => Ok(listing),
        Err(NoMemory) => Err(ScanError::NoMemory),
    }
}

/// Why so many messages, of which so many are new, are not listed beside an archive.
pub fn count_refusal(letters: usize, fresh: usize, count: usize) -> Option<ScanError>
    requires { fresh ≤ count }
    ensures { result ≡ count_refusal_lem letters fresh count }
{
    if count > MOST_MESSAGES {
        return Some(ScanError::TooMany(count as u64));
    }
    if letters > MOST_LETTERS - fresh {
        return Some(ScanError::ArchiveFull);
    }
    None
}

// How many messages at the front stand as they are listed.
fn count_staying(
    alloc: Global,
    bytes: &[u8],
    regions: &[Region],
    old: &[Listed],
    letters: &[Letter],
) -> Result<usize, NoMemory>
    requires cover { (from : ℕ) × Cover from (length bytes.now) regions.now }
    requires within { All (λ listed. listed.id.0 < length letters.now) old.now }
    ensures count { IfOk result (λ count. count
        ≡ stay_count (mails_of (map plain_letter letters.now) old.now)
        (raws_in bytes.now regions.now)) }
    ensures listed { IfOk result (λ count. count ≤ length old.now) }
    ensures there { IfOk result (λ count. count ≤ length regions.now) }
{
    let mut listed = old;
    let mut left = regions;
    let mut count = 0;
    while let [first, more @ ..] = listed {
        let [region, rest @ ..] = left else {
            return Ok(count);
        };
        if !stays(alloc, &bytes[region.start..region.end], *first, letters)? {
            return Ok(count);
        }
        count += 1;
        listed = more;
        left = rest;
    }
    Ok(count)
}

// Whether a message stands as it is listed.
fn stays(alloc: Global, raw: &[u8], listed: Listed, letters: &[Letter]) -> Result<bool, NoMemory>
    requires { listed.id.0 < length letters.now }
    ensures { IfOk result (λ same. same
        ≡ spec_stays (with_mail (map plain_letter letters.now) listed) raw.now) }
{
    let (core, flags) = read_message(alloc, raw)?;
    let known = letters[listed.id.0 as usize].core.as_slice();
    Ok(known == core.as_slice() && same_flags(listed.flags, flags))
}

// Adds the letters of the messages to an archive, and answers their listing behind those that
// stay listed.
fn list_messages(
    alloc: Global,
    bytes: &[u8],
    regions: &[Region],
    staying: &[Listed],
    archive: &mut Archive,
) -> Result<Listing, NoMemory>
    requires cover { (from : ℕ) × Cover from (length bytes.now) regions.now }
    requires few { length archive.old.items + length regions.now ≤ most_letters }
    ensures letters { IfOk result (λ listing. map plain_letter archive.new.items
        ≡ map plain_letter archive.old.items ++ letters_from (length archive.old.items)
        (raws_in bytes.now regions.now)) }
    ensures listed { IfOk result (λ listing. listing.items
        ≡ staying.now ++ listed_from (length archive.old.items)
        (raws_in bytes.now regions.now)) }
    ensures front { take (length archive.old.items) archive.new.items ≡ archive.old.items }
{
    let mut listing = Listing::from_vec(staying.to_vec(alloc)?);
    listing.reserve(regions.len())?;
    let mut left = regions;
    while let [region, rest @ ..] = left {
        let raw = &bytes[region.start..region.end];
        let id = archive.len() as u32;
        let (core, flags) = read_message(alloc, raw)?;
        listing.push(Listed { id: Id(id), flags })?;
        archive.push(letter_of(alloc, core, raw, id))?;
        left = rest;
    }
    Ok(listing)
}

// The letter of a message, of which that stays.
fn letter_of(alloc: Global, core: Bytes, raw: &[u8], id: u32) -> Letter
    requires { core.items ≡ spec_core raw.now }
    ensures { plain_letter result ≡ mbox_letter id raw.now }
{
    Letter {
        order: u64::from(id),
        key: Bytes::new(alloc),
        text_at: first_line(core.as_slice()).len(),
        core,
        received: received(raw),
    }
}

// The moment of a message's postmark, or 0 where it has none.
fn received(raw: &[u8]) -> i64
    ensures value { result ≡ received_lem raw.now }
    ensures range { IsClockMoment result }
{
    read_postmark(first_line(raw)).unwrap_or(0)
}
