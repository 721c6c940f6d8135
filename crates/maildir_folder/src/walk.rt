//! The walk over the files of a folder: each that is there becomes a letter and an entry of the
//! listing, as long as no limit is passed.

ghost use Rattle.std.specs.Prelude.{ℕ, ◌≡◌, ◌+◌, ◌<◌, ◌^◌, List, [], None, IfOk, OnOk, length, map};
ghost use Rattle.std.specs.Prelude.{option_map, take as take_lem};
ghost use Rattle.std.specs.List.{All};
ghost use Rattle.std.specs.String.{string_bytes};
ghost use Rattle.folder_letters.specs.Letters.{Mail, plain_letter};
ghost use Rattle.disk_model.specs.Journal.{ReadAll, StatPath};
ghost use Rattle.disk_model.specs.Tree.{node_at};
ghost use Rattle.folder_core.specs.Costs.{RaisesAtMost};
ghost use Rattle.folder_core.specs.ListedSoFar.{IsEmpty, LooksWithin, store_message, store_of};
ghost use Rattle.folder_core.specs.Looked.{FitsLimit, IsContent, Looked, content_read, stat_there};
ghost use Rattle.folder_core.specs.Maildir.{is_taken as is_taken_lem, maildir_format};
ghost use Rattle.folder_core.specs.Maildir.{maildir_letter};
ghost use Rattle.folder_core.specs.Maildir.{message_of, path_of};
ghost use Rattle.folder_core.specs.MaildirNames.{flags_of as flags_of_lem};
ghost use Rattle.folder_core.specs.MaildirNames.{split_name as split_name_lem};
ghost use Rattle.maildir_folder.specs.Candidates.{IsCandidate, Rises, plain_file};
ghost use Rattle.maildir_folder.specs.KnownBase.{CanSearch};
ghost use Rattle.maildir_folder.specs.Walk as spec;

use crate::candidates::Candidate;
use crate::known_base::{core_size, known_id};
use disk_model::{Disk, Stat};
use folder_core::{
    Archive, Content, Known, Letter, ListedSoFar, ScanError, content_of, look_at, path_in,
};
use mail_base::{Bytes, Flags, Id, NoMemory};
use maildir_names::{flags_of, split_name};
use std::alloc::Global;

/// The last moment of a clock.
const LAST_MOMENT: u64 = 253_000_000_000;

// Adds a message with these bytes that was not known.
fn add(
    alloc: Global,
    file: &Candidate,
    raw: Bytes,
    so_far: &mut ListedSoFar,
    archive: &mut Archive,
) -> Result<(), NoMemory>
    requires room { so_far.old.count + 1 < 2 ^ 64 }
    requires fresh { so_far.old.fresh + 1 < 2 ^ 64 }
    requires file { IsCandidate file.now }
    ensures ok { OnOk result (store_of so_far.new archive.new.items
        ≡ store_message maildir_format None (message_of (plain_file file.now) raw.items)
        (store_of so_far.old archive.old.items)) }
    ensures front { take_lem (length archive.old.items) archive.new.items ≡ archive.old.items }
{
    so_far.add(flags_in(file), letter_of(alloc, file, raw)?, archive)
}

// The content of a file, of at most so many bytes.
fn content_at(
    alloc: Global,
    disk: &mut dyn Disk,
    path: &str,
    file: &Candidate,
    limit: u64,
) -> Result<Content, ScanError>
    requires { IsCandidate file.now }
    ensures looked { Looked result (ReadAll (path_of path.now (plain_file file.now)) limit)
        (λ content tree. IsContent limit content tree (path_of path.now (plain_file file.now)))
        (seen disk.old) (seen disk.new) }
    ensures reads { RaisesAtMost (seen disk.old).bytes_read (seen disk.new).bytes_read
        (content_read result) }
    ensures fits { IfOk result (FitsLimit limit) }
{
    let at = match file_path(alloc, path, file) {
        Ok(at) => at,
        Err(NoMemory) => return Err(ScanError::NoMemory),
    };
    content_of(alloc, disk, at.as_str(), limit)
}

// What stands where a file is to be.
fn stat_at(
    alloc: Global,
    disk: &mut dyn Disk,
    path: &str,
    file: &Candidate,
) -> Result<Option<Stat>, ScanError>
    requires { IsCandidate file.now }
    ensures looked { Looked result (StatPath (path_of path.now (plain_file file.now)))
        (λ found tree. found
        ≡ stat_there (node_at tree (path_of path.now (plain_file file.now))))
        (seen disk.old) (seen disk.new) }
    ensures reads { RaisesAtMost (seen disk.old).bytes_read (seen disk.new).bytes_read 0 }
{
    let at = match file_path(alloc, path, file) {
        Ok(at) => at,
        Err(NoMemory) => return Err(ScanError::NoMemory),
    };
    look_at(disk, at.as_str())
}

// Looks for a file, and adds its message where it is there; tells whether it is.
fn read(
    alloc: Global,
    disk: &mut dyn Disk,
    path: &str,
    file: &Candidate,
    so_far: &mut ListedSoFar,
    archive: &mut Archive,
) -> Result<bool, ScanError>
    requires room { so_far.old.count + 1 < 2 ^ 64 }
    requires fresh { so_far.old.fresh + 1 < 2 ^ 64 }
    requires file { IsCandidate file.now }
    ensures taken { IfOk result (λ taken. (mails : List Mail) → spec.Takes mails path.now
        (plain_file file.now) None taken (store_of so_far.old archive.old.items)
        (store_of so_far.new archive.new.items) (seen disk.old) (seen disk.new)) }
    ensures walks { LooksWithin result so_far.old.bytes so_far.new.bytes (seen disk.old)
        (seen disk.new) }
    ensures front { take_lem (length archive.old.items) archive.new.items ≡ archive.old.items }
{
    match content_at(alloc, disk, path, file, so_far.limit())? {
        Content::NoFile => Ok(false),
        Content::TooLong(size) => {
            so_far.count_one(size);
            Ok(true)
        }
        Content::Whole(read) => match add(alloc, file, read.bytes, so_far, archive) {
            Ok(()) => Ok(true),
            Err(NoMemory) => Err(ScanError::NoMemory),
        },
    }
}

// Looks for the file of a known message, whose letter has so many bytes, and keeps it where it is
// there; tells whether it is.
fn keep(
    alloc: Global,
    disk: &mut dyn Disk,
    path: &str,
    file: &Candidate,
    id: Id,
    size: u64,
    so_far: &mut ListedSoFar,
) -> Result<bool, ScanError>
    requires room { so_far.old.count + 1 < 2 ^ 64 }
    requires file { IsCandidate file.now }
    ensures kept { IfOk result (λ kept. spec.Keeps path.now (plain_file file.now) id.0 size kept
        (store_of so_far.old []) (store_of so_far.new []) (seen disk.old) (seen disk.new)) }
    ensures walks { LooksWithin result so_far.old.bytes so_far.new.bytes (seen disk.old)
        (seen disk.new) }
{
    match stat_at(alloc, disk, path, file)? {
        None => Ok(false),
        Some(stat) => {
            if stat.folder {
                return Ok(false);
            }
            match so_far.keep(id, flags_in(file), size) {
                Ok(()) => Ok(true),
                Err(NoMemory) => Err(ScanError::NoMemory),
            }
        }
    }
}

// Looks for a file, and keeps its message where that is known, or else reads it; tells whether the
// file is there.
fn take(
    alloc: Global,
    disk: &mut dyn Disk,
    known: &Known,
    file: &Candidate,
    so_far: &mut ListedSoFar,
    archive: &mut Archive,
) -> Result<bool, ScanError>
    requires room { so_far.old.count + 1 < 2 ^ 64 }
    requires fresh { so_far.old.fresh + 1 < 2 ^ 64 }
    requires file { IsCandidate file.now }
    requires known { CanSearch (map plain_letter archive.old.items) known.now.listing }
    ensures taken { IfOk result (λ taken. spec.Takes (map plain_letter archive.old.items)
        known.now.path (plain_file file.now)
        (spec.keep_of (map plain_letter archive.old.items) known.now (plain_file file.now)) taken
        (store_of so_far.old archive.old.items) (store_of so_far.new archive.new.items)
        (seen disk.old) (seen disk.new)) }
    ensures walks { LooksWithin result so_far.old.bytes so_far.new.bytes (seen disk.old)
        (seen disk.new) }
    ensures front { take_lem (length archive.old.items) archive.new.items ≡ archive.old.items }
{
    let listing = known.listing().as_slice();
    match known_id(listing, archive.as_slice(), file.order, &file.base) {
        Some(id) => {
            let size = core_size(archive.as_slice(), id);
            match keep(alloc, disk, known.path(), file, id, size, so_far) {
                Ok(kept) => Ok(kept),
                Err(why) => Err(why),
            }
        }
        None => read(alloc, disk, known.path(), file, so_far, archive),
    }
}

// The same, but for a file whose base is that of the message that was taken last.
fn take_next(
    alloc: Global,
    disk: &mut dyn Disk,
    known: &Known,
    last: Option<&[u8]>,
    file: &Candidate,
    so_far: &mut ListedSoFar,
    archive: &mut Archive,
) -> Result<bool, ScanError>
    requires room { so_far.old.count + 1 < 2 ^ 64 }
    requires fresh { so_far.old.fresh + 1 < 2 ^ 64 }
    requires file { IsCandidate file.now }
    requires known { CanSearch (map plain_letter archive.old.items) known.now.listing }
    ensures taken { IfOk result (λ taken. spec.TakesNext (map plain_letter archive.old.items)
        known.now.path (option_map (λ r. r.now) last.entry) (plain_file file.now)
        (spec.keep_of (map plain_letter archive.old.items) known.now (plain_file file.now)) taken
        (store_of so_far.old archive.old.items) (store_of so_far.new archive.new.items)
        (seen disk.old) (seen disk.new)) }
    ensures walks { LooksWithin result so_far.old.bytes so_far.new.bytes (seen disk.old)
        (seen disk.new) }
    ensures front { take_lem (length archive.old.items) archive.new.items ≡ archive.old.items }
{
    if is_taken(last, &file.base) {
        return Ok(false);
    }
    take(alloc, disk, known, file, so_far, archive)
}

/// Looks for each of these files in turn, and keeps or adds the first message of each base.
pub fn take_all(
    alloc: Global,
    disk: &mut dyn Disk,
    known: &Known,
    files: &[Candidate],
    so_far: &mut ListedSoFar,
    archive: &mut Archive,
) -> Result<(), ScanError>
    requires each { All IsCandidate files.now }
    requires rises { Rises None (map plain_file files.now) }
    requires empty { IsEmpty (store_of so_far.old archive.old.items) }
    requires known { CanSearch (map plain_letter archive.old.items) known.now.listing }
    ensures walked { OnOk result (spec.IsWalked (map plain_letter archive.old.items) known.now
        (map plain_file files.now) (store_of so_far.old archive.old.items)
        (store_of so_far.new archive.new.items) (seen disk.old) (seen disk.new)) }
    ensures walks { LooksWithin result so_far.old.bytes so_far.new.bytes (seen disk.old)
        (seen disk.new) }
    ensures front { take_lem (length archive.old.items) archive.new.items ≡ archive.old.items }
{
    let mut last: Option<&[u8]> = None;
    let mut left = files;
    while let [file, rest @ ..] = left {
        let taken = match take_next(alloc, disk, known, last, file, so_far, archive) {
            Ok(taken) => taken,
            Err(why) => return Err(why),
        };
        if taken {
            last = Some(file.base.as_slice());
        }
        left = rest;
    }
    Ok(())
}

// Whether the base is that of the message that was taken last.
fn is_taken(last: Option<&[u8]>, base: &[u8]) -> bool
    ensures { result ≡ is_taken_lem (option_map (λ r. r.now) last.entry) base.now }
{
    match last {
        Some(last) => last == base,
        None => false,
    }
}

/// The path of a file.
pub fn file_path(alloc: Global, path: &str, file: &Candidate) -> Result<String, NoMemory>
    requires { IsCandidate file.now }
    ensures { IfOk result (λ at. string_bytes at ≡ path_of path.now (plain_file file.now)) }
{
    let dir = path_in(alloc, path, if file.is_new { "new" } else { "cur" })?;
    let Ok(name) = str::from_utf8(&file.name) else {
        unreachable!()
    };
    path_in(alloc, dir.as_str(), name)
}

// The flags that the name of a file tells.
fn flags_in(file: &Candidate) -> Flags
    ensures { result
        ≡ flags_of_lem (plain_file file.now).in_cur (split_name_lem file.now.name.items).1 }
{
    let (_, letters) = split_name(&file.name);
    flags_of(!file.is_new, letters)
}

// The letter of a message.
fn letter_of(alloc: Global, file: &Candidate, raw: Bytes) -> Result<Letter, NoMemory>
    requires { IsCandidate file.now }
    ensures { IfOk result (λ letter. (id : ℕ)
        → plain_letter letter ≡ maildir_letter id (message_of (plain_file file.now) raw.items)) }
{
    Ok(Letter {
        order: file.order,
        key: Bytes::copy_of(alloc, &file.base)?,
        core: raw,
        text_at: 0,
        received: file.order.min(LAST_MOMENT) as i64,
    })
}
