//! Cases of folders that are scanned by the driver of their kind.

ghost use Rattle.std.specs.Prelude.{◌≡◌, OnOk, map};
ghost use Rattle.folder_core.specs.Right.{Right};
ghost use Rattle.folder_letters.specs.Letters.{plain_letter};

use case_disks::{disk_of, text_of};
use case_files::{Answer, Case, CaseFault, Subject};
use disk_model::Device;
use folder_core::{Archive, Found, Known, Letter, Listed, ScanError};
use folder_drivers::Driver;
use mail_base::{Flags, Id, Kind};
use maildir_folder::MaildirDriver;
use mbox_folder::MboxDriver;
use mh_folder::MhDriver;
use std::alloc::Global;

/// Each `scan` is the path of a mailbox, each `maildir` that of a Maildir, and each `mh` that of an
/// MH folder, into one archive; each is scanned as often as `times` says, at first once. What a
/// scan has found is how many messages came, the id of each that is gone, and each whose flags
/// changed. A listed message is its id and the letters of its flags, a letter its order, where its
/// text begins, and when it was received.
pub struct Scans;

impl Subject for Scans {
    fn inputs(&self) -> &[&[u8]] {
        &[
            b"file", b"folder", b"failing", b"stop", b"others", b"scan", b"maildir", b"mh",
            b"times",
        ]
    }

    fn answer(&self, alloc: Global, case: &Case, answer: &mut Answer) -> Result<(), CaseFault> {
        let mut dev = Device::new(Box::new(alloc, disk_of(alloc, case)?)?);
        let mut archive = Archive::new(alloc);
        put_scans(alloc, answer, &mut dev, case, &mut archive)?;
        put_letters(alloc, answer, &archive)
    }
}

fn put_scans(
    alloc: Global,
    answer: &mut Answer,
    dev: &mut Device,
    case: &Case,
    archive: &mut Archive,
) -> Result<(), CaseFault> {
    let times = case.number(b"times")?.unwrap_or(1);
    for entry in case.entries.as_slice() {
        if let Some(kind) = kind_named(entry.key.as_slice()) {
            let path = text_of(entry.value.as_slice())?;
            put_folder(alloc, answer, dev, kind, path, times, archive)?;
        }
    }
    Ok(())
}

/// The kind of folders whose scans a case names so.
fn kind_named(key: &[u8]) -> Option<Kind> {
    match key {
        b"scan" => Some(Kind::Mbox),
        b"maildir" => Some(Kind::Maildir),
        b"mh" => Some(Kind::Mh),
        _ => None,
    }
}

/// Scans a folder so many times, at first knowing nothing of it.
fn put_folder(
    alloc: Global,
    answer: &mut Answer,
    dev: &mut Device,
    kind: Kind,
    path: &str,
    times: u64,
    archive: &mut Archive,
) -> Result<(), CaseFault> {
    let mut known = Known::new(alloc, path, kind)?;
    for _time in 0..times {
        put_scan(alloc, answer, dev, kind, &mut known, archive)?;
    }
    Ok(())
}

/// Scans a folder, and puts what was found or why it was refused, and what is known then.
fn put_scan(
    alloc: Global,
    answer: &mut Answer,
    dev: &mut Device,
    kind: Kind,
    known: &mut Known,
    archive: &mut Archive,
) -> Result<(), CaseFault>
    requires kind { known.old.kind ≡ kind }
    requires right { Right kind (map plain_letter archive.old.items) known.old
        (seen (dev.old.disk.vtable, dev.old.disk.value)).told }
    ensures kind { OnOk result (known.new.kind ≡ kind) }
    ensures right { OnOk result (Right kind (map plain_letter archive.new.items) known.new
        (seen (dev.new.disk.vtable, dev.new.disk.value)).told) }
{
    let found = scan(alloc, dev, kind, known, archive);
    put_found(alloc, answer, found)?;
    put_known(alloc, answer, known)
}

/// Scans a folder by the driver of its kind; none reads MMDF.
fn scan(
    alloc: Global,
    dev: &mut Device,
    kind: Kind,
    known: &mut Known,
    archive: &mut Archive,
) -> Result<Found, ScanError>
    requires kind { known.old.kind ≡ kind }
    requires right { Right kind (map plain_letter archive.old.items) known.old
        (seen (dev.old.disk.vtable, dev.old.disk.value)).told }
    ensures kind { known.new.kind ≡ kind }
    ensures right { Right kind (map plain_letter archive.new.items) known.new
        (seen (dev.new.disk.vtable, dev.new.disk.value)).told }
{
    match kind {
        Kind::Mbox => MboxDriver::new().scan(alloc, dev, known, archive),
        Kind::Maildir => MaildirDriver::new().scan(alloc, dev, known, archive),
        Kind::Mh => MhDriver::new().scan(alloc, dev, known, archive),
        Kind::Mmdf => Err(ScanError::NotMailbox(0)),
    }
}

fn put_letters(alloc: Global, answer: &mut Answer, archive: &Archive) -> Result<(), CaseFault> {
    answer.put_count(b"letters", archive.len())?;
    for letter in archive.as_slice() {
        put_letter(alloc, answer, letter)?;
    }
    Ok(())
}

/// Puts what changed since the scan before, or why the scan was refused.
fn put_found(
    alloc: Global,
    answer: &mut Answer,
    found: Result<Found, ScanError>,
) -> Result<(), CaseFault> {
    match found {
        Ok(found) => put_changes(alloc, answer, &found),
        Err(error) => answer.put_text(b"refused", format!(in alloc; "{error}")?.as_str()),
    }
}

fn put_changes(alloc: Global, answer: &mut Answer, found: &Found) -> Result<(), CaseFault> {
    answer.put_count(b"came", found.came.len())?;
    for Id(id) in found.gone.as_slice() {
        answer.put_text(b"gone", format!(in alloc; "{id}")?.as_str())?;
    }
    for listed in found.reflagged.as_slice() {
        put_listed(alloc, answer, b"reflagged", listed)?;
    }
    Ok(())
}

fn put_known(alloc: Global, answer: &mut Answer, known: &Known) -> Result<(), CaseFault> {
    for listed in known.listing().as_slice() {
        put_listed(alloc, answer, b"listed", listed)?;
    }
    answer.put_count(b"known bytes", known.bytes().len())?;
    for stamp in known.stamps().as_slice() {
        let stamp = *stamp;
        answer.put_text(b"stamp", format!(in alloc; "{stamp}")?.as_str())?;
    }
    Ok(())
}

fn put_listed(
    alloc: Global,
    answer: &mut Answer,
    key: &[u8],
    listed: &Listed,
) -> Result<(), CaseFault> {
    let id = listed.id.0;
    let Flags {
        seen,
        aged,
        replied,
        flagged,
        passed,
        draft,
        trashed,
    } = listed.flags;
    let number = format!(in alloc; "{id} ")?;
    let letters = [
        number.as_str(),
        letter_of(seen, "S"),
        letter_of(aged, "O"),
        letter_of(replied, "R"),
        letter_of(flagged, "F"),
        letter_of(passed, "P"),
        letter_of(draft, "D"),
        letter_of(trashed, "T"),
    ];
    answer.put_joined(key, &letters)
}

fn letter_of(flag: bool, letter: &str) -> &str {
    if flag { letter } else { "" }
}

fn put_letter(alloc: Global, answer: &mut Answer, letter: &Letter) -> Result<(), CaseFault> {
    let order = letter.order;
    let text_at = letter.text_at;
    let received = letter.received;
    let text = format!(in alloc; "{order} {text_at} {received}")?;
    answer.put_text(b"letter", text.as_str())?;
    answer.put(b"key", letter.key.as_slice())?;
    answer.put(b"core", letter.core.as_slice())
}
