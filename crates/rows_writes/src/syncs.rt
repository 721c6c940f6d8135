//! Cases of folders whose changes are written by the driver of their kind.

ghost use Rattle.std.specs.Prelude.{◌≡◌, OnOk, Any, map};
ghost use Rattle.folder_core.specs.Right.{Right};
ghost use Rattle.folder_letters.specs.Letters.{plain_letter};

use crate::asked::{changes_of, may_sync};
use crate::flags::letters_of;
use crate::outcome::put_outcome;
use crate::playing::{folder_of, owner_of, put_played};
use case_disks::text_of;
use case_files::{Answer, Case, CaseFault, Entry, Subject};
use disk_model::Device;
use folder_core::{Archive, Known, Listed};
use folder_drivers::Drivers;
use mail_base::Kind;
use std::alloc::Global;

/// An `mbox`, a `maildir` or an `mh` is scanned at each `scan`, and written at each `sync`, whose
/// value is what is to change, under the lock of the `owner`. Where `purge` stands, files that are
/// discarded go for good. Behind each step stands what it answered, and the listing that is known
/// then; behind all of them stands the tree.
pub struct Syncs;

impl Subject for Syncs {
    fn inputs(&self) -> &[&[u8]] {
        &[
            b"file", b"folder", b"failing", b"stop", b"others", b"mbox", b"maildir", b"mh",
            b"owner", b"scan", b"sync", b"recover", b"purge",
        ]
    }

    fn answer(&self, alloc: Global, case: &Case, answer: &mut Answer) -> Result<(), CaseFault> {
        put_played(alloc, answer, case)
    }
}

/// A step of a case.
enum Step {
    Scan,
    Sync,
    Recover,
    Other,
}

fn step_of(key: &[u8]) -> Step {
    match key {
        b"scan" => Step::Scan,
        b"sync" => Step::Sync,
        b"recover" => Step::Recover,
        _ => Step::Other,
    }
}

/// Takes each step of the case.
pub fn put_steps(
    alloc: Global,
    answer: &mut Answer,
    dev: &mut Device,
    drivers: &Drivers,
    case: &Case,
) -> Result<(), CaseFault> {
    let (kind, path) = folder_of(case)?;
    if drivers.has(kind) {
        put_each(alloc, answer, dev, drivers, kind, text_of(path)?, case)
    } else {
        Err(CaseFault::BadInput)
    }
}

fn put_each(
    alloc: Global,
    answer: &mut Answer,
    dev: &mut Device,
    drivers: &Drivers,
    kind: Kind,
    path: &str,
    case: &Case,
) -> Result<(), CaseFault>
    requires has { Any (λ d. sort (d.vtable, d.value) ≡ kind) drivers.now.list.items }
{
    let mut known = Known::new(alloc, path, kind)?;
    let mut archive = Archive::new(alloc);
    for entry in case.entries.as_slice() {
        put_step(
            alloc,
            answer,
            dev,
            drivers,
            kind,
            case,
            &mut known,
            &mut archive,
            entry,
        )?;
    }
    Ok(())
}

fn put_step(
    alloc: Global,
    answer: &mut Answer,
    dev: &mut Device,
    drivers: &Drivers,
    kind: Kind,
    case: &Case,
    known: &mut Known,
    archive: &mut Archive,
    entry: &Entry,
) -> Result<(), CaseFault>
    requires has { Any (λ d. sort (d.vtable, d.value) ≡ kind) drivers.now.list.items }
    requires right { Right kind (map plain_letter archive.old.items) known.old
        (seen (dev.old.disk.vtable, dev.old.disk.value)).told }
    ensures right { OnOk result (Right kind (map plain_letter archive.new.items) known.new
        (seen (dev.new.disk.vtable, dev.new.disk.value)).told) }
{
    if known.kind() != kind {
        return Err(CaseFault::BadInput);
    }
    match step_of(entry.key.as_slice()) {
        Step::Scan => put_scan(alloc, answer, dev, drivers, kind, known, archive),
        Step::Sync => {
            let value = text_of(entry.value.as_slice())?;
            put_sync(
                alloc, answer, dev, drivers, kind, case, known, archive, value,
            )
        }
        Step::Recover => put_recover(alloc, answer, dev, drivers, kind, case, known, archive),
        Step::Other => Ok(()),
    }
}

fn put_scan(
    alloc: Global,
    answer: &mut Answer,
    dev: &mut Device,
    drivers: &Drivers,
    kind: Kind,
    known: &mut Known,
    archive: &mut Archive,
) -> Result<(), CaseFault>
    requires has { Any (λ d. sort (d.vtable, d.value) ≡ kind) drivers.now.list.items }
    requires kind { known.old.kind ≡ kind }
    requires right { Right kind (map plain_letter archive.old.items) known.old
        (seen (dev.old.disk.vtable, dev.old.disk.value)).told }
    ensures right { OnOk result (Right kind (map plain_letter archive.new.items) known.new
        (seen (dev.new.disk.vtable, dev.new.disk.value)).told) }
{
    match drivers.scan(alloc, kind, dev, known, archive) {
        Ok(_) => {}
        Err(error) => {
            answer.put_text(b"unread", format!(in alloc; "{error}")?.as_str())?;
        }
    }
    put_listing(alloc, answer, known)
}

fn put_sync(
    alloc: Global,
    answer: &mut Answer,
    dev: &mut Device,
    drivers: &Drivers,
    kind: Kind,
    case: &Case,
    known: &mut Known,
    archive: &Archive,
    value: &str,
) -> Result<(), CaseFault>
    requires has { Any (λ d. sort (d.vtable, d.value) ≡ kind) drivers.now.list.items }
    requires kind { known.old.kind ≡ kind }
    requires right { Right kind (map plain_letter archive.now.items) known.old
        (seen (dev.old.disk.vtable, dev.old.disk.value)).told }
    ensures right { OnOk result (Right kind (map plain_letter archive.now.items) known.new
        (seen (dev.new.disk.vtable, dev.new.disk.value)).told) }
{
    let changes = changes_of(alloc, value)?;
    if !may_sync(known.listing().as_slice(), changes.as_slice()) {
        return answer.put(b"synced", b"not listed once each");
    }
    let purge = case.find(b"purge").is_some();
    let owner = owner_of(case);
    let outcome = drivers.sync(alloc, kind, dev, known, owner, purge, archive, &changes);
    put_outcome(alloc, answer, b"synced", &outcome)?;
    put_listing(alloc, answer, known)
}

fn put_recover(
    alloc: Global,
    answer: &mut Answer,
    dev: &mut Device,
    drivers: &Drivers,
    kind: Kind,
    case: &Case,
    known: &mut Known,
    archive: &Archive,
) -> Result<(), CaseFault>
    requires has { Any (λ d. sort (d.vtable, d.value) ≡ kind) drivers.now.list.items }
    requires kind { known.old.kind ≡ kind }
    requires right { Right kind (map plain_letter archive.now.items) known.old
        (seen (dev.old.disk.vtable, dev.old.disk.value)).told }
    ensures right { OnOk result (Right kind (map plain_letter archive.now.items) known.new
        (seen (dev.new.disk.vtable, dev.new.disk.value)).told) }
{
    match drivers.recover(alloc, kind, dev, known, owner_of(case)) {
        Ok(()) => answer.put(b"recovered", b"done"),
        Err(error) => answer.put_text(b"recovered", format!(in alloc; "{error}")?.as_str()),
    }
}

fn put_listing(alloc: Global, answer: &mut Answer, known: &Known) -> Result<(), CaseFault> {
    for listed in known.listing().as_slice() {
        put_listed(alloc, answer, listed)?;
    }
    Ok(())
}

fn put_listed(alloc: Global, answer: &mut Answer, listed: &Listed) -> Result<(), CaseFault> {
    let id = listed.id.0;
    let number = format!(in alloc; "{id} ")?;
    let letters = letters_of(listed.flags);
    answer.put_joined(
        b"listed",
        &[
            number.as_str(),
            letters[0],
            letters[1],
            letters[2],
            letters[3],
            letters[4],
            letters[5],
            letters[6],
        ],
    )
}
