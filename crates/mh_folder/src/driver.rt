//! The driver of folders of a numbered file a message.

ghost use Rattle.std.specs.Prelude.{◌≡◌, length, map, take};
ghost use Rattle.mail_base.specs.declared.kind.Kind.TheVariants.{Mh};
ghost use Rattle.folder_core.specs.DirectoryScan.{ListsFolder, ScansFolder};
ghost use Rattle.folder_letters.specs.Letters.{plain_letter};
ghost use Rattle.folder_core.specs.Mh.{mh_format, number_at};
ghost use Rattle.folder_core.specs.Right.{Right};
ghost use Rattle.folder_core.specs.Scanned.{Scans};
ghost use Rattle.folder_changes.specs.Asked.{AreListed, AreOnce};
ghost use Rattle.folder_drivers.specs.Recovered.{Recovers};
ghost use Rattle.folder_drivers.specs.Synced.{Syncs};
ghost use Rattle.index_items.specs.Changes.{plain_changes};
ghost use Rattle.mh_folder.specs.Scan as spec;

use crate::folder::list_numbers;
use crate::visit::begin_visit;
use crate::walk::Walk;
use disk_model::{Device, Disk};
use folder_changes::{Item, SyncError};
use folder_core::{Archive, Found, Known, Listing, ScanError, put_listing};
use folder_drivers::Driver;
use folder_letters::Changes;
use folder_makes::make_mh;
use mail_base::{Bytes, Kind, Stamps};
use mh_appends::{append, recover};
use mh_syncs::sync_folder;
use std::alloc::Global;

/// Reads and writes folders of a numbered file a message (mh-mail(5)).
#[derive(Drop)]
pub struct MhDriver;

impl MhDriver {
    pub fn new() -> Self {
        MhDriver
    }
}

impl Driver for MhDriver {
    ghost sort = { λ driver. Mh };

    fn kind(&self) -> Kind {
        Kind::Mh
    }

    fn scan(
        &self,
        alloc: Global,
        dev: &mut Device,
        known: &mut Known,
        archive: &mut Archive,
    ) -> Result<Found, ScanError> {
        scan_folder(alloc, &mut *dev.disk, known, archive)
    }

    /// Puts new sequences in place, and then takes the files of discarded messages away: to names
    /// of their own, or for good where they are to be purged.
    fn sync(
        &self,
        alloc: Global,
        dev: &mut Device,
        known: &mut Known,
        owner: &[u8],
        purge_files: bool,
        archive: &Archive,
        changes: &Changes,
    ) -> Result<(), SyncError> {
        sync_changes(
            alloc,
            &mut *dev.disk,
            known,
            owner,
            purge_files,
            archive,
            changes,
        )
    }

    /// Takes away what a call that was stopped left over: sequences and a message that were not put
    /// in place.
    fn recover(
        &self,
        alloc: Global,
        dev: &mut Device,
        known: &mut Known,
        owner: &[u8],
    ) -> Result<(), ScanError> {
        recover_known(alloc, &mut *dev.disk, known, owner)
    }

    fn append(
        &self,
        alloc: Global,
        dev: &mut Device,
        path: &str,
        _owner: &[u8],
        archive: &Archive,
        item: &Item,
    ) -> Result<(), SyncError> {
        append(alloc, &mut *dev.disk, path, archive, item)
    }

    fn make(&self, alloc: Global, dev: &mut Device, path: &str) -> Result<(), SyncError> {
        make_mh(alloc, &mut *dev.disk, path)
    }
}

// Does changes to a known MH folder, as the driver's `sync`.
fn sync_changes(
    alloc: Global,
    disk: &mut dyn Disk,
    known: &mut Known,
    _owner: &[u8],
    purge_files: bool,
    archive: &Archive,
    changes: &Changes,
) -> Result<(), SyncError>
    requires right { Right Mh (map plain_letter archive.now.items) known.old (seen disk.old).told }
    requires listed { AreListed known.old.listing (plain_changes changes.now.items) }
    requires once { AreOnce (plain_changes changes.now.items) }
    ensures { Syncs Mh _owner.now purge_files (map plain_letter archive.now.items)
        (plain_changes changes.now.items) known.old known.new result (seen disk.old)
        (seen disk.new) }
{
    sync_folder(alloc, disk, known, purge_files, archive, changes.as_slice())
}

// Takes away what was left over in a known MH folder, as the driver's `recover`.
fn recover_known(
    alloc: Global,
    disk: &mut dyn Disk,
    known: &mut Known,
    _owner: &[u8],
) -> Result<(), ScanError>
    ensures { Recovers Mh _owner.now known.old known.new result (seen disk.old) (seen disk.new) }
{
    recover(alloc, disk, known.path())
}

/// Reads a known MH folder, as the driver's `scan`.
fn scan_folder(
    alloc: Global,
    disk: &mut dyn Disk,
    known: &mut Known,
    archive: &mut Archive,
) -> Result<Found, ScanError>
    requires right { Right Mh (map plain_letter archive.old.items) known.old (seen disk.old).told }
    ensures { Scans Mh archive.old.items archive.new.items known.old known.new result
        (seen disk.old) (seen disk.new) }
{
    let letters = archive.len();
    match list_known(alloc, disk, known, archive) {
        Ok(found) => Ok(found),
        Err(why) => {
            archive.shorten(letters);
            Err(why)
        }
    }
}

/// Lists the messages of an MH folder and keeps them as known. After a refusal letters may stand
/// behind those that were there.
fn list_known(
    alloc: Global,
    disk: &mut dyn Disk,
    known: &mut Known,
    archive: &mut Archive,
) -> Result<Found, ScanError>
    requires right { Right Mh (map plain_letter archive.old.items) known.old (seen disk.old).told }
    ensures scans { ScansFolder Mh (map plain_letter archive.old.items)
        (map plain_letter archive.new.items) known.old known.new result
        (seen disk.old) (seen disk.new) }
    ensures front { take (length archive.old.items) archive.new.items ≡ archive.old.items }
{
    let letters = archive.len();
    let (listing, stamps) = list_folder(alloc, disk, known, archive)?;
    Ok(put_listing(alloc, known, letters, listing, Bytes::new(alloc), stamps)?)
}

/// Adds the letters of the new messages of a known MH folder to an archive, and answers the listing
/// and the stamps of the files. After a refusal letters may stand behind those that were there.
fn list_folder(
    alloc: Global,
    disk: &mut dyn Disk,
    known: &Known,
    archive: &mut Archive,
) -> Result<(Listing, Stamps), ScanError>
    requires right { Right Mh (map plain_letter archive.old.items) known.now (seen disk.old).told }
    ensures lists { ListsFolder mh_format number_at known.now (map plain_letter archive.old.items)
        (map plain_letter archive.new.items) result (λ listed. listed.0.items)
        (λ listed. listed.1.items) (spec.MessagesSeen known.now.path) (seen disk.old)
        (seen disk.new) }
    ensures front { take (length archive.old.items) archive.new.items ≡ archive.old.items }
{
    let files = match list_numbers(alloc, disk, known.path()) {
        Ok(files) => files,
        Err(why) => return Err(why),
    };
    let visit = match begin_visit(alloc, disk, known, archive) {
        Ok(visit) => visit,
        Err(why) => return Err(why),
    };
    let mut walk = Walk::new(alloc, archive.len());
    match walk.take_all(alloc, disk, known.path(), &visit, files.as_slice(), archive) {
        Ok(()) => {}
        Err(why) => return Err(why),
    }
    match walk.so_far.refusal() {
        Some(why) => Err(why),
        None => Ok((walk.so_far.listing, walk.stamps)),
    }
}
