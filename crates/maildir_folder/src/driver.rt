//! The driver of folders of a file a message.

ghost use Rattle.std.specs.Prelude.{◌≡◌, [], IfOk, length, map, take};
ghost use Rattle.mail_base.specs.declared.kind.Kind.TheVariants.{Maildir};
ghost use Rattle.folder_core.specs.Costs.{RaisesAtMost, cores_together, letters_behind};
ghost use Rattle.folder_core.specs.DirectoryScan.{ListsFolder, ScansFolder};
ghost use Rattle.folder_letters.specs.Letters.{plain_letter};
ghost use Rattle.index_items.specs.Changes.{plain_changes};
ghost use Rattle.folder_changes.specs.Asked.{AreListed, AreOnce};
ghost use Rattle.folder_drivers.specs.Synced.{Syncs};
ghost use Rattle.folder_core.specs.Maildir.{maildir_format};
ghost use Rattle.folder_core.specs.MaildirNames.{order_of};
ghost use Rattle.folder_core.specs.Right.{Right};
ghost use Rattle.folder_core.specs.Scanned.{Scans};
ghost use Rattle.maildir_folder.specs.KnownBase.{CanSearch};
ghost use Rattle.maildir_folder.specs.Scan as spec;

use crate::files::list_files;
use crate::syncing::sync_folder;
use crate::walk::take_all;
use disk_model::{Device, Disk};
use folder_changes::{Item, SyncError};
use folder_core::{Archive, Found, Known, ListedSoFar, Listing, ScanError, put_listing};
use folder_drivers::Driver;
use folder_letters::Changes;
use folder_makes::make_maildir;
use mail_base::{Bytes, Kind, NoMemory, Stamps};
use maildir_appends::append;
use std::alloc::Global;

/// Reads folders of a file a message (maildir(5)), and does changes to their files.
#[derive(Drop)]
pub struct MaildirDriver;

impl MaildirDriver {
    pub fn new() -> Self {
        MaildirDriver
    }
}

impl Driver for MaildirDriver {
    ghost sort = { λ driver. Maildir };

    fn kind(&self) -> Kind {
        Kind::Maildir
    }

    fn scan(
        &self,
        alloc: Global,
        dev: &mut Device,
        known: &mut Known,
        archive: &mut Archive,
    ) -> Result<Found, ScanError> {
        scan_folder(alloc, &mut *dev.disk, known, archive)
    }

    /// Renames the files of messages whose flags change, and removes those of discarded ones. All
    /// files are looked for before the first of them is touched.
    fn sync(
        &self,
        alloc: Global,
        dev: &mut Device,
        known: &mut Known,
        owner: &[u8],
        purge_files: bool,
        archive: &Archive,
        changes: &Changes,
    ) -> Result<(), SyncError> {
        sync_changes(
            alloc,
            &mut *dev.disk,
            known,
            owner,
            purge_files,
            archive,
            changes,
        )
    }

    /// Does nothing: neither a sync nor an append leaves something over.
    fn recover(
        &self,
        _alloc: Global,
        _dev: &mut Device,
        _known: &mut Known,
        _owner: &[u8],
    ) -> Result<(), ScanError> {
        Ok(())
    }

    fn append(
        &self,
        alloc: Global,
        dev: &mut Device,
        path: &str,
        _owner: &[u8],
        archive: &Archive,
        item: &Item,
    ) -> Result<(), SyncError> {
        append(alloc, &mut *dev.disk, path, archive, item)
    }

    fn make(&self, alloc: Global, dev: &mut Device, path: &str) -> Result<(), SyncError> {
        make_maildir(alloc, &mut *dev.disk, path)
    }
}

// Does changes to the files of a Maildir, as the driver's `sync`: a discarded message's file always
// goes, so that there is nothing to purge.
fn sync_changes(
    alloc: Global,
    disk: &mut dyn Disk,
    known: &mut Known,
    _owner: &[u8],
    _purge_files: bool,
    archive: &Archive,
    changes: &Changes,
) -> Result<(), SyncError>
    requires right { Right Maildir (map plain_letter archive.now.items) known.old
        (seen disk.old).told }
    requires listed { AreListed known.old.listing (plain_changes changes.now.items) }
    requires once { AreOnce (plain_changes changes.now.items) }
    ensures { Syncs Maildir _owner.now _purge_files (map plain_letter archive.now.items)
        (plain_changes changes.now.items) known.old known.new result (seen disk.old)
        (seen disk.new) }
{
    sync_folder(alloc, disk, known, archive, changes.as_slice())
}

/// Reads a Maildir of which this is known, as the driver's `scan`.
fn scan_folder(
    alloc: Global,
    disk: &mut dyn Disk,
    known: &mut Known,
    archive: &mut Archive,
) -> Result<Found, ScanError>
    requires { Right Maildir (map plain_letter archive.old.items) known.old (seen disk.old).told }
    ensures { Scans Maildir archive.old.items archive.new.items known.old known.new result
        (seen disk.old) (seen disk.new) }
{
    let letters = archive.len();
    match list_known(alloc, disk, known, archive) {
        Ok(found) => Ok(found),
        Err(why) => {
            archive.shorten(letters);
            Err(why)
        }
    }
}

/// Lists the messages of a Maildir and keeps them as known. After a refusal letters may stand
/// behind those that were there.
fn list_known(
    alloc: Global,
    disk: &mut dyn Disk,
    known: &mut Known,
    archive: &mut Archive,
) -> Result<Found, ScanError>
    requires { Right Maildir (map plain_letter archive.old.items) known.old (seen disk.old).told }
    ensures scans { ScansFolder Maildir (map plain_letter archive.old.items)
        (map plain_letter archive.new.items) known.old known.new result
        (seen disk.old) (seen disk.new) }
    ensures front { take (length archive.old.items) archive.new.items ≡ archive.old.items }
{
    let letters = archive.len();
    let listing = match list_folder(alloc, disk, known, archive) {
        Ok(listing) => listing,
        Err(why) => return Err(why),
    };
    match put_listing(
        alloc,
        known,
        letters,
        listing,
        Bytes::new(alloc),
        Stamps::new(alloc),
    ) {
        Ok(found) => Ok(found),
        Err(NoMemory) => Err(ScanError::NoMemory),
    }
}

/// Adds the letters of the new messages of a Maildir to an archive, and answers the listing of all.
/// After a refusal letters may stand behind those that were there.
fn list_folder(
    alloc: Global,
    disk: &mut dyn Disk,
    known: &Known,
    archive: &mut Archive,
) -> Result<Listing, ScanError>
    requires { CanSearch (map plain_letter archive.old.items) known.now.listing }
    ensures lists { ListsFolder maildir_format order_of known.now
        (map plain_letter archive.old.items) (map plain_letter archive.new.items) result
        (λ listing. listing.items) (λ listing. []) (spec.MessagesSeen known.now.path)
        (seen disk.old) (seen disk.new) }
    ensures reads { IfOk result (λ listing. RaisesAtMost (seen disk.old).bytes_read
        (seen disk.new).bytes_read (cores_together (letters_behind
        (map plain_letter archive.old.items) (map plain_letter archive.new.items)))) }
    ensures front { take (length archive.old.items) archive.new.items ≡ archive.old.items }
{
    let files = list_files(alloc, disk, known.path())?;
    let mut so_far = ListedSoFar::new(alloc, archive.len());
    match take_all(alloc, disk, known, files.as_slice(), &mut so_far, archive) {
        Ok(()) => {}
        Err(why) => return Err(why),
    }
    match so_far.refusal() {
        Some(why) => Err(why),
        None => Ok(so_far.listing),
    }
}
