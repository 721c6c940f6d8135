//! The driver of mailboxes in one file.

ghost use Rattle.std.specs.Prelude.{◌≡◌, ◌∷◌, [], ℕ, Some, None, length, map, take};
ghost use Rattle.std.specs.Prelude.{IfOk, IfErr, IfNone, OnErr};
ghost use Rattle.mail_base.specs.declared.kind.Kind.TheVariants.{Mbox};
ghost use Rattle.folder_letters.specs.Letters.{plain_letter};
ghost use Rattle.folder_core.specs.Keeping.{IsDifference, mails_of};
ghost use Rattle.folder_core.specs.Limits.{count_refusal as spec_refusal};
ghost use Rattle.folder_core.specs.Right.{Right};
ghost use Rattle.folder_core.specs.Scanned.{Scans};
ghost use Rattle.folder_changes.specs.Asked.{AreListed};
ghost use Rattle.folder_drivers.specs.Recovered.{Recovers};
ghost use Rattle.folder_drivers.specs.Synced.{Syncs};
ghost use Rattle.index_items.specs.Changes.{plain_changes};
ghost use Rattle.mbox_folder.specs.FileSeen.{bytes_now};
ghost use Rattle.mbox_folder.specs.ListedFile.{FindsFile, IsNothing, IsUnlisted};

use crate::listing::{count_refusal, list_file};
use crate::read::read_changed;
use disk_model::{Device, Disk, FileRead};
use folder_changes::{Item, SyncError};
use folder_core::{Archive, Found, Known, Listing, ScanError, put_listing};
use folder_drivers::Driver;
use folder_letters::Changes;
use folder_makes::make_mbox;
use folder_tails::finish_tail_on;
use mail_base::{Ids, Kind, NoMemory, Stamps};
use mbox_writes::{append_mailbox, sync_mailbox};
use std::alloc::Global;

/// Reads and writes mailboxes in one file (mbox(5)).
#[derive(Drop)]
pub struct MboxDriver;

impl MboxDriver {
    pub fn new() -> Self {
        MboxDriver
    }
}

impl Driver for MboxDriver {
    ghost sort = { λ driver. Mbox };

    fn kind(&self) -> Kind {
        Kind::Mbox
    }

    fn scan(
        &self,
        alloc: Global,
        dev: &mut Device,
        known: &mut Known,
        archive: &mut Archive,
    ) -> Result<Found, ScanError> {
        scan_file(alloc, &mut *dev.disk, known, archive)
    }

    /// Writes changes by way of a tail file, under a lock that the owner gives his line.
    fn sync(
        &self,
        alloc: Global,
        dev: &mut Device,
        known: &mut Known,
        owner: &[u8],
        purge_files: bool,
        archive: &Archive,
        changes: &Changes,
    ) -> Result<(), SyncError> {
        sync_changes(
            alloc,
            &mut *dev.disk,
            known,
            owner,
            purge_files,
            archive,
            changes,
        )
    }

    /// Finishes a new end that a stop left under a lock that is ours, or takes away what it left
    /// before that.
    fn recover(
        &self,
        alloc: Global,
        dev: &mut Device,
        known: &mut Known,
        owner: &[u8],
    ) -> Result<(), ScanError> {
        recover_file(alloc, &mut *dev.disk, known, owner)
    }

    /// Puts the message behind all others, by way of a tail file, under a lock that the owner gives
    /// his line.
    fn append(
        &self,
        alloc: Global,
        dev: &mut Device,
        path: &str,
        owner: &[u8],
        _archive: &Archive,
        item: &Item,
    ) -> Result<(), SyncError> {
        append_mailbox(alloc, &mut *dev.disk, path, owner, item)
    }

    fn make(&self, alloc: Global, dev: &mut Device, path: &str) -> Result<(), SyncError> {
        make_mbox(alloc, &mut *dev.disk, path)
    }
}

// Does changes to a mailbox, as the driver's `sync`.
fn sync_changes(
    alloc: Global,
    disk: &mut dyn Disk,
    known: &mut Known,
    owner: &[u8],
    _purge_files: bool,
    archive: &Archive,
    changes: &Changes,
) -> Result<(), SyncError>
    requires right { Right Mbox (map plain_letter archive.now.items) known.old
        (seen disk.old).told }
    requires listed { AreListed known.old.listing (plain_changes changes.now.items) }
    ensures { Syncs Mbox owner.now _purge_files (map plain_letter archive.now.items)
        (plain_changes changes.now.items) known.old known.new result (seen disk.old)
        (seen disk.new) }
{
    sync_mailbox(alloc, disk, known, owner, archive, changes.as_slice())
}

// Finishes or takes away what was left over, as the driver's `recover`.
fn recover_file(
    alloc: Global,
    disk: &mut dyn Disk,
    known: &mut Known,
    owner: &[u8],
) -> Result<(), ScanError>
    ensures { Recovers Mbox owner.now known.old known.new result (seen disk.old) (seen disk.new) }
{
    let mut held = known.held();
    let result = finish_tail_on(alloc, disk, known.path(), &mut held, owner);
    known.set_held(held);
    result
}

// Reads a mailbox of which this is known, as the driver's `scan`.
fn scan_file(
    alloc: Global,
    disk: &mut dyn Disk,
    known: &mut Known,
    archive: &mut Archive,
) -> Result<Found, ScanError>
    requires { Right Mbox (map plain_letter archive.old.items) known.old (seen disk.old).told }
    ensures { Scans Mbox archive.old.items archive.new.items known.old known.new result
        (seen disk.old) (seen disk.new) }
{
    let file = match read_changed(alloc, disk, known) {
        Ok(file) => file,
        Err(why) => return Err(why),
    };
    let letters = archive.len();
    match list_known(alloc, file, known, archive) {
        Ok(found) => Ok(found),
        Err(why) => {
            archive.shorten(letters);
            Err(why)
        }
    }
}

// Lists a file that was read, or that is as it is known. After a refusal letters may stand behind
// those that were there.
fn list_known(
    alloc: Global,
    file: Option<FileRead>,
    known: &mut Known,
    archive: &mut Archive,
) -> Result<Found, ScanError>
    requires right { Right Mbox (map plain_letter archive.old.items) known.old None }
    requires kept { IfNone file ((stamp : ℕ) × (known.old.stamps ≡ stamp ∷ [])) }
    ensures ok { IfOk result (FindsFile file (map plain_letter archive.old.items)
        (map plain_letter archive.new.items) known.old known.new) }
    ensures unknown { OnErr result (known.new ≡ known.old) }
    ensures unlisted { IfErr result (IsUnlisted (bytes_now known.old file)
        (mails_of (map plain_letter archive.old.items) known.old.listing)
        (length archive.old.items)) }
    ensures front { take (length archive.old.items) archive.new.items ≡ archive.old.items }
{
    match file {
        Some(file) => list_read(alloc, file, known, archive),
        None => find_nothing(alloc, archive.len(), known),
    }
}

// Finds that nothing changed, where the messages may be listed beside so many letters.
fn find_nothing(alloc: Global, letters: usize, known: &Known) -> Result<Found, ScanError>
    ensures ok { IfOk result (λ found. spec_refusal letters 0 (length known.now.listing) ≡ None) }
    ensures nothing { IfOk result IsNothing }
    ensures refused { IfErr result (λ why. spec_refusal letters 0 (length known.now.listing)
        ≡ Some why) }
{
    match count_refusal(letters, 0, known.listing().len()) {
        Some(why) => Err(why),
        None => Ok(Found {
            gone: Ids::new(alloc),
            came: Listing::new(alloc),
            reflagged: Listing::new(alloc),
        }),
    }
}

// Lists a file that was read.
fn list_read(
    alloc: Global,
    file: FileRead,
    known: &mut Known,
    archive: &mut Archive,
) -> Result<Found, ScanError>
    requires { Right Mbox (map plain_letter archive.old.items) known.old None }
    ensures ok { IfOk result (FindsFile (Some file) (map plain_letter archive.old.items)
        (map plain_letter archive.new.items) known.old known.new) }
    ensures unknown { OnErr result (known.new ≡ known.old) }
    ensures unlisted { IfErr result (IsUnlisted file.bytes.items
        (mails_of (map plain_letter archive.old.items) known.old.listing)
        (length archive.old.items)) }
    ensures front { take (length archive.old.items) archive.new.items ≡ archive.old.items }
{
    let letters = archive.len();
    let old = known.listing().as_slice();
    let listing = match list_file(alloc, file.bytes.as_slice(), old, archive) {
        Ok(listing) => listing,
        Err(why) => return Err(why),
    };
    let mut stamps = Stamps::new(alloc);
    if stamps.push(file.stat.stamp).is_err() {
        return Err(ScanError::NoMemory);
    }
    match put_listing(alloc, known, letters, listing, file.bytes, stamps) {
        Ok(found) => Ok(found),
        Err(NoMemory) => Err(ScanError::NoMemory),
    }
}
