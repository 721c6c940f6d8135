//! Syncs: the files of messages that change are looked at, then all flags change at once, and then
//! discarded messages go.

ghost use Rattle.std.specs.Prelude.{◌≡◌, ℕ, List, IfErr, IfOk, None, length, map};
ghost use Rattle.disk_model.specs.Judge.{GoesOn};
ghost use Rattle.mail_base.specs.declared.kind.Kind.TheVariants.{Mh};
ghost use Rattle.folder_letters.specs.Letters.{plain_letter};
ghost use Rattle.index_items.specs.Changes.{AreBelow, plain_changes};
ghost use Rattle.folder_changes.specs.Asked.{AreApart, AreListed, AreOnce};
ghost use Rattle.folder_changes.specs.Left.{listing_synced as listing_left};
ghost use Rattle.folder_changes.specs.Calls.{GoesBy};
ghost use Rattle.folder_changes.specs.Refused.{IsBetween};
ghost use Rattle.folder_changes.specs.Serving.{Serves};
ghost use Rattle.folder_core.specs.Right.{Right};
ghost use Rattle.folder_drivers.specs.MhLeft.{KeepsNumbers, MhErrors, MhRefused};
ghost use Rattle.folder_drivers.specs.MhLeft.{stamps_synced as stamps_left};
ghost use Rattle.folder_drivers.specs.MhSync.{DidByNumber};
ghost use Rattle.folder_drivers.specs.Synced.{Syncs};
ghost use Rattle.folder_shapes.specs.Mh.{mh_shape, number_in};
ghost use Rattle.folder_stops.specs.Does.{Does};
ghost use Rattle.mh_syncs.specs.Causes.{AreStamped, IsClearing};
ghost use Rattle.mh_syncs.specs.Parts as spec;

use crate::away::{keep_names, take_all};
use crate::left::stamps_synced;
use crate::leftovers::remove_leftovers;
use crate::placing::put_sequences;
use crate::sequences::{changed_sequences, read_sequences};
use crate::stamps::check_all;
use disk_model::Disk;
use folder_changes::{SyncError, listing_synced};
use folder_core::{Archive, Known, Letter};
use folder_letters::{Changed1, Listing};
use mail_base::{Bytes, Kind, NoMemory, Stamps};
use std::alloc::Global;

// Looks at the sequences and at the files of messages that change, and makes the new file of the
// sequences.
fn prepare(
    alloc: Global,
    disk: &mut dyn Disk,
    known: &Known,
    archive: &[Letter],
    changes: &[Changed1],
) -> Result<Bytes, SyncError>
    requires { AreBelow (length archive.now) changes.now }
    ensures serves { Serves result (seen disk.old) (seen disk.new) }
    ensures leaves { spec.LeavesAll known.now.path (seen disk.old).told (seen disk.new).told }
    ensures prepares { IfOk result (λ text. spec.Prepares known.now (map plain_letter archive.now)
        (plain_changes changes.now) text.items (seen disk.old).told (seen disk.new).told) }
    ensures names { IfErr result (MhErrors known.now (map plain_letter archive.now)
        (plain_changes changes.now)) }
    ensures calls { GoesOn (GoesBy (IsClearing known.now.path))
        (seen disk.old).told (seen disk.new).told }
    ensures cause { AreStamped known.now (plain_changes changes.now)
        → IfErr result (λ why. IsBetween (MhRefused known.now
        (map plain_letter archive.now) (plain_changes changes.now) why)
        (seen disk.old).told (seen disk.new).told) }
{
    match remove_leftovers(alloc, disk, known.path()) {
        Ok(()) => {}
        Err(why) => return Err(why),
    }
    let bytes = match read_sequences(alloc, disk, known.path()) {
        Ok(bytes) => bytes,
        Err(why) => return Err(why),
    };
    match check_all(alloc, disk, known, archive, changes) {
        Ok(()) => {}
        Err(why) => return Err(why),
    }
    match changed_sequences(alloc, bytes.as_slice(), archive, changes) {
        Ok(text) => Ok(text),
        Err(NoMemory) => Err(SyncError::NoMemory),
    }
}

// Does these changes to the messages of a folder.
fn change_messages(
    alloc: Global,
    disk: &mut dyn Disk,
    known: &Known,
    purge: bool,
    archive: &[Letter],
    changes: &[Changed1],
) -> Result<(), SyncError>
    requires within { AreBelow (length archive.now) changes.now }
    requires apart { AreApart (map plain_letter archive.now) (plain_changes changes.now) }
    ensures serves { Serves result (seen disk.old) (seen disk.new) }
    ensures works { DidByNumber purge known.now.path (map plain_letter archive.now)
        (plain_changes changes.now) result (seen disk.old).told (seen disk.new).told }
    ensures keeps { KeepsNumbers known.now (map plain_letter archive.now)
        (plain_changes changes.now) (seen disk.old).told (seen disk.new).told }
    ensures here { Does (mh_shape known.now.path).home (number_in known.now.path) None
        (seen disk.old).told (seen disk.new).told }
    ensures names { IfErr result (MhErrors known.now (map plain_letter archive.now)
        (plain_changes changes.now)) }
    ensures cause { AreStamped known.now (plain_changes changes.now)
        → IfErr result (λ why. IsBetween (MhRefused known.now
        (map plain_letter archive.now) (plain_changes changes.now) why)
        (seen disk.old).told (seen disk.new).told) }
{
    let text = match prepare(alloc, disk, known, archive, changes) {
        Ok(text) => text,
        Err(why) => return Err(why),
    };
    match put_sequences(alloc, disk, known.path(), text.as_slice()) {
        Ok(()) => {}
        Err(why) => return Err(why),
    }
    match take_all(alloc, disk, purge, known.path(), archive, changes) {
        Ok(()) => {}
        Err(why) => return Err(why),
    }
    keep_names(alloc, disk, known.path())
}

// What is listed behind a sync with these changes, and the stamps of it.
fn known_synced(
    alloc: Global,
    known: &Known,
    bound: usize,
    changes: &[Changed1],
) -> Result<(Listing, Stamps), NoMemory>
    requires { AreBelow bound changes.now }
    ensures listing { IfOk result (λ synced. synced.0.items
        ≡ listing_left Mh (plain_changes changes.now) known.now.listing) }
    ensures stamps { IfOk result (λ synced. synced.1.items
        ≡ stamps_left (plain_changes changes.now) known.now.listing known.now.stamps) }
{
    let listing = known.listing().as_slice();
    let left = listing_synced(alloc, Kind::Mh, bound, changes, listing)?;
    let stamps = stamps_synced(alloc, bound, changes, listing, known.stamps().as_slice())?;
    Ok((left, stamps))
}

/// Does these changes to the messages of a folder, as the driver's `sync`.
pub fn sync_folder(
    alloc: Global,
    disk: &mut dyn Disk,
    known: &mut Known,
    purge_files: bool,
    archive: &Archive,
    changes: &[Changed1],
) -> Result<(), SyncError>
    requires right { Right Mh (map plain_letter archive.now.items) known.old
        (seen disk.old).told }
    requires listed { AreListed known.old.listing (plain_changes changes.now) }
    requires once { AreOnce (plain_changes changes.now) }
    ensures { (owner : List ℕ) → Syncs Mh owner purge_files (map plain_letter archive.now.items)
        (plain_changes changes.now) known.old known.new result (seen disk.old) (seen disk.new) }
{
    let (listing, stamps) = match known_synced(alloc, known, archive.len(), changes) {
        Ok(synced) => synced,
        Err(NoMemory) => return Err(SyncError::NoMemory),
    };
    match change_messages(alloc, disk, known, purge_files, archive.as_slice(), changes) {
        Ok(()) => {
            known.put(listing, Bytes::new(alloc), stamps);
            Ok(())
        }
        Err(why) => Err(why),
    }
}
