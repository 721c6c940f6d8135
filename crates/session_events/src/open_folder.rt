//! The open folder: what is known of it, and its listing.

use crate::checking::Scanned;
use crate::event::Marks;
use crate::syncing::{Tried, are_in_order};
use crate::visit::visit;
use disk_model::Device;
use folder_changes::{SyncError, listing_synced};
use folder_core::{Archive, Found, Known, Listing, difference_of};
use folder_drivers::Drivers;
use folder_letters::Changes;
use mail_base::{Kind, NoMemory};
use std::alloc::Global;

/// The open folder.
#[derive(Drop)]
pub struct OpenFolder {
    pub known: Known,
    /// What the last check listed.
    pub listing: Listing,
    /// How many letters were met.
    pub met: usize,
    /// Whether only a part of the listing is known still.
    pub forgot: bool,
    /// The moment of its last check, in seconds since 1970 UTC: its opening at first.
    pub checked: i64,
    /// Whether its last sync was refused.
    pub refused: bool,
}

/// How the listing of a folder changed, and what it is now.
#[derive(Drop)]
pub struct News {
    pub found: Found,
    pub listing: Listing,
}

impl OpenFolder {
    ghost use Rattle.std.specs.Prelude.{◌≡◌, ◌<◌, ◌≤◌, Any, IfOk, List, [], false, true};
    ghost use Rattle.std.specs.Prelude.{Option, length, map, take};
    ghost use Rattle.std.specs.List.{All};
    ghost use Rattle.disk_model.specs.Journal.{Past};
    ghost use Rattle.folder_core.specs.Keeping.{IsDifference, ids_differ};
    ghost use Rattle.folder_core.specs.Known.{nothing_known, shortened};
    ghost use Rattle.folder_core.specs.Right.{Right};
    ghost use Rattle.folder_letters.specs.Letters.{Mail, plain_letter};
    ghost use Rattle.mail_base.specs.declared.kind.Kind.TheVariants as kind;
    ghost use Rattle.index_items.specs.Changes.{plain_changes};
    ghost use Rattle.session_events.specs.Checking.{IsOpen, VisitsFolder};
    ghost use Rattle.session_events.specs.Syncing.{MaySync, PreparesSync, SyncsOpen, sync_event};

    /// No folder, before one is open.
    pub fn none(alloc: Global, moment: i64) -> Result<Self, NoMemory>
        ensures known { IfOk result (λ f. f.known ≡ nothing_known [] kind.Mbox false) }
        ensures listing { IfOk result (λ f. f.listing.items ≡ []) }
        ensures met { IfOk result (λ f. f.met ≡ 0) }
        ensures forgot { IfOk result (λ f. f.forgot ≡ false) }
        ensures checked { IfOk result (λ f. f.checked ≡ moment) }
        ensures refused { IfOk result (λ f. f.refused ≡ false) }
    {
        Ok(OpenFolder {
            known: Known::new(alloc, "", Kind::Mbox)?,
            listing: Listing::new(alloc),
            met: 0,
            forgot: false,
            checked: moment,
            refused: false,
        })
    }

    /// Visits the folder: what an earlier call left over in it is finished or taken away for an
    /// owner of its lock, and then it is scanned.
    pub fn visit(
        &mut self,
        alloc: Global,
        dev: &mut Device,
        drivers: &Drivers,
        owner: &[u8],
        archive: &mut Archive,
    ) -> Scanned
        requires has { Any (λ d. sort (d.vtable, d.value) ≡ self.old.known.kind)
            drivers.now.list.items }
        requires right { Right self.old.known.kind (map plain_letter archive.old.items)
            self.old.known (seen (dev.old.disk.vtable, dev.old.disk.value)).told }
        ensures visits { VisitsFolder owner.now archive.old.items archive.new.items self.old.known
            self.new.known result (seen (dev.old.disk.vtable, dev.old.disk.value))
            (seen (dev.new.disk.vtable, dev.new.disk.value)) }
        ensures rest { self.new ≡ record self.old { known = self.new.known } }
    {
        let mark_before = dev.mark();
        let faults_before = dev.faults();
        let answer = visit(alloc, dev, drivers, owner, &mut self.known, archive);
        Scanned {
            answer,
            marks: Marks {
                mark_before,
                mark_after: dev.mark(),
                faults_before,
                faults_after: dev.faults(),
            },
        }
    }

    /// How the listing changes by a scan that found this, where there are so many letters now.
    pub fn news(&self, alloc: Global, letters: usize, found: Found) -> Result<News, NoMemory>
        requires within { All (λ l. l.id.0 < letters) self.now.listing.items }
        requires once { ids_differ self.now.listing.items ≡ true }
        requires found { self.now.forgot ≡ false
            → IsDifference self.now.listing.items self.now.known.listing found }
        ensures found { IfOk result (λ news.
            IsDifference self.now.listing.items self.now.known.listing news.found) }
        ensures listing { IfOk result (λ news. news.listing.items ≡ self.now.known.listing) }
    {
        let now = self.known.listing().as_slice();
        let listing = Listing::from_vec(now.to_vec(alloc)?);
        let found = if self.forgot {
            difference_of(alloc, letters, self.listing.as_slice(), now)?
        } else {
            found
        };
        Ok(News { found, listing })
    }

    /// This is its listing now, and so many letters were met.
    pub fn settle(&mut self, listing: Listing, letters: usize, moment: i64)
        ensures known { self.new.known ≡ self.old.known }
        ensures listing { self.new.listing ≡ listing }
        ensures met { self.new.met ≡ letters }
        ensures forgot { self.new.forgot ≡ false }
        ensures checked { self.new.checked ≡ moment }
        ensures refused { self.new.refused ≡ self.old.refused }
    {
        self.listing = listing;
        self.met = letters;
        self.forgot = false;
        self.checked = moment;
    }

    /// Forgets what a scan met for the first time, and all that it listed behind that, so that the
    /// next one meets it.
    pub fn forget(&mut self, archive: &mut Archive)
        requires met { self.old.met ≤ length archive.old.items }
        ensures archive { archive.new.items ≡ take self.old.met archive.old.items }
        ensures known { self.new.known ≡ shortened self.old.met self.old.known }
        ensures right { (told : Option Past)
            → Right self.old.known.kind (map plain_letter archive.old.items) self.old.known told
            → Right self.old.known.kind (map plain_letter archive.new.items) self.new.known told }
        ensures forgot { self.new.forgot ≡ true }
        ensures rest { self.new ≡ record self.old { known = self.new.known; forgot = true } }
    {
        self.known.shorten(self.met);
        archive.shorten(self.met);
        self.forgot = true;
    }
    /// Syncs the folder, by the driver of its kind. Nothing is tried where a part of what was known
    /// was forgotten, where not each change is of a listed message in the order of the listing, or
    /// where there is no memory for what the sync leaves: afterwards nothing may fail.
    pub fn sync(
        &mut self,
        alloc: Global,
        dev: &mut Device,
        drivers: &Drivers,
        owner: &[u8],
        purge_files: bool,
        archive: &Archive,
        changes: &Changes,
    ) -> Tried
        requires has { Any (λ d. sort (d.vtable, d.value) ≡ self.old.known.kind)
            drivers.now.list.items }
        requires open { IsOpen (map plain_letter archive.now.items)
            (seen (dev.old.disk.vtable, dev.old.disk.value)).told self.old }
        ensures { SyncsOpen (λ kind. Any (λ d. sort (d.vtable, d.value) ≡ kind)
            drivers.now.list.items) owner.now purge_files (map plain_letter archive.now.items)
            (sync_event (plain_changes changes.now.items) result.answer result.marks) self.old
            self.new (seen (dev.old.disk.vtable, dev.old.disk.value))
            (seen (dev.new.disk.vtable, dev.new.disk.value)) }
    {
        let mark_before = dev.mark();
        let faults_before = dev.faults();
        let answer = self.try_sync(alloc, dev, drivers, owner, purge_files, archive, changes);
        self.refused = answer.is_err();
        Tried {
            answer,
            marks: Marks {
                mark_before,
                mark_after: dev.mark(),
                faults_before,
                faults_after: dev.faults(),
            },
        }
    }

    // Syncs the folder, where all that it needs can be prepared.
    fn try_sync(
        &mut self,
        alloc: Global,
        dev: &mut Device,
        drivers: &Drivers,
        owner: &[u8],
        purge_files: bool,
        archive: &Archive,
        changes: &Changes,
    ) -> Result<(), SyncError>
        requires has { Any (λ d. sort (d.vtable, d.value) ≡ self.old.known.kind)
            drivers.now.list.items }
        requires open { IsOpen (map plain_letter archive.now.items)
            (seen (dev.old.disk.vtable, dev.old.disk.value)).told self.old }
        ensures { MaySync owner.now purge_files (map plain_letter archive.now.items)
            (plain_changes changes.now.items) result self.old self.new
            (seen (dev.old.disk.vtable, dev.old.disk.value))
            (seen (dev.new.disk.vtable, dev.new.disk.value)) }
    {
        let Ok(synced) = self.listing_left(alloc, changes) else {
            return Err(SyncError::NoMemory);
        };
        drivers.sync(
            alloc,
            self.known.kind(),
            dev,
            &mut self.known,
            owner,
            purge_files,
            archive,
            changes,
        )?;
        self.listing = synced;
        Ok(())
    }

    // What a sync with these changes leaves of the listing, where all of it is known.
    fn listing_left(&self, alloc: Global, changes: &Changes) -> Result<Listing, NoMemory>
        requires { All (λ l. l.id.0 < self.now.met) self.now.listing.items }
        ensures { IfOk result (λ synced.
            PreparesSync self.now (plain_changes changes.now.items) synced.items) }
    {
        let listing = self.listing.as_slice();
        let changed = changes.as_slice();
        if self.forgot || !are_in_order(listing, changed) {
            return Err(NoMemory);
        }
        listing_synced(alloc, self.known.kind(), self.met, changed, listing)
    }
}
