//! What reads and writes folders of one kind.

ghost use Rattle.std.specs.Prelude.{◌≡◌, map};
ghost use Rattle.mail_base.specs.declared.kind.Kind.{Kind as FolderKind};
ghost use Rattle.folder_letters.specs.Letters.{plain_letter};
ghost use Rattle.folder_core.specs.Right.{Right};
ghost use Rattle.folder_core.specs.Scanned.{Scans};
ghost use Rattle.folder_changes.specs.Asked.{AreListed, AreOnce};
ghost use Rattle.folder_drivers.specs.Appended.{Appends};
ghost use Rattle.folder_drivers.specs.Made.{Makes};
ghost use Rattle.folder_drivers.specs.Recovered.{Recovers};
ghost use Rattle.folder_drivers.specs.Synced.{Syncs};
ghost use Rattle.index_items.specs.Changes.{plain_changes};

use disk_model::Device;
use folder_changes::{Item, SyncError};
use folder_core::{Archive, Found, Known, ScanError};
use folder_letters::Changes;
use mail_base::Kind;
use std::alloc::Global;

/// Reads and writes folders of one kind.
pub trait Driver: Drop {
    /// The kind.
    ghost sort: { Self → FolderKind };

    fn kind(&self) -> Kind
        ensures { result ≡ sort self.now };

    /// Reads a folder of which this is known: answers what changed since then, adds the letters of
    /// the messages that are new to the archive, and keeps what it met as known. A message that is
    /// met again keeps its id. After a refusal archive and known folder are as before.
    fn scan(
        &self,
        alloc: Global,
        dev: &mut Device,
        known: &mut Known,
        archive: &mut Archive,
    ) -> Result<Found, ScanError>
        requires kind { known.old.kind ≡ sort self.now }
        requires right { Right (sort self.now) (map plain_letter archive.old.items) known.old
            (seen (dev.old.disk.vtable, dev.old.disk.value)).told }
        ensures { Scans (sort self.now) archive.old.items archive.new.items known.old known.new
            result (seen (dev.old.disk.vtable, dev.old.disk.value))
            (seen (dev.new.disk.vtable, dev.new.disk.value)) };

    /// Writes changes of listed messages into the folder; discarded messages of an MH folder are
    /// kept under other names, but where files are to be purged. After Ok the known listing is the
    /// old one without the discarded ones and with the changes; after a refusal it is as before,
    /// and the folder may have a part of the changes. Whatever the answer, a stop in the middle
    /// leaves each message that is not discarded.
    fn sync(
        &self,
        alloc: Global,
        dev: &mut Device,
        known: &mut Known,
        owner: &[u8],
        purge_files: bool,
        archive: &Archive,
        changes: &Changes,
    ) -> Result<(), SyncError>
        requires kind { known.old.kind ≡ sort self.now }
        requires right { Right (sort self.now) (map plain_letter archive.now.items) known.old
            (seen (dev.old.disk.vtable, dev.old.disk.value)).told }
        requires listed { AreListed known.old.listing (plain_changes changes.now.items) }
        requires once { AreOnce (plain_changes changes.now.items) }
        ensures { Syncs (sort self.now) owner.now purge_files
            (map plain_letter archive.now.items) (plain_changes changes.now.items)
            known.old known.new result
            (seen (dev.old.disk.vtable, dev.old.disk.value))
            (seen (dev.new.disk.vtable, dev.new.disk.value)) };

    /// Finishes or takes away what an earlier call left over.
    fn recover(
        &self,
        alloc: Global,
        dev: &mut Device,
        known: &mut Known,
        owner: &[u8],
    ) -> Result<(), ScanError>
        requires { known.old.kind ≡ sort self.now }
        ensures { Recovers (sort self.now) owner.now known.old known.new result
            (seen (dev.old.disk.vtable, dev.old.disk.value))
            (seen (dev.new.disk.vtable, dev.new.disk.value)) };

    /// Adds one message to the folder at a path. Whatever the answer, a stop in the middle leaves
    /// each message that was there.
    fn append(
        &self,
        alloc: Global,
        dev: &mut Device,
        path: &str,
        owner: &[u8],
        archive: &Archive,
        item: &Item,
    ) -> Result<(), SyncError>
        ensures { Appends (sort self.now) path.now owner.now (map plain_letter archive.now.items)
            item.now result (seen (dev.old.disk.vtable, dev.old.disk.value))
            (seen (dev.new.disk.vtable, dev.new.disk.value)) };

    /// Makes an empty folder at a path, or what is missing of one that was begun. A folder that
    /// stands there keeps its messages.
    fn make(&self, alloc: Global, dev: &mut Device, path: &str) -> Result<(), SyncError>
        ensures { Makes (sort self.now) path.now result
            (seen (dev.old.disk.vtable, dev.old.disk.value))
            (seen (dev.new.disk.vtable, dev.new.disk.value)) };
}
