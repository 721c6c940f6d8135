//! A driver for each kind.

ghost use Rattle.std.specs.Prelude.{◌≡◌, ◌++◌, ◌∷◌, ◌↔◌, [], Any, Contains, IsTrue, IfSome, IfNone};
ghost use Rattle.std.specs.Prelude.{OnOk, OnErr, Err, map};
ghost use Rattle.folder_letters.specs.Letters.{plain_letter};
ghost use Rattle.folder_core.specs.Right.{Right};
ghost use Rattle.folder_core.specs.Scanned.{Scans};
ghost use Rattle.folder_changes.specs.Asked.{AreListed, AreOnce};
ghost use Rattle.folder_drivers.specs.Appended.{Appends};
ghost use Rattle.folder_drivers.specs.Made.{Makes};
ghost use Rattle.folder_drivers.specs.Recovered.{Recovers};
ghost use Rattle.folder_drivers.specs.Synced.{Syncs};
ghost use Rattle.index_items.specs.Changes.{plain_changes};

use crate::{Driver, DriversError};
use disk_model::Device;
use folder_changes::{Item, SyncError};
use folder_core::{Archive, Found, Known, ScanError};
use folder_letters::Changes;
use mail_base::Kind;
use std::alloc::Global;

/// The drivers, each of its kind.
#[derive(Drop)]
pub struct Drivers {
    pub list: Vec<Box<dyn Driver>>,
}

impl Drivers {
    pub fn new(alloc: Global) -> Self
        ensures { result.list.items ≡ [] }
    {
        Drivers {
            list: Vec::new(alloc),
        }
    }

    /// Adds a driver of a new kind.
    pub fn add(&mut self, driver: Box<dyn Driver>) -> Result<(), DriversError>
        ensures ok { OnOk result (self.new.list.items ≡ self.old.list.items ++ driver ∷ []) }
        ensures err { OnErr result (self.new.list.items ≡ self.old.list.items) }
        ensures twice { result ≡ Err DriversError.Twice → Any (λ d. sort d ≡ sort driver)
            self.old.list.items }
        ensures once { OnOk result (Any (λ d. sort d ≡ sort driver) self.old.list.items → ⊥) }
    {
        if self.has(kind_of_box(&driver)) {
            return Err(DriversError::Twice);
        }
        if self.list.push(driver).is_err() {
            return Err(DriversError::NoMemory);
        }
        Ok(())
    }

    /// The first driver of the kind.
    fn get(&self, kind: Kind) -> Option<&Box<dyn Driver>>
        ensures some { IfSome result (λ d. sort d.now ≡ kind) }
        ensures none { IfNone result (Any (λ d. sort d ≡ kind) self.now.list.items → ⊥) }
        ensures held { IfSome result (λ d. Any (λ e. sort e ≡ kind) self.now.list.items) }
    {
        for driver in &self.list {
            if kind_of_box(driver) == kind {
                return Some(driver);
            }
        }
        None
    }

    /// Whether a driver of the kind is there.
    pub fn has(&self, kind: Kind) -> bool
        ensures { IsTrue result ↔ Any (λ d. sort d ≡ kind) self.now.list.items }
    {
        self.get(kind).is_some()
    }

    /// Scans by the driver of the kind, as its own `scan`.
    pub fn scan(
        &self,
        alloc: Global,
        kind: Kind,
        dev: &mut Device,
        known: &mut Known,
        archive: &mut Archive,
    ) -> Result<Found, ScanError>
        requires has { Any (λ d. sort d ≡ kind) self.now.list.items }
        requires kind { known.old.kind ≡ kind }
        requires right { Right kind (map plain_letter archive.old.items) known.old
            (seen (dev.old.disk.vtable, dev.old.disk.value)).told }
        ensures { Scans kind archive.old.items archive.new.items known.old known.new result
            (seen (dev.old.disk.vtable, dev.old.disk.value))
            (seen (dev.new.disk.vtable, dev.new.disk.value)) }
    {
        let Some(driver) = self.get(kind) else {
            unreachable!()
        };
        scan_at(&**driver, alloc, dev, known, archive)
    }

    /// Syncs by the driver of the kind, as its own `sync`.
    pub fn sync(
        &self,
        alloc: Global,
        kind: Kind,
        dev: &mut Device,
        known: &mut Known,
        owner: &[u8],
        purge_files: bool,
        archive: &Archive,
        changes: &Changes,
    ) -> Result<(), SyncError>
        requires has { Any (λ d. sort d ≡ kind) self.now.list.items }
        requires kind { known.old.kind ≡ kind }
        requires right { Right kind (map plain_letter archive.now.items) known.old
            (seen (dev.old.disk.vtable, dev.old.disk.value)).told }
        requires listed { AreListed known.old.listing (plain_changes changes.now.items) }
        requires once { AreOnce (plain_changes changes.now.items) }
        ensures { Syncs kind owner.now purge_files (map plain_letter archive.now.items)
            (plain_changes changes.now.items) known.old known.new result
            (seen (dev.old.disk.vtable, dev.old.disk.value))
            (seen (dev.new.disk.vtable, dev.new.disk.value)) }
    {
        let Some(driver) = self.get(kind) else {
            unreachable!()
        };
        sync_at(
            &**driver,
            alloc,
            dev,
            known,
            owner,
            purge_files,
            archive,
            changes,
        )
    }

    /// Recovers by the driver of the kind, as its own `recover`.
    pub fn recover(
        &self,
        alloc: Global,
        kind: Kind,
        dev: &mut Device,
        known: &mut Known,
        owner: &[u8],
    ) -> Result<(), ScanError>
        requires has { Any (λ d. sort d ≡ kind) self.now.list.items }
        requires kind { known.old.kind ≡ kind }
        ensures { Recovers kind owner.now known.old known.new result
            (seen (dev.old.disk.vtable, dev.old.disk.value))
            (seen (dev.new.disk.vtable, dev.new.disk.value)) }
    {
        let Some(driver) = self.get(kind) else {
            unreachable!()
        };
        recover_at(&**driver, alloc, dev, known, owner)
    }

    /// Adds a message by the driver of the kind, as its own `append`.
    pub fn append(
        &self,
        alloc: Global,
        kind: Kind,
        dev: &mut Device,
        path: &str,
        owner: &[u8],
        archive: &Archive,
        item: &Item,
    ) -> Result<(), SyncError>
        requires has { Any (λ d. sort d ≡ kind) self.now.list.items }
        ensures { Appends kind path.now owner.now (map plain_letter archive.now.items) item.now
            result (seen (dev.old.disk.vtable, dev.old.disk.value))
            (seen (dev.new.disk.vtable, dev.new.disk.value)) }
    {
        let Some(driver) = self.get(kind) else {
            unreachable!()
        };
        append_at(&**driver, alloc, dev, path, owner, archive, item)
    }

    /// Makes a folder by the driver of the kind, as its own `make`.
    pub fn make(
        &self,
        alloc: Global,
        kind: Kind,
        dev: &mut Device,
        path: &str,
    ) -> Result<(), SyncError>
        requires has { Any (λ d. sort d ≡ kind) self.now.list.items }
        ensures { Makes kind path.now result (seen (dev.old.disk.vtable, dev.old.disk.value))
            (seen (dev.new.disk.vtable, dev.new.disk.value)) }
    {
        let Some(driver) = self.get(kind) else {
            unreachable!()
        };
        make_at(&**driver, alloc, dev, path)
    }
}

fn kind_of_box(driver: &Box<dyn Driver>) -> Kind
    ensures { result ≡ sort driver.now }
{
    driver.kind()
}

/// Hands the device on to the driver's own method.
fn scan_at(
    driver: &dyn Driver,
    alloc: Global,
    dev: &mut Device,
    known: &mut Known,
    archive: &mut Archive,
) -> Result<Found, ScanError>
    requires kind { known.old.kind ≡ sort driver.now }
    requires right { Right (sort driver.now) (map plain_letter archive.old.items) known.old
        (seen (dev.old.disk.vtable, dev.old.disk.value)).told }
    ensures { Scans (sort driver.now) archive.old.items archive.new.items known.old known.new result
        (seen (dev.old.disk.vtable, dev.old.disk.value))
        (seen (dev.new.disk.vtable, dev.new.disk.value)) }
{
    driver.scan(alloc, dev, known, archive)
}

/// Hands the device on to the driver's own method.
fn sync_at(
    driver: &dyn Driver,
    alloc: Global,
    dev: &mut Device,
    known: &mut Known,
    owner: &[u8],
    purge_files: bool,
    archive: &Archive,
    changes: &Changes,
) -> Result<(), SyncError>
    requires kind { known.old.kind ≡ sort driver.now }
    requires right { Right (sort driver.now) (map plain_letter archive.now.items) known.old
        (seen (dev.old.disk.vtable, dev.old.disk.value)).told }
    requires listed { AreListed known.old.listing (plain_changes changes.now.items) }
    requires once { AreOnce (plain_changes changes.now.items) }
    ensures { Syncs (sort driver.now) owner.now purge_files (map plain_letter archive.now.items)
        (plain_changes changes.now.items) known.old known.new result
        (seen (dev.old.disk.vtable, dev.old.disk.value))
        (seen (dev.new.disk.vtable, dev.new.disk.value)) }
{
    driver.sync(alloc, dev, known, owner, purge_files, archive, changes)
}

/// Hands the device on to the driver's own method.
fn recover_at(
    driver: &dyn Driver,
    alloc: Global,
    dev: &mut Device,
    known: &mut Known,
    owner: &[u8],
) -> Result<(), ScanError>
    requires { known.old.kind ≡ sort driver.now }
    ensures { Recovers (sort driver.now) owner.now known.old known.new result
        (seen (dev.old.disk.vtable, dev.old.disk.value))
        (seen (dev.new.disk.vtable, dev.new.disk.value)) }
{
    driver.recover(alloc, dev, known, owner)
}

/// Hands the device on to the driver's own method.
fn append_at(
    driver: &dyn Driver,
    alloc: Global,
    dev: &mut Device,
    path: &str,
    owner: &[u8],
    archive: &Archive,
    item: &Item,
) -> Result<(), SyncError>
    ensures { Appends (sort driver.now) path.now owner.now (map plain_letter archive.now.items)
        item.now result (seen (dev.old.disk.vtable, dev.old.disk.value))
        (seen (dev.new.disk.vtable, dev.new.disk.value)) }
{
    driver.append(alloc, dev, path, owner, archive, item)
}

/// Hands the device on to the driver's own method.
fn make_at(
    driver: &dyn Driver,
    alloc: Global,
    dev: &mut Device,
    path: &str,
) -> Result<(), SyncError>
    ensures { Makes (sort driver.now) path.now result
        (seen (dev.old.disk.vtable, dev.old.disk.value))
        (seen (dev.new.disk.vtable, dev.new.disk.value)) }
{
    driver.make(alloc, dev, path)
}
