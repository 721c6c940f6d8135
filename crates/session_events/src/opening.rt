//! The opening of a folder, with its event.

ghost use Rattle.std.specs.Prelude.{◌≡◌, [], Any, map};
ghost use Rattle.folder_letters.specs.Letters.{plain_letter};
ghost use Rattle.session_events.specs.Events.{plain_event};
ghost use Rattle.session_events.specs.Happened.{IsListed, Standing};
ghost use Rattle.session_events.specs.Opening.{IsOpenAs, IsOpening, ReadsFolder};
ghost use Rattle.session_events.specs.Wishes.{Open, answered};
ghost use Rattle.session_events.specs.Telling.{Tells};

use crate::event::{Event, Marks, OpenFault};
use crate::open_folder::OpenFolder;
use crate::visit::visit;
use disk_model::Device;
use folder_core::{Archive, Known, Listing, ScanError, kind_of};
use folder_drivers::Drivers;
use mail_base::{Bytes, Kind};
use std::alloc::Global;

/// A folder that was read: its kind, and its messages.
#[derive(Drop)]
pub struct Opened {
    pub kind: Kind,
    pub folder: OpenFolder,
    pub came: Listing,
}

/// What happened where a folder was to be opened, and the folder, or why it was not.
#[derive(Drop)]
pub struct Opening {
    pub event: Event,
    pub answer: Result<OpenFolder, OpenFault>,
}

/// Opens the folder, where an empty file is of this kind, and tells what happened: what an earlier
/// call left over there is finished or taken away for an owner of its lock, and then it is read.
/// The name is that of the path.
pub fn open_event(
    alloc: Global,
    dev: &mut Device,
    drivers: &Drivers,
    owner: &[u8],
    empty: Kind,
    path: &str,
    name: Bytes,
    moment: i64,
    archive: &mut Archive,
) -> Opening
    requires archive { archive.old.items ≡ [] }
    requires name { name.items ≡ path.now }
    ensures tells { (at : Standing) → at.empty ≡ empty → at.owner ≡ owner.now
        → Tells (λ kind. Any (λ d. sort (d.vtable, d.value) ≡ kind)
        drivers.now.list.items) at (map plain_letter archive.new.items) (plain_event result.event)
        (seen (dev.old.disk.vtable, dev.old.disk.value))
        (seen (dev.new.disk.vtable, dev.new.disk.value)) }
    ensures answers { answered (plain_event result.event) ≡ Open name.items }
    ensures listed { IsListed (map plain_letter archive.new.items) (plain_event result.event) }
    ensures opening { IsOpening moment (plain_event result.event) }
    ensures answer { IsOpenAs (map plain_letter archive.new.items)
        (seen (dev.new.disk.vtable, dev.new.disk.value)).told (plain_event result.event)
        result.answer }
{
    let mark_before = dev.mark();
    let faults_before = dev.faults();
    let answer = read_folder(alloc, path, empty, moment, dev, drivers, owner, archive);
    let marks = Marks {
        mark_before,
        mark_after: dev.mark(),
        faults_before,
        faults_after: dev.faults(),
    };
    match answer {
        Ok(opened) => Opening {
            event: Event::Opened {
                path: name,
                kind: opened.kind,
                moment,
                came: opened.came,
                marks,
            },
            answer: Ok(opened.folder),
        },
        Err(why) => Opening {
            event: Event::NotOpened {
                path: name,
                why,
                marks,
            },
            answer: Err(why),
        },
    }
}

// Reads the folder at a path into an archive that is empty yet.
fn read_folder(
    alloc: Global,
    path: &str,
    empty: Kind,
    moment: i64,
    dev: &mut Device,
    drivers: &Drivers,
    owner: &[u8],
    archive: &mut Archive,
) -> Result<Opened, OpenFault>
    requires { archive.old.items ≡ [] }
    ensures { ReadsFolder (λ kind. Any (λ d. sort (d.vtable, d.value) ≡ kind)
        drivers.now.list.items) empty owner.now moment (map plain_letter archive.new.items) path.now
        result
        (seen (dev.old.disk.vtable, dev.old.disk.value))
        (seen (dev.new.disk.vtable, dev.new.disk.value)) }
{
    let kind = match kind_of(alloc, dev, path, empty) {
        Ok(kind) => kind,
        Err(why) => return Err(OpenFault::Folder(why)),
    };
    if !drivers.has(kind) {
        return Err(OpenFault::NoDriver(kind));
    }
    let Ok(mut known) = Known::new(alloc, path, kind) else {
        return Err(OpenFault::Folder(ScanError::NoMemory));
    };
    match visit(alloc, dev, drivers, owner, &mut known, archive) {
        Ok(found) => {
            let Ok(listing) = found.came.as_slice().to_vec(alloc) else {
                archive.shorten(0);
                return Err(OpenFault::Folder(ScanError::NoMemory));
            };
            let folder = OpenFolder {
                known,
                listing: Listing::from_vec(listing),
                met: archive.len(),
                forgot: false,
                refused: false,
                checked: moment,
            };
            Ok(Opened {
                kind,
                folder,
                came: found.came,
            })
        }
        Err(why) => Err(OpenFault::Folder(why)),
    }
}
