//! Visits of a folder.

ghost use Rattle.std.specs.Prelude.{◌≡◌, Any, map};
ghost use Rattle.folder_core.specs.Right.{Right};
ghost use Rattle.folder_letters.specs.Letters.{plain_letter};
ghost use Rattle.session_events.specs.Visits.{Visits};

use disk_model::Device;
use folder_core::{Archive, Found, Known, ScanError};
use folder_drivers::Drivers;
use std::alloc::Global;

/// Finishes or takes away what an earlier call left over in a folder, and then scans it, both by
/// the driver of its kind.
pub(crate) fn visit(
    alloc: Global,
    dev: &mut Device,
    drivers: &Drivers,
    owner: &[u8],
    known: &mut Known,
    archive: &mut Archive,
) -> Result<Found, ScanError>
    requires has { Any (λ d. sort (d.vtable, d.value) ≡ known.old.kind) drivers.now.list.items }
    requires right { Right known.old.kind (map plain_letter archive.old.items) known.old
        (seen (dev.old.disk.vtable, dev.old.disk.value)).told }
    ensures { Visits known.old.kind owner.now archive.old.items archive.new.items known.old
        known.new result (seen (dev.old.disk.vtable, dev.old.disk.value))
        (seen (dev.new.disk.vtable, dev.new.disk.value)) }
{
    let kind = known.kind();
    match drivers.recover(alloc, kind, dev, known, owner) {
        Ok(()) => drivers.scan(alloc, kind, dev, known, archive),
        Err(why) => Err(why),
    }
}
