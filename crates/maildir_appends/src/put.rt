//! A message on its way into a Maildir: written in `tmp`, then put where it belongs.

ghost use Rattle.std.specs.Prelude.{◌≡◌, IfErr, OnOk};
ghost use Rattle.folder_changes.specs.Refused.{IsBetween, refused_by};
ghost use Rattle.folder_drivers.specs.Refusing.{RefusedFor};
ghost use Rattle.maildir_appends.specs.Causes.{AreApart, IsPut, WasInWay};
ghost use Rattle.std.specs.String.{string_bytes};
ghost use Rattle.disk_model.specs.Judge.{Counted};
ghost use Rattle.folder_shapes.specs.Maildir.{maildir_files};
ghost use Rattle.folder_stops.specs.Appends.{AddedSome, AddsSome};
ghost use Rattle.maildir_appends.specs.Placing as spec;

use crate::places::Places;
use disk_model::{Disk, DiskError};
use std::alloc::Global;

/// Writes a message beside the others, and puts it among them once a stop leaves its bytes.
pub fn put(
    alloc: Global,
    disk: &mut dyn Disk,
    path: &str,
    places: &Places,
    text: &[u8],
) -> Result<(), DiskError>
    requires placed { spec.IsPlaced path.now (string_bytes places.now.beside)
        (string_bytes places.now.place) }
    requires apart { AreApart (string_bytes places.now.beside) (string_bytes places.now.place)
        (string_bytes places.now.new) (string_bytes places.now.cur) }
    ensures some { AddsSome (maildir_files path.now) text.now
        (seen disk.old).told (seen disk.new).told }
    ensures ok { OnOk result (AddedSome (maildir_files path.now) text.now
        (seen disk.old).told (seen disk.new).told) }
    ensures puts { OnOk result (spec.PutsAt (string_bytes places.now.beside)
        (string_bytes places.now.place) (seen disk.old).told (seen disk.new).told) }
    ensures counts { Counted result (seen disk.old) (seen disk.new) }
    ensures in_way { IfErr result (λ why. why ≡ DiskError.Exists
        → IsBetween (WasInWay (string_bytes places.now.beside))
        (seen disk.old).told (seen disk.new).told) }
    ensures cause { IfErr result (λ why. IsBetween (RefusedFor
        (IsPut (string_bytes places.now.beside) (string_bytes places.now.place)
        (string_bytes places.now.new) (string_bytes places.now.cur)) (refused_by why))
        (seen disk.old).told (seen disk.new).told) }
{
    let beside = places.beside.as_str();
    disk.create(alloc, beside)?;
    disk.write_at(alloc, beside, 0, text)?;
    disk.sync(alloc, beside)?;
    disk.rename(alloc, beside, places.place.as_str())?;
    disk.sync_dir(alloc, places.new.as_str())?;
    disk.sync_dir(alloc, places.cur.as_str())
}
