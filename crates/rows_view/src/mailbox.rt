//! A mailbox in memory that is scanned into a view.

ghost use Rattle.std.specs.Prelude.{[], map, IfOk};
ghost use Rattle.folder_letters.specs.Letters.{plain_letter};
ghost use Rattle.index_view.specs.View.{IsOf, MayTake};

use case_files::CaseFault;
use disk_model::{Device, Node, Tree, is_tree};
use folder_core::{Archive, Found, Known};
use folder_drivers::Driver;
use index_view::{View, ViewOptions, first_folder_is_taken};
use mail_base::{Bytes, Kind, Numbers};
use mbox_folder::MboxDriver;
use memory_disk::{MemoryDisk, Script};
use patterns_match::Scores;
use people::People;
use std::alloc::Global;

/// A view of the messages of a mailbox, whose letters go into an archive.
pub fn view_of(
    alloc: Global,
    options: ViewOptions,
    mbox: &[u8],
    archive: &mut Archive,
) -> Result<View, CaseFault>
    ensures { IfOk result (λ view. IsOf (map plain_letter archive.new.items) view) }
{
    let found = found_in(alloc, mbox, archive)?;
    let mut view = View::new(alloc, options, People::new(alloc), Scores::new(alloc));
    view.take_delta(archive, &found)?;
    Ok(view)
}

// The messages of a mailbox.
fn found_in(alloc: Global, mbox: &[u8], archive: &mut Archive) -> Result<Found, CaseFault>
    ensures { IfOk result (λ found. MayTake (map plain_letter archive.new.items) [] found) }
{
    first_folder_is_taken();
    let mut dev = Device::new(Box::new(alloc, disk_with(alloc, mbox)?)?);
    let mut known = Known::new(alloc, "mbox", Kind::Mbox)?;
    match MboxDriver::new().scan(alloc, &mut dev, &mut known, archive) {
        Ok(found) => Ok(found),
        Err(_) => Err(CaseFault::BadInput),
    }
}

fn disk_with(alloc: Global, mbox: &[u8]) -> Result<MemoryDisk, CaseFault> {
    let mut tree = Tree::new(alloc);
    tree.push(Node {
        path: Bytes::copy_of(alloc, b"mbox")?,
        bytes: Some(Bytes::copy_of(alloc, mbox)?),
    })?;
    if !is_tree(&tree) {
        return Err(CaseFault::BadInput);
    }
    let fails = Numbers::new(alloc);
    Ok(MemoryDisk::new(alloc, tree, Script::new(alloc), fails, None)?)
}
