//! The images that a disk leaves where it stops.

use crate::letters::has_all;
use crate::played::Played;
use case_files::{Case, CaseFault};
use disk_model::{Device, Fill, Node, Tree, is_tree};
use mail_base::Numbers;
use memory_disk::{MemoryDisk, Script};
use std::alloc::Global;

/// Whether each image of a disk is as it must be, with up to eight name operations and three fills
/// of what is open.
pub fn is_kept_in_all<P: Played>(
    alloc: Global,
    played: &P,
    case: &Case,
    dev: &Device,
) -> Result<bool, CaseFault> {
    let mut kept = true;
    for names in 0..=8 {
        for fill in [Fill::Kept, Fill::Written, Fill::Byte(0)] {
            kept = kept && is_kept(alloc, played, case, dev, names, fill)?;
        }
    }
    Ok(kept)
}

fn is_kept<P: Played>(
    alloc: Global,
    played: &P,
    case: &Case,
    dev: &Device,
    names: u64,
    fill: Fill,
) -> Result<bool, CaseFault> {
    match dev.image(alloc, names, fill)? {
        Some(tree) => is_kept_in(alloc, played, case, tree),
        None => Err(CaseFault::BadInput),
    }
}

/// Whether a folder that is opened again has what it must.
fn is_kept_in<P: Played>(
    alloc: Global,
    played: &P,
    case: &Case,
    tree: Tree,
) -> Result<bool, CaseFault> {
    if is_tree(&tree) {
        let disk = MemoryDisk::new(alloc, tree, Script::new(alloc), Numbers::new(alloc), None)?;
        let mut dev = Device::new(Box::new(alloc, disk)?);
        match played.open_again(alloc, case, &mut dev)? {
            Some(archive) => Ok(has_all(case, archive.as_slice()) && is_clean(alloc, case, &dev)?),
            None => Ok(false),
        }
    } else {
        Err(CaseFault::BadInput)
    }
}

/// Whether nothing stands at the paths that must be gone.
fn is_clean(alloc: Global, case: &Case, dev: &Device) -> Result<bool, CaseFault> {
    match dev.image(alloc, u64::MAX, Fill::Written)? {
        Some(tree) => Ok(tree.as_slice().iter().all(|node| !is_gone(case, node))),
        None => Err(CaseFault::BadInput),
    }
}

fn is_gone(case: &Case, node: &Node) -> bool {
    case.entries.as_slice().iter().any(|entry| {
        entry.key.as_slice() == b"gone".as_slice() && entry.value.as_slice() == node.path.as_slice()
    })
}
