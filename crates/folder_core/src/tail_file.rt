//! The tail file beside a mailbox, as the rule of kinds asks for it.

ghost use Rattle.std.specs.Prelude.{◌≡◌, IfOk};
ghost use Rattle.std.specs.String.{string_bytes};
ghost use Rattle.disk_model.specs.Journal.{ReadFront};
ghost use Rattle.folder_core.specs.Looked.{Looked};
ghost use Rattle.folder_core.specs.TailFile as spec;

use crate::{Front, ScanError, front_of};
use disk_model::Disk;
use mail_base::{Kind, NoMemory};
use std::alloc::Global;

/// The kind that the tail file beside a path tells, where one is there.
pub fn tail_kind(alloc: Global, disk: &mut dyn Disk, path: &str) -> Result<Option<Kind>, ScanError>
    ensures { Looked result (ReadFront (spec.tail_path path.now) 5)
        (λ kind tree. kind ≡ spec.tail_kind tree path.now)
        (seen disk.old) (seen disk.new) }
{
    let tail = tail_path(alloc, path)?;
    match front_of(alloc, disk, tail.as_str())? {
        Front::Begins(head) => Ok(head_kind(head.as_slice())),
        Front::Free | Front::Directory => Ok(None),
    }
}

// The path of the tail file beside a mailbox.
fn tail_path(alloc: Global, path: &str) -> Result<String, NoMemory>
    ensures { IfOk result (λ tail. string_bytes tail ≡ spec.tail_path path.now) }
{
    let mut tail = String::from_str(alloc, path)?;
    tail.push_str(".tail")?;
    Ok(tail)
}

// The kind of the mailbox whose tail file begins so.
fn head_kind(head: &[u8]) -> Option<Kind>
    ensures { result ≡ spec.head_kind head.now }
{
    match head {
        b"mbox " => Some(Kind::Mbox),
        b"mmdf " => Some(Kind::Mmdf),
        _ => None,
    }
}
