//! Looks at a disk, as the drivers of directories and the rule of kinds want them told.

ghost use Rattle.std.specs.Prelude.{◌≡◌, IfOk, is_some};
ghost use Rattle.disk_model.specs.Journal.{ListDir, ReadAll, ReadFront, StatPath};
ghost use Rattle.disk_model.specs.Judge.{GoesOn};
ghost use Rattle.disk_model.specs.Tree.{node_at};
ghost use Rattle.folder_core.specs.Costs.{RaisesAtMost};
ghost use Rattle.folder_core.specs.FirstLook.{FindsFirst};
ghost use Rattle.folder_core.specs.Looked as spec;

use crate::ScanError;
use disk_model::{Disk, DiskError, FileRead, Stat};
use mail_base::{Bytes, Names};
use std::alloc::Global;

/// What a directory holds.
#[derive(Drop)]
pub enum Contents {
    /// Nothing stands there.
    Nothing,
    /// A file stands there.
    File,
    /// The names in it, in the order of their bytes.
    Names(Names),
}

/// What a file holds.
#[derive(Drop)]
pub enum Content {
    /// Nothing or a directory stands there.
    NoFile,
    /// So many bytes, more than were allowed.
    TooLong(u64),
    /// All of it.
    Whole(FileRead),
}

/// How what stands at a path begins.
#[derive(Drop)]
pub enum Front {
    /// Nothing stands there.
    Free,
    /// A directory stands there.
    Directory,
    /// The first five bytes of a file, or all of them.
    Begins(Bytes),
}

/// What stands at a path.
pub fn look_at(disk: &mut dyn Disk, path: &str) -> Result<Option<Stat>, ScanError>
    ensures looked { spec.Looked result (StatPath path.now)
        (λ found tree. found ≡ spec.stat_there (node_at tree path.now))
        (seen disk.old) (seen disk.new) }
    ensures first { GoesOn (FindsFirst (λ found. is_some found) result path.now)
        (seen disk.old).told (seen disk.new).told }
    ensures reads { RaisesAtMost (seen disk.old).bytes_read (seen disk.new).bytes_read 0 }
{
    match disk.stat(path) {
        Ok(stat) => Ok(Some(stat)),
        Err(DiskError::Missing) => Ok(None),
        Err(DiskError::NoMemory) => Err(ScanError::NoMemory),
        Err(DiskError::Fault) => Err(ScanError::Fault),
        Err(DiskError::WrongNode | DiskError::Exists | DiskError::Long(_)) => unreachable!(),
    }
}

/// The names in a directory.
pub fn contents_of(alloc: Global, disk: &mut dyn Disk, dir: &str) -> Result<Contents, ScanError>
    ensures looked { spec.Looked result (ListDir dir.now)
        (λ contents tree. spec.IsContents contents tree dir.now)
        (seen disk.old) (seen disk.new) }
    ensures first { GoesOn (FindsFirst spec.is_there result dir.now)
        (seen disk.old).told (seen disk.new).told }
    ensures reads { RaisesAtMost (seen disk.old).bytes_read (seen disk.new).bytes_read 0 }
    ensures text { IfOk result spec.HasText }
{
    match disk.list(alloc, dir) {
        Ok(names) => Ok(Contents::Names(names)),
        Err(DiskError::Missing) => Ok(Contents::Nothing),
        Err(DiskError::WrongNode) => Ok(Contents::File),
        Err(DiskError::NoMemory) => Err(ScanError::NoMemory),
        Err(DiskError::Fault) => Err(ScanError::Fault),
        Err(DiskError::Exists | DiskError::Long(_)) => unreachable!(),
    }
}

/// The whole file at a path, of at most `limit` bytes.
pub fn content_of(
    alloc: Global,
    disk: &mut dyn Disk,
    path: &str,
    limit: u64,
) -> Result<Content, ScanError>
    ensures looked { spec.Looked result (ReadAll path.now limit)
        (λ content tree. spec.IsContent limit content tree path.now)
        (seen disk.old) (seen disk.new) }
    ensures reads { RaisesAtMost (seen disk.old).bytes_read (seen disk.new).bytes_read
        (spec.content_read result) }
    ensures fits { IfOk result (spec.FitsLimit limit) }
{
    match disk.read_all(alloc, path, limit) {
        Ok(read) => Ok(Content::Whole(read)),
        Err(DiskError::Missing) => Ok(Content::NoFile),
        Err(DiskError::WrongNode) => Ok(Content::NoFile),
        Err(DiskError::Long(size)) => Ok(Content::TooLong(size)),
        Err(DiskError::NoMemory) => Err(ScanError::NoMemory),
        Err(DiskError::Fault) => Err(ScanError::Fault),
        Err(DiskError::Exists) => unreachable!(),
    }
}

/// The first bytes of what stands at a path.
pub fn front_of(alloc: Global, disk: &mut dyn Disk, path: &str) -> Result<Front, ScanError>
    ensures looked { spec.Looked result (ReadFront path.now 5)
        (λ front tree. spec.IsFrontOf front tree path.now)
        (seen disk.old) (seen disk.new) }
    ensures first { GoesOn (FindsFirst spec.has_front result path.now)
        (seen disk.old).told (seen disk.new).told }
{
    let mut front = [0; 5];
    match disk.read_front(path, &mut front) {
        Ok(count) => match Bytes::copy_of(alloc, &front[..count]) {
            Ok(bytes) => Ok(Front::Begins(bytes)),
            Err(_) => Err(ScanError::NoMemory),
        },
        Err(DiskError::Missing) => Ok(Front::Free),
        Err(DiskError::WrongNode) => Ok(Front::Directory),
        Err(DiskError::NoMemory) => Err(ScanError::NoMemory),
        Err(DiskError::Fault) => Err(ScanError::Fault),
        Err(DiskError::Exists | DiskError::Long(_)) => unreachable!(),
    }
}
