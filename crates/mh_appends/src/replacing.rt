//! Files that are written and put in place of others.

ghost use Rattle.std.specs.Prelude.{◌≡◌, [], IfErr, IfOk, OnOk};
ghost use Rattle.disk_model.specs.Judge.{Counted};
ghost use Rattle.mh_appends.specs.Replacing as spec;

use disk_model::{Disk, DiskError};
use mail_base::Bytes;
use std::alloc::Global;

/// Makes a file of these bytes, and puts them on the disk.
pub fn write_file(
    alloc: Global,
    disk: &mut dyn Disk,
    path: &str,
    bytes: &[u8],
) -> Result<(), DiskError>
    ensures writes { spec.WritesFile path.now bytes.now result
        (seen disk.old).told (seen disk.new).told }
    ensures counts { Counted result (seen disk.old) (seen disk.new) }
{
    disk.create(alloc, path)?;
    disk.write_at(alloc, path, 0, bytes)?;
    disk.sync(alloc, path)
}

/// Writes a file beside another one, and puts it in its place.
pub fn replace_file(
    alloc: Global,
    disk: &mut dyn Disk,
    side: &str,
    path: &str,
    bytes: &[u8],
) -> Result<(), DiskError>
    ensures replaces { spec.ReplacesFile side.now path.now bytes.now result
        (seen disk.old).told (seen disk.new).told }
    ensures counts { Counted result (seen disk.old) (seen disk.new) }
{
    match write_file(alloc, disk, side, bytes) {
        Ok(()) => {}
        Err(why) => return Err(why),
    }
    disk.rename(alloc, side, path)
}

// The bytes of a file that was refused so: none where it is missing.
fn none_if_missing(alloc: Global, why: DiskError) -> Result<Bytes, DiskError>
    ensures none { IfOk result (λ bytes. bytes.items ≡ []) }
    ensures missing { OnOk result (why ≡ DiskError.Missing) }
    ensures same { IfErr result (λ told. told ≡ why) }
    ensures other { IfErr result (λ told. ¬ (told ≡ DiskError.Missing)) }
{
    match why {
        DiskError::Missing => Ok(Bytes::new(alloc)),
        _ => Err(why),
    }
}

/// The bytes of a file, and none where it is missing.
pub fn read_file(alloc: Global, disk: &mut dyn Disk, path: &str) -> Result<Bytes, DiskError>
    ensures reads { spec.ReadsFile path.now result (seen disk.old).told (seen disk.new).told }
    ensures counts { Counted result (seen disk.old) (seen disk.new) }
{
    match disk.read_all(alloc, path, u64::MAX) {
        Ok(read) => Ok(read.bytes),
        Err(why) => none_if_missing(alloc, why),
    }
}
