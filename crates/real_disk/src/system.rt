//! What the system tells of a path, and why it refuses.

ghost use Rattle.std.specs.Prelude.{◌≡◌, ◌==◌, ◌∷◌, [], length, IfErr, IfOk, OnOk, if◌then◌else◌};
ghost use Rattle.std_io.specs.IoError.{error_kind};
ghost use Rattle.disk_model.specs.Answers.{IsLookError, IsNodeError, IsPlainStat};
ghost use Rattle.real_disk.specs.Real.{making_refusal_of, refusal_of};

use disk_model::{DiskError, Stat};
use std::fs::{Metadata, OpenFile};
use std::io::ErrorKind;
use std::os::unix::fs::{FileTypeExt, MetadataExt};
use std::rt::Files;
use std::time::UNIX_EPOCH;
use std::{fs, io};

/// The number of the device that holds nothing, as `/dev/null`: Linux's 1:3.
const NULL_DEVICE: u64 = 0x103;

/// What the system calls the path.
pub(crate) fn name_of(path: &str) -> &str
    ensures { result.now ≡ (if length path.now == 0 then 46 ∷ [] else path.now) }
{
    if path.is_empty() { "." } else { path }
}

/// Why the system refused a call.
pub(crate) fn refusal(e: io::Error) -> DiskError
    ensures exact { result ≡ refusal_of (error_kind e) }
    ensures errors { IsLookError result }
{
    match e.kind() {
        ErrorKind::NotFound | ErrorKind::NotADirectory => DiskError::Missing,
        ErrorKind::OutOfMemory => DiskError::NoMemory,
        _ => DiskError::Fault,
    }
}

/// Why the system refused to make something.
pub(crate) fn making_refusal(e: io::Error) -> DiskError
    ensures { result ≡ making_refusal_of (error_kind e) }
{
    match e.kind() {
        ErrorKind::AlreadyExists => DiskError::Exists,
        _ => refusal(e),
    }
}

fn stamp_of(data: &Metadata) -> Result<u128, DiskError>
    ensures { IfErr result IsLookError }
{
    let modified = data.modified().map_err(refusal)?;
    match modified.duration_since(UNIX_EPOCH) {
        Ok(since) => Ok(since.as_nanos()),
        Err(_) => Ok(0),
    }
}

/// What is neither a file nor a folder, as a pipe or a device, is a fault.
pub(crate) fn stat_of(data: &Metadata) -> Result<Stat, DiskError>
    ensures errors { IfErr result IsLookError }
    ensures plain { IfOk result IsPlainStat }
{
    if data.is_dir() {
        return Ok(Stat {
            folder: true,
            length: 0,
            stamp: 0,
        });
    }
    if !data.is_file() {
        return Err(DiskError::Fault);
    }
    Ok(Stat {
        folder: false,
        length: data.len(),
        stamp: stamp_of(data)?,
    })
}

/// What stands at a path, or where a link there leads to.
pub(crate) fn stat_at<R: Files>(rt: &R, path: &str) -> Result<Stat, DiskError>
    ensures errors { IfErr result IsLookError }
    ensures plain { IfOk result IsPlainStat }
{
    stat_of(&fs::metadata(rt, path).map_err(refusal)?)
}

pub(crate) fn stat_open<F: OpenFile>(file: &F) -> Result<Stat, DiskError>
    ensures errors { IfErr result IsLookError }
    ensures plain { IfOk result IsPlainStat }
{
    stat_of(&file.metadata().map_err(refusal)?)
}

/// Whether it is the device that holds nothing, which is opened and read without waiting.
pub(crate) fn is_null_device(data: &Metadata) -> bool {
    data.file_type().is_char_device() && data.rdev() == NULL_DEVICE
}

/// The length of a file. What is none is refused, so that no call that opens one waits for another
/// program.
pub(crate) fn length_of(data: &Metadata) -> Result<u64, DiskError>
    ensures { IfErr result IsNodeError }
{
    let stat = stat_of(data)?;
    if stat.folder {
        return Err(DiskError::WrongNode);
    }
    Ok(stat.length)
}

/// Makes sure that a file stands at the path.
pub(crate) fn want_file<R: Files>(rt: &R, path: &str) -> Result<u64, DiskError>
    ensures { IfErr result IsNodeError }
{
    length_of(&fs::metadata(rt, path).map_err(refusal)?)
}

/// Makes sure that a folder stands at the path.
pub(crate) fn want_folder<R: Files>(rt: &R, path: &str) -> Result<(), DiskError>
    ensures { IfErr result IsNodeError }
{
    if stat_at(rt, path)?.folder {
        Ok(())
    } else {
        Err(DiskError::WrongNode)
    }
}
