//! Reads of files.

ghost use Rattle.std.specs.Prelude.{◌≡◌, ◌≤◌, IfErr, IfOk, IfSome, length};
ghost use Rattle.disk_model.specs.Answers.{IsLookError, IsNodeError, IsReadError, IsWhole};
ghost use Rattle.disk_model.specs.Answers.{LeavesFront};

use crate::system::{is_null_device, length_of, refusal, stat_open, want_file};
use disk_model::{DiskError, FileRead, Stat};
use mail_base::Bytes;
use std::alloc::{Allocator, Global};
use std::fs;
use std::fs::{File, OpenFile};
use std::io::Read;
use std::rt::{Files, Runtime};

/// How often a file is read that others change meanwhile.
const TRIES: u32 = 5;

/// The first bytes of a file, at most so many.
fn front_of<F: Read, A: Allocator>(
    file: &mut F,
    alloc: A,
    length: u64,
) -> Result<Vec<u8, A>, DiskError>
    ensures { IfErr result IsLookError }
{
    let mut bytes = Vec::with_capacity(alloc, length as usize).map_err(|_| DiskError::NoMemory)?;
    file.take(length).read_to_end(&mut bytes).map_err(refusal)?;
    Ok(bytes)
}

/// Reads the first bytes of the file at a path into a slice.
pub(crate) fn read_front_at<R: Runtime>(
    rt: &R,
    path: &str,
    into: &mut [u8],
) -> Result<usize, DiskError>
    ensures errors { IfErr result IsNodeError }
    ensures front { LeavesFront result into.old into.new }
{
    want_file(rt, path)?;
    let mut file = File::open(rt, path).map_err(refusal)?;
    let bytes = front_of(&mut file, rt.alloc(), into.len() as u64)?;
    let count = bytes.len();
    if count > into.len() {
        return Err(DiskError::Fault);
    }
    into[..count].copy_from_slice(bytes.as_slice());
    Ok(count)
}

/// The device that holds nothing is read as a file of no bytes. What has taken its place, or gives
/// bytes, is a fault.
fn read_null<R: Files>(rt: &R, alloc: Global, path: &str) -> Result<FileRead, DiskError>
    ensures whole { IfOk result (IsWhole 0) }
    ensures errors { IfErr result IsLookError }
{
    let mut file = File::open(rt, path).map_err(refusal)?;
    if !is_null_device(&file.metadata().map_err(refusal)?) {
        return Err(DiskError::Fault);
    }
    let bytes = front_of(&mut file, alloc, 1)?;
    if !bytes.is_empty() {
        return Err(DiskError::Fault);
    }
    let stat = Stat {
        folder: false,
        length: 0,
        stamp: 0,
    };
    let bytes = Bytes::from_vec(bytes);
    Ok(FileRead { stat, bytes })
}

/// The whole file, unless it was changed while it was read.
fn read_once<R: Files>(
    rt: &R,
    alloc: Global,
    path: &str,
    limit: u64,
) -> Result<Option<FileRead>, DiskError>
    ensures whole { IfOk result (λ read. IfSome read (IsWhole limit)) }
    ensures errors { IfErr result (IsReadError limit) }
{
    let data = fs::metadata(rt, path).map_err(refusal)?;
    if is_null_device(&data) {
        return Ok(Some(read_null(rt, alloc, path)?));
    }
    length_of(&data)?;
    let mut file = File::open(rt, path).map_err(refusal)?;
    read_open(alloc, &mut file, limit)
}

/// The whole of an open file, unless it was changed while it was read.
fn read_open<F: Read + OpenFile>(
    alloc: Global,
    file: &mut F,
    limit: u64,
) -> Result<Option<FileRead>, DiskError>
    ensures whole { IfOk result (λ read. IfSome read (IsWhole limit)) }
    ensures errors { IfErr result (IsReadError limit) }
{
    let stat = stat_open(file)?;
    if stat.folder {
        return Err(DiskError::WrongNode);
    }
    if stat.length > limit {
        return Err(DiskError::Long(stat.length));
    }
    let bytes = front_of(file, alloc, stat.length)?;
    if stat_open(file)? != stat || bytes.len() as u64 != stat.length {
        return Ok(None);
    }
    Ok(Some(FileRead {
        stat,
        bytes: Bytes::from_vec(bytes),
    }))
}

/// The whole file, as it was in one of a few tries.
pub(crate) fn read_all_at<R: Files>(
    rt: &R,
    alloc: Global,
    path: &str,
    limit: u64,
) -> Result<FileRead, DiskError>
    ensures whole { IfOk result (IsWhole limit) }
    ensures errors { IfErr result (IsReadError limit) }
{
    for _ in 0..TRIES {
        if let Some(read) = read_once(rt, alloc, path, limit)? {
            return Ok(read);
        }
    }
    Err(DiskError::Fault)
}
