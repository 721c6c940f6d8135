//! Files that are made, written, cut, synced, moved and taken away.

ghost use Rattle.std.specs.Prelude.{IfErr};
ghost use Rattle.disk_model.specs.Answers.{IsLookError, IsMakeError, IsNodeError};

use crate::folders::want_folder_of;
use crate::system::{making_refusal, refusal, stat_at, want_file};
use disk_model::DiskError;
use std::fs::{File, OpenFile, OpenOptions};
use std::io::{Seek, SeekFrom, Write};
use std::rt::Files;
use std::{fs, io};

/// The cause of a refusal behind which something may have been done already.
fn fault(_: io::Error) -> DiskError
    ensures { IsLookError result }
{
    DiskError::Fault
}

/// Opens a file that stands there.
fn open_to_write<R: Files>(rt: &R, path: &str) -> Result<R::File, DiskError>
    ensures { IfErr result IsLookError }
{
    OpenOptions::new()
        .write(true)
        .open(rt, path)
        .map_err(refusal)
}

pub(crate) fn create_at<R: Files>(rt: &R, path: &str) -> Result<(), DiskError>
    ensures { IfErr result IsMakeError }
{
    let _ = File::create_new(rt, path).map_err(making_refusal)?;
    Ok(())
}

/// The system makes no place by a write of no bytes, so a file that ends before `at` is made longer
/// first.
pub(crate) fn write_bytes_at<R: Files>(
    rt: &R,
    path: &str,
    at: u64,
    bytes: &[u8],
) -> Result<(), DiskError>
    ensures { IfErr result IsNodeError }
{
    let length = want_file(rt, path)?;
    let mut file = open_to_write(rt, path)?;
    if length < at {
        file.set_len(at).map_err(fault)?;
    }
    file.seek(SeekFrom::Start(at)).map_err(fault)?;
    file.write_all(bytes).map_err(fault)?;
    Ok(())
}

pub(crate) fn cut_at<R: Files>(rt: &R, path: &str, length: u64) -> Result<(), DiskError>
    ensures { IfErr result IsNodeError }
{
    want_file(rt, path)?;
    open_to_write(rt, path)?.set_len(length).map_err(fault)?;
    Ok(())
}

pub(crate) fn sync_at<R: Files>(rt: &R, path: &str) -> Result<(), DiskError>
    ensures { IfErr result IsNodeError }
{
    want_file(rt, path)?;
    File::open(rt, path)
        .map_err(refusal)?
        .sync_all()
        .map_err(fault)?;
    Ok(())
}

pub(crate) fn rename_at<R: Files>(rt: &R, from: &str, to: &str) -> Result<(), DiskError>
    ensures { IfErr result IsNodeError }
{
    let moved = stat_at(rt, from)?;
    want_folder_of(rt, to)?;
    if moved.folder || is_folder(rt, to)? {
        return Err(DiskError::WrongNode);
    }
    fs::rename(rt, from, to).map_err(refusal)?;
    Ok(())
}

fn is_folder<R: Files>(rt: &R, path: &str) -> Result<bool, DiskError>
    ensures { IfErr result IsLookError }
{
    match stat_at(rt, path) {
        Ok(stat) => Ok(stat.folder),
        Err(DiskError::Missing) => Ok(false),
        Err(why) => Err(why),
    }
}

pub(crate) fn remove_at<R: Files>(rt: &R, path: &str) -> Result<(), DiskError>
    ensures { IfErr result IsNodeError }
{
    want_file(rt, path)?;
    fs::remove_file(rt, path).map_err(refusal)?;
    Ok(())
}
