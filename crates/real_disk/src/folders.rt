//! Folders that are listed, synced and made.

ghost use Rattle.std.specs.Prelude.{IfErr, IfOk, ◌≡◌};
ghost use Rattle.disk_model.specs.Answers.{AreText, IsLookError, IsMakeError, IsNodeError};

use crate::system::{making_refusal, name_of, refusal, stat_at, want_folder};
use disk_model::DiskError;
use mail_base::{Bytes, Names};
use std::alloc::Global;
use std::fs;
use std::fs::{File, OpenFile};
use std::rt::{Files, Runtime};

/// The most names of a folder.
const MOST_NAMES: usize = 16_777_216;

/// The names in a folder in the order of their bytes.
pub(crate) fn list_at<R: Runtime>(rt: &R, alloc: Global, dir: &str) -> Result<Names, DiskError>
    ensures errors { IfErr result IsNodeError }
    ensures text { IfOk result (λ names. AreText names.items) }
{
    want_folder(rt, dir)?;
    let mut names = names_in(rt, alloc, dir)?;
    names.sort().map_err(|_| DiskError::NoMemory)?;
    put_names(alloc, names)
}

fn names_in<R: Runtime>(rt: &R, alloc: Global, dir: &str) -> Result<Vec<String>, DiskError>
    ensures { IfErr result IsLookError }
{
    let mut names = Vec::new(alloc);
    for entry in fs::read_dir(rt, dir).map_err(refusal)? {
        let entry = entry.map_err(refusal)?;
        if names.len() >= MOST_NAMES {
            return Err(DiskError::Fault);
        }
        let name = String::from_str(alloc, entry.file_name()).map_err(|_| DiskError::NoMemory)?;
        names.push(name).map_err(|_| DiskError::NoMemory)?;
    }
    Ok(names)
}

fn put_names(alloc: Global, names: Vec<String>) -> Result<Names, DiskError>
    ensures errors { IfErr result IsLookError }
    ensures text { IfOk result (λ names. AreText names.items) }
{
    let mut put = Names::new(alloc);
    for name in names {
        put.push(Bytes::copy_of(alloc, name.as_str().as_bytes())?)?;
    }
    Ok(put)
}

/// Makes sure that the folder of a path is there: below a file all is missing.
pub(crate) fn want_folder_of<R: Files>(rt: &R, path: &str) -> Result<(), DiskError>
    ensures { IfErr result IsLookError }
{
    if stat_at(rt, name_of(folder_of(path)))?.folder {
        Ok(())
    } else {
        Err(DiskError::Missing)
    }
}

/// What stands before the last slash of a path.
fn folder_of(path: &str) -> &str {
    match path.rsplit_once('/') {
        None => "",
        Some(("", _)) => "/",
        Some((folder, _)) => folder,
    }
}

pub(crate) fn sync_dir_at<R: Files>(rt: &R, dir: &str) -> Result<(), DiskError>
    ensures { IfErr result IsNodeError }
{
    want_folder(rt, dir)?;
    File::open(rt, dir)
        .map_err(refusal)?
        .sync_all()
        .map_err(refusal)?;
    Ok(())
}

pub(crate) fn make_dir_at<R: Files>(rt: &R, path: &str) -> Result<(), DiskError>
    ensures { IfErr result IsMakeError }
{
    fs::create_dir(rt, path).map_err(making_refusal)?;
    Ok(())
}
