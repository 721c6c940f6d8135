//! The files of a folder that may be messages, by looks at its directories.

ghost use Rattle.std.specs.Prelude.{IfOk, map};
ghost use Rattle.disk_model.specs.Answers.{AreText};
ghost use Rattle.disk_model.specs.Judge.{GoesOn};
ghost use Rattle.maildir_folder.specs.Files as spec;

use crate::candidates::{Candidate, candidates};
use disk_model::Disk;
use folder_core::{Contents, ScanError, contents_of, look_at, path_in};
use mail_base::{Names, NoMemory};
use std::alloc::Global;

// Looks whether a directory stands at the path.
fn find_folder(disk: &mut dyn Disk, path: &str) -> Result<(), ScanError>
    ensures { spec.Finds path.now result
        (λ given old new. GoesOn (spec.FolderSeen path.now) old new)
        (seen disk.old) (seen disk.new) }
{
    match look_at(disk, path)? {
        Some(stat) => {
            if stat.folder {
                Ok(())
            } else {
                Err(ScanError::NotMailbox(0))
            }
        }
        None => Err(ScanError::Missing),
    }
}

// The names in `new`, none where no directory is called so.
fn new_names(alloc: Global, disk: &mut dyn Disk, path: &str) -> Result<Names, ScanError>
    ensures found { spec.FindsNames path.now result
        (λ names old new. GoesOn (spec.NewSeen path.now (spec.plain_names names)) old new)
        (seen disk.old) (seen disk.new) }
    ensures text { IfOk result (λ names. AreText names.items) }
{
    let dir = path_in(alloc, path, "new")?;
    match contents_of(alloc, disk, dir.as_str())? {
        Contents::Names(names) => Ok(names),
        Contents::Nothing => {
            // That the past is lawful tells that nothing stands in a directory that is not there.
            let _ = disk.mark();
            Ok(Names::new(alloc))
        }
        Contents::File => Err(ScanError::NotMailbox(0)),
    }
}

// The names in `cur`.
fn cur_names(alloc: Global, disk: &mut dyn Disk, path: &str) -> Result<Names, ScanError>
    ensures found { spec.FindsNames path.now result
        (λ names old new. GoesOn (spec.CurSeen path.now (spec.plain_names names)) old new)
        (seen disk.old) (seen disk.new) }
    ensures text { IfOk result (λ names. AreText names.items) }
{
    let dir = path_in(alloc, path, "cur")?;
    match contents_of(alloc, disk, dir.as_str())? {
        Contents::Names(names) => Ok(names),
        Contents::Nothing => Err(ScanError::NotMailbox(0)),
        Contents::File => Err(ScanError::NotMailbox(0)),
    }
}

/// The files of the Maildir at a path that may be messages, in the order of their messages.
pub fn list_files(
    alloc: Global,
    disk: &mut dyn Disk,
    path: &str,
) -> Result<Vec<Candidate>, ScanError>
    ensures { spec.Finds path.now result
        (λ files old new. spec.ListsFiles path.now files.items old new)
        (seen disk.old) (seen disk.new) }
{
    find_folder(disk, path)?;
    let new = match new_names(alloc, disk, path) {
        Ok(names) => names,
        Err(why) => return Err(why),
    };
    let cur = match cur_names(alloc, disk, path) {
        Ok(names) => names,
        Err(why) => return Err(why),
    };
    match candidates(alloc, cur.as_slice(), new.as_slice()) {
        Ok(files) => Ok(files),
        Err(NoMemory) => Err(ScanError::NoMemory),
    }
}
