//! What looks at a folder tell before its files are read: the numbers in it, and what its
//! sequences mark.

ghost use Rattle.std.specs.Prelude.{IfOk, map};
ghost use Rattle.disk_model.specs.Judge.{GoesOn};
ghost use Rattle.folder_core.specs.Looked.{OnlyMeets};
ghost use Rattle.folder_core.specs.Mh.{ReadsBeside};
ghost use Rattle.mh_folder.specs.Folder as spec;

use crate::numbered_name::{NumberedName, numbered_names};
use disk_model::Disk;
use folder_core::{Content, Contents, ScanError, content_of, contents_of, path_in};
use mail_base::NoMemory;
use mh_sequences::Marks;
use std::alloc::Global;

/// The numbers in the folder at a path, the lowest first.
pub fn list_numbers(
    alloc: Global,
    disk: &mut dyn Disk,
    path: &str,
) -> Result<Vec<NumberedName>, ScanError>
    ensures { spec.Finds path.now result
        (λ files old new. spec.ListsNumbers path.now files.items old new)
        (seen disk.old) (seen disk.new) }
{
    let names = match contents_of(alloc, disk, path)? {
        Contents::Names(names) => names,
        Contents::Nothing => return Err(ScanError::Missing),
        Contents::File => return Err(ScanError::NotMailbox(0)),
    };
    match numbered_names(alloc, names.as_slice()) {
        Ok(files) => Ok(files),
        Err(NoMemory) => Err(ScanError::NoMemory),
    }
}

/// What the sequences of the folder at a path mark; without a file of them each is empty.
pub fn read_marks(alloc: Global, disk: &mut dyn Disk, path: &str) -> Result<Marks, ScanError>
    ensures read { IfOk result (λ marks. spec.ReadsMarks path.now marks
        (seen disk.old).told (seen disk.new).told) }
    ensures meets { OnlyMeets result (seen disk.old) (seen disk.new) }
    ensures reads { ReadsBeside path.now 0 (seen disk.old) (seen disk.new) }
{
    let file = path_in(alloc, path, ".mh_sequences")?;
    match content_of(alloc, disk, file.as_str(), u64::MAX)? {
        Content::NoFile => Ok(Marks::read(alloc, &[])?),
        Content::Whole(read) => Ok(Marks::read(alloc, read.bytes.as_slice())?),
        Content::TooLong(_) => unreachable!(),
    }
}
