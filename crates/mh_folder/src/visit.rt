//! What a walk over the files of a folder goes by.

ghost use Rattle.std.specs.Prelude.{◌≡◌, ◌<◌, true, IfOk, length, map};
ghost use Rattle.std.specs.List.{All};
ghost use Rattle.folder_core.specs.Keeping.{mails_of};
ghost use Rattle.folder_core.specs.Looked.{OnlyMeets};
ghost use Rattle.folder_core.specs.Mh.{ReadsBeside};
ghost use Rattle.folder_letters.specs.Letters.{plain_letter};
ghost use Rattle.mh_folder.specs.Folder.{ReadsMarks};
ghost use Rattle.mh_folder.specs.KnownFile.{files_of, rises_from};

use crate::folder::read_marks;
use crate::known_files::KnownFiles;
use disk_model::Disk;
use folder_core::{Archive, Known, ScanError};
use mail_base::NoMemory;
use mh_sequences::Marks;
use std::alloc::Global;

/// What the sequences mark, and the messages that are listed.
#[derive(Drop)]
pub struct Visit {
    pub marks: Marks,
    pub files: KnownFiles,
}

/// Reads the sequences of a known folder, and finds its listed messages in the archive.
pub fn begin_visit(
    alloc: Global,
    disk: &mut dyn Disk,
    known: &Known,
    archive: &Archive,
) -> Result<Visit, ScanError>
    requires within { All (λ listed. listed.id.0 < length archive.now.items) known.now.listing }
    requires rises { rises_from 0 (files_of (mails_of (map plain_letter archive.now.items)
        known.now.listing) known.now.stamps) ≡ true }
    ensures read { IfOk result (λ visit. ReadsMarks known.now.path visit.marks
        (seen disk.old).told (seen disk.new).told) }
    ensures files { IfOk result (λ visit. visit.files.files.items ≡ files_of (mails_of (map
        plain_letter archive.now.items) known.now.listing) known.now.stamps) }
    ensures meets { OnlyMeets result (seen disk.old) (seen disk.new) }
    ensures reads { ReadsBeside known.now.path 0 (seen disk.old) (seen disk.new) }
{
    let marks = match read_marks(alloc, disk, known.path()) {
        Ok(marks) => marks,
        Err(why) => return Err(why),
    };
    let listing = known.listing().as_slice();
    match KnownFiles::of(alloc, listing, known.stamps().as_slice(), archive) {
        Ok(files) => Ok(Visit { marks, files }),
        Err(NoMemory) => Err(ScanError::NoMemory),
    }
}
