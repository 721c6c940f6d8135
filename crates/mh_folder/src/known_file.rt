//! A listed message by its number.

ghost use Rattle.std.specs.Prelude.{◌≡◌, ◌<◌, length, map};
ghost use Rattle.folder_core.specs.Keeping.{with_mail};
ghost use Rattle.folder_letters.specs.Letters.{plain_letter};
ghost use Rattle.mh_folder.specs.KnownFile as spec;

use folder_core::{Archive, Listed};
use mail_base::Id;

/// A listed message: its number and its id, the stamp of its file, and the length of its letter.
#[derive(Clone, Copy)]
pub struct KnownFile {
    pub order: u64,
    pub id: Id,
    pub stamp: u128,
    pub size: u64,
}

/// A listed message, whose file had this stamp, by its letter.
pub fn known_file(listed: &Listed, stamp: u128, archive: &Archive) -> KnownFile
    requires { listed.now.id.0 < length archive.now.items }
    ensures { result ≡ spec.file_of (with_mail (map plain_letter archive.now.items) listed.now)
        stamp }
{
    let Some(letter) = archive.get(listed.id.0 as usize) else {
        unreachable!()
    };
    KnownFile {
        order: letter.order,
        id: listed.id,
        stamp,
        size: letter.core.len() as u64,
    }
}
