//! Refusals of a sync for messages whose files are gone.

ghost use Rattle.std.specs.Prelude.{◌≡◌, ◌==◌, ◌<◌, ◌∷◌, [], IfOk, IfSome, find, length, map};
ghost use Rattle.std.specs.Prelude.{true};
ghost use Rattle.std.specs.Option.{option_copied};
ghost use Rattle.folder_core.specs.Keeping.{lists_id, mail_of};
ghost use Rattle.folder_core.specs.Maildir.{path_of};
ghost use Rattle.folder_letters.specs.Letters.{plain_letter};
ghost use Rattle.folder_drivers.specs.MaildirSync.{IsSyncError, file_known};
ghost use Rattle.folder_changes.specs.Serving.{IsErrorAt};

use folder_changes::{Spot, SyncError};
use folder_core::{Known, Letter, Listed, path_in};
use mail_base::{Bytes, Flags, Id, NoMemory};
use maildir_names::{MaildirName, make_name};
use std::alloc::Global;

// The path of the file of a base by these flags.
fn path_known(alloc: Global, path: &str, base: &[u8], flags: Flags) -> Result<Bytes, NoMemory>
    ensures { IfOk result (λ at. at.items ≡ path_of path.now (file_known base.now flags)) }
{
    let name = MaildirName {
        base: Bytes::copy_of(alloc, base)?,
        flags,
        others: Bytes::new(alloc),
    };
    let made = make_name(alloc, &name)?;
    let dir = path_in(alloc, path, if flags.is_new() { "new" } else { "cur" })?;
    let front = path_in(alloc, dir.as_str(), "")?;
    let mut at = Bytes::copy_of(alloc, front.as_bytes())?;
    at.append(made.as_slice())?;
    Ok(at)
}

// That the file of a base by these flags is gone.
fn file_gone(alloc: Global, path: &str, base: &[u8], flags: Flags) -> SyncError
    ensures at { IsErrorAt (path_of path.now (file_known base.now flags)) result }
    ensures no_fault { ¬ (result ≡ SyncError.Fault) }
{
    match path_known(alloc, path, base, flags) {
        Ok(at) => SyncError::Changed(Spot::Name(at)),
        Err(NoMemory) => SyncError::NoMemory,
    }
}

// The listed message with an id.
fn listed_at(listing: &[Listed], id: Id) -> Option<&Listed>
    ensures { option_copied result ≡ find (λ listed. listed.id.0 == id.0) listing.now }
{
    listing.iter().find(|listed| listed.id.0 == id.0)
}

/// That the file of a listed message is gone, which is named as its known flags would have it.
pub fn message_gone(alloc: Global, known: &Known, archive: &[Letter], id: Id) -> SyncError
    requires within { id.0 < length archive.now }
    requires listed { lists_id known.now.listing id.0 ≡ true }
    ensures at { IfSome (find (λ listed. listed.id.0 == id.0) known.now.listing)
        (λ listed. IsErrorAt (path_of known.now.path (file_known
        (mail_of (map plain_letter archive.now) id.0).key listed.flags)) result) }
    ensures names { IsSyncError known.now.path (map plain_letter archive.now) (id ∷ []) result }
    ensures no_fault { ¬ (result ≡ SyncError.Fault) }
{
    let key = archive[id.0 as usize].key.as_slice();
    match listed_at(known.listing().as_slice(), id) {
        Some(listed) => file_gone(alloc, known.path(), key, listed.flags),
        None => unreachable!(),
    }
}
