//! Names of the files of messages.

ghost use Rattle.std.specs.Prelude.{◌≡◌, IfOk, IfSome, is_some};
ghost use Rattle.folder_core.specs.Directory.{path_in as path_in_lem};
ghost use Rattle.folder_core.specs.Mh.{is_number, number_at as number_at_lem};
ghost use Rattle.folder_changes.specs.Serving.{IsErrorAt};

use folder_changes::{Spot, SyncError};
use folder_core::{path_in, read_number};
use mail_base::{Bytes, NoMemory};
use std::alloc::Global;

/// The number of a key, or 0.
pub fn number_at(key: &[u8]) -> u32
    ensures { result ≡ number_at_lem key.now }
{
    match read_number(key) {
        Some(number) => number,
        None => 0,
    }
}

/// The name of the file of a message, where its key is a number.
pub fn number_name(key: &[u8]) -> Option<&str>
    ensures name { IfSome result (λ name. name.now ≡ key.now) }
    ensures number { is_some result ≡ is_number key.now }
{
    if read_number(key).is_none() {
        return None;
    }
    let Ok(name) = str::from_utf8(key) else {
        unreachable!()
    };
    Some(name)
}

// The path of the file of a message.
fn message_path(alloc: Global, path: &str, key: &[u8]) -> Result<Bytes, NoMemory>
    ensures { IfOk result (λ at. at.items ≡ path_in_lem path.now key.now) }
{
    let front = path_in(alloc, path, "")?;
    let mut at = Bytes::copy_of(alloc, front.as_bytes())?;
    at.append(key)?;
    Ok(at)
}

/// That the file of a message is not as it is known.
pub fn message_changed(alloc: Global, path: &str, key: &[u8]) -> SyncError
    ensures at { IsErrorAt (path_in_lem path.now key.now) result }
    ensures no_fault { ¬ (result ≡ SyncError.Fault) }
{
    match message_path(alloc, path, key) {
        Ok(at) => SyncError::Changed(Spot::Name(at)),
        Err(NoMemory) => SyncError::NoMemory,
    }
}
