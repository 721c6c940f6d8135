//! Calls as they are asked for.

ghost use Rattle.std.specs.Prelude.{◌≡◌, true, IfOk};
ghost use Rattle.std.specs.Str.{is_utf8};
ghost use Rattle.disk_model.specs.Lawful.{is_text};
ghost use Rattle.disk_state.specs.Plain.{plain_call};
ghost use Rattle.memory_disk.specs.Plain.{plain_asked};

use disk_state::Call;
use mail_base::{Bytes, NoMemory};
use std::alloc::Global;

/// A call with what it is given.
#[derive(Clone, Copy)]
pub(crate) enum Asked<'a> {
    ListDir(&'a str),
    StatPath(&'a str),
    ReadFront(&'a str, usize),
    ReadAll(&'a str, u64),
    Create(&'a str),
    WriteAt(&'a str, u64, &'a [u8]),
    Cut(&'a str, u64),
    Sync(&'a str),
    Rename(&'a str, &'a str),
    Remove(&'a str),
    SyncDir(&'a str),
    MakeDir(&'a str),
}

/// The call as the journal keeps it.
pub(crate) fn kept_call(alloc: Global, asked: Asked<'_>) -> Result<Call, NoMemory>
    ensures call { IfOk result (λ call. plain_call call ≡ plain_asked asked.entry) }
    ensures text { IfOk result (λ call. is_text (plain_call call) ≡ true) }
{
    match asked {
        Asked::ListDir(dir) => Ok(Call::ListDir(text(alloc, dir)?)),
        Asked::StatPath(path) => Ok(Call::StatPath(text(alloc, path)?)),
        Asked::ReadFront(path, size) => Ok(Call::ReadFront(text(alloc, path)?, size)),
        Asked::ReadAll(path, limit) => Ok(Call::ReadAll(text(alloc, path)?, limit)),
        Asked::Create(path) => Ok(Call::Create(text(alloc, path)?)),
        Asked::WriteAt(path, at, piece) => {
            let path = text(alloc, path)?;
            Ok(Call::WriteAt(path, at, Bytes::copy_of(alloc, piece)?))
        }
        Asked::Cut(path, size) => Ok(Call::Cut(text(alloc, path)?, size)),
        Asked::Sync(path) => Ok(Call::Sync(text(alloc, path)?)),
        Asked::Rename(from, to) => Ok(Call::Rename(text(alloc, from)?, text(alloc, to)?)),
        Asked::Remove(path) => Ok(Call::Remove(text(alloc, path)?)),
        Asked::SyncDir(dir) => Ok(Call::SyncDir(text(alloc, dir)?)),
        Asked::MakeDir(path) => Ok(Call::MakeDir(text(alloc, path)?)),
    }
}

fn text(alloc: Global, path: &str) -> Result<Bytes, NoMemory>
    ensures bytes { IfOk result (λ bytes. bytes.items ≡ path.now) }
    ensures text { IfOk result (λ bytes. is_utf8 bytes.items ≡ true) }
{
    let bytes = Bytes::copy_of(alloc, path.as_bytes())?;
    Ok(bytes)
}
