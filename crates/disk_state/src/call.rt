//! The journal of a disk: calls of our own, and what others do.

use crate::Action;
use disk_model::DiskError;
use mail_base::Bytes;

/// A call with what it was given.
#[derive(Drop)]
pub enum Call {
    ListDir(Bytes),
    StatPath(Bytes),
    ReadFront(Bytes, usize),
    ReadAll(Bytes, u64),
    Create(Bytes),
    WriteAt(Bytes, u64, Bytes),
    Cut(Bytes, u64),
    Sync(Bytes),
    Rename(Bytes, Bytes),
    Remove(Bytes),
    SyncDir(Bytes),
    MakeDir(Bytes),
}

/// A call of our own with why it was refused, if it was, or an action of others.
#[derive(Drop)]
pub enum Entry {
    Own(Call, Option<DiskError>),
    Others(Action),
}
