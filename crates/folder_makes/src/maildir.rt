//! Making a Maildir (maildir(5)).

ghost use Rattle.std.specs.Prelude.{◌≡◌, OnOk, map};
ghost use Rattle.folder_drivers.specs.Made as spec;
ghost use Rattle.folder_drivers.specs.Made.{MakesAs, maildir_makes};
ghost use Rattle.folder_makes.specs.Parts.{IsIn, IsPart, LeavesMaildir, NeedsEither, NeedsIn};
ghost use Rattle.folder_makes.specs.Parts.{NeedsKept, Nowhere, maildir_names};

use crate::beginning::look_or_make;
use crate::directories::{keep_directories, make_directories};
use disk_model::Disk;
use folder_changes::SyncError;
use mail_base::Bytes;
use std::alloc::Global;

// Whether making a Maildir begins with a directory of this name.
fn begins(name: &[u8]) -> bool
    ensures { result ≡ spec.begins_maildir name.now }
{
    name == b"tmp".as_slice() || name == b"new".as_slice()
}

// Whether `cur` is among these names.
fn has_cur(names: &[Bytes]) -> bool
    ensures { result ≡ spec.has_cur (map (λ name. name.items) names.now) }
{
    let mut left = names;
    while let [name, rest @ ..] = left {
        if name.as_slice() == b"cur".as_slice() {
            return true;
        }
        left = rest;
    }
    false
}

// Whether making a Maildir begins with each of these names.
fn all_begin(names: &[Bytes]) -> bool
    ensures { result ≡ spec.all_begin (map (λ name. name.items) names.now) }
{
    let mut left = names;
    while let [name, rest @ ..] = left {
        if !begins(name.as_slice()) {
            return false;
        }
        left = rest;
    }
    true
}

// Whether a directory with these names is a Maildir, or was begun as one.
fn is_begun(names: &[Bytes]) -> bool
    ensures { result ≡ spec.is_maildir_begun (map (λ name. name.items) names.now) }
{
    has_cur(names) || all_begin(names)
}

// Makes what a directory lacks of a Maildir.
fn finish(alloc: Global, disk: &mut dyn Disk, path: &str) -> Result<(), SyncError>
    ensures part { IsPart (IsIn path.now maildir_names) Nowhere
        (NeedsEither (NeedsIn path.now maildir_names) NeedsKept) result
        (seen disk.old) (seen disk.new) }
    ensures there { OnOk result (LeavesMaildir path.now
        (seen disk.old).told (seen disk.new).told) }
{
    match make_directories(alloc, disk, path) {
        Ok(()) => {}
        Err(why) => return Err(why),
    }
    keep_directories(alloc, disk, path)
}

/// Makes an empty Maildir at a path, or what is missing of one that was begun. A Maildir that
/// stands there keeps its messages.
pub fn make_maildir(alloc: Global, disk: &mut dyn Disk, path: &str) -> Result<(), SyncError>
    ensures { MakesAs maildir_makes path.now result (seen disk.old) (seen disk.new) }
{
    // That the past is lawful tells that nothing stands in a directory that is not there.
    let _ = disk.mark();
    let names = match look_or_make(alloc, disk, path) {
        Ok(names) => names,
        Err(why) => return Err(why),
    };
    if !is_begun(names.as_slice()) {
        return Err(SyncError::NotFolder);
    }
    finish(alloc, disk, path)
}
