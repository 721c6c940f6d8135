//! Cases of folders that are made, and of messages that are added to them.

ghost use Rattle.std.specs.Prelude.{◌≡◌, Any};

use crate::flags::flags_named;
use crate::outcome::put_outcome;
use crate::playing::{folder_of, owner_of, put_played};
use case_disks::text_of;
use case_files::{Answer, Case, CaseFault, Entry, Subject, read_number};
use disk_model::Device;
use folder_changes::Item;
use folder_core::Archive;
use folder_drivers::Drivers;
use mail_base::{Bytes, Kind};
use std::alloc::Global;

/// An `mbox`, a `maildir` or an `mh` is made at each `make`, and to it the text of each `append
/// LETTERS SECONDS SENDER` is added, with the flags of these letters (`-` for none), received so
/// many seconds after 1970 began, from that sender if one stands there, under the lock of the
/// `owner`. Behind each stands what it answered; behind all of them stands the tree.
pub struct Additions;

impl Subject for Additions {
    fn inputs(&self) -> &[&[u8]] {
        &[
            b"file", b"folder", b"failing", b"stop", b"others", b"mbox", b"maildir", b"mh",
            b"owner", b"make", b"append",
        ]
    }

    fn answer(&self, alloc: Global, case: &Case, answer: &mut Answer) -> Result<(), CaseFault> {
        put_played(alloc, answer, case)
    }
}

/// Makes the folder and adds each message, as the case has it.
pub fn put_additions(
    alloc: Global,
    answer: &mut Answer,
    dev: &mut Device,
    drivers: &Drivers,
    case: &Case,
) -> Result<(), CaseFault> {
    let (kind, path) = folder_of(case)?;
    if drivers.has(kind) {
        put_each(alloc, answer, dev, drivers, kind, text_of(path)?, case)
    } else {
        Err(CaseFault::BadInput)
    }
}

fn put_each(
    alloc: Global,
    answer: &mut Answer,
    dev: &mut Device,
    drivers: &Drivers,
    kind: Kind,
    path: &str,
    case: &Case,
) -> Result<(), CaseFault>
    requires has { Any (λ d. sort (d.vtable, d.value) ≡ kind) drivers.now.list.items }
{
    let owner = owner_of(case);
    for entry in case.entries.as_slice() {
        put_addition(alloc, answer, dev, drivers, kind, path, owner, entry)?;
    }
    Ok(())
}

fn put_addition(
    alloc: Global,
    answer: &mut Answer,
    dev: &mut Device,
    drivers: &Drivers,
    kind: Kind,
    path: &str,
    owner: &[u8],
    entry: &Entry,
) -> Result<(), CaseFault>
    requires has { Any (λ d. sort (d.vtable, d.value) ≡ kind) drivers.now.list.items }
{
    if entry.role() == b"make".as_slice() {
        let outcome = drivers.make(alloc, kind, dev, path);
        return put_outcome(alloc, answer, b"made", &outcome);
    }
    if entry.role() != b"append".as_slice() {
        return Ok(());
    }
    let item = item_of(alloc, entry)?;
    let archive = Archive::new(alloc);
    let outcome = drivers.append(alloc, kind, dev, path, owner, &archive, &item);
    put_outcome(alloc, answer, b"added", &outcome)
}

fn item_of(alloc: Global, entry: &Entry) -> Result<Item, CaseFault> {
    let about = text_of(entry.about())?;
    let (letters, rest) = about.split_once(' ').ok_or(CaseFault::BadInput)?;
    let (seconds, sender) = rest.split_once(' ').unwrap_or((rest, ""));
    let letters = if letters == "-" { "" } else { letters };
    let seconds = read_number(seconds.as_bytes())?;
    if seconds > 253_000_000_000 {
        return Err(CaseFault::BadInput);
    }
    Ok(Item {
        text: Bytes::copy_of(alloc, entry.value.as_slice())?,
        flags: flags_named(letters.as_bytes())?,
        sender: Bytes::copy_of(alloc, sender.as_bytes())?,
        moment: seconds as i64,
    })
}
