//! Cases of folders of very many messages, in the folder that the program runs in.

use case_disks::text_of;
use case_files::{Answer, Case, CaseFault, Entry, Subject, read_number};
use disk_model::{Device, DiskError};
use folder_core::{Archive, Found, Known, ScanError};
use folder_drivers::Driver;
use mail_base::Kind;
use maildir_folder::MaildirDriver;
use mbox_folder::MboxDriver;
use mh_folder::MhDriver;
use real_disk::RealDisk;
use std::alloc::Global;

/// `make PATH` is a folder that is made, and `messages PATH N` makes the files from N to the
/// value in it, of one byte each; `size PATH` makes a file of so many zero bytes, none of which
/// takes room. Each `mbox`, `maildir` and `mh` is the path of a folder that is scanned. What a
/// case makes stands there for the next ones.
#[derive(Drop)]
pub struct FolderScans<'a> {
    pub rt: &'a HostRuntime,
}

impl Subject for FolderScans<'_> {
    fn inputs(&self) -> &[&[u8]] {
        &[b"make", b"messages", b"size", b"mbox", b"maildir", b"mh"]
    }

    fn answer(&self, alloc: Global, case: &Case, answer: &mut Answer) -> Result<(), CaseFault> {
        let disk = RealDisk::new(self.rt.clone()?);
        let mut dev = Device::new(Box::new(alloc, disk)?);
        put_steps(alloc, answer, &mut dev, case)
    }
}

fn put_steps(
    alloc: Global,
    answer: &mut Answer,
    dev: &mut Device,
    case: &Case,
) -> Result<(), CaseFault> {
    for entry in case.entries.as_slice() {
        put_step(alloc, answer, dev, entry)?;
    }
    Ok(())
}

fn put_step(
    alloc: Global,
    answer: &mut Answer,
    dev: &mut Device,
    entry: &Entry,
) -> Result<(), CaseFault> {
    let role = entry.role();
    let value = entry.value.as_slice();
    if role == b"make".as_slice() {
        let path = text_of(value)?;
        dev.disk.make_dir(alloc, path).map_err(unmade)
    } else if role == b"messages".as_slice() {
        make_messages(alloc, dev, text_of(entry.about())?, read_number(value)?)
    } else if role == b"size".as_slice() {
        make_file(alloc, dev, text_of(entry.about())?, read_number(value)?)
    } else if role == b"mbox".as_slice() {
        put_mbox(alloc, answer, dev, text_of(value)?)
    } else if role == b"maildir".as_slice() {
        put_maildir(alloc, answer, dev, text_of(value)?)
    } else if role == b"mh".as_slice() {
        put_mh(alloc, answer, dev, text_of(value)?)
    } else {
        Ok(())
    }
}

fn unmade(_error: DiskError) -> CaseFault {
    CaseFault::BadInput
}

/// Makes the files of these numbers.
fn make_messages(alloc: Global, dev: &mut Device, about: &str, last: u64) -> Result<(), CaseFault> {
    let (path, first) = about.split_once(' ').ok_or(CaseFault::BadInput)?;
    for number in read_number(first.as_bytes())?..=last {
        let file = format!(in alloc; "{path}/{number}")?;
        make_message(alloc, dev, file.as_str())?;
    }
    Ok(())
}

fn make_message(alloc: Global, dev: &mut Device, file: &str) -> Result<(), CaseFault> {
    dev.disk.create(alloc, file).map_err(unmade)?;
    dev.disk.write_at(alloc, file, 0, b"\n").map_err(unmade)
}

/// Makes a file of so many zero bytes.
fn make_file(alloc: Global, dev: &mut Device, path: &str, size: u64) -> Result<(), CaseFault> {
    dev.disk.create(alloc, path).map_err(unmade)?;
    dev.disk.cut(alloc, path, size).map_err(unmade)
}

fn put_mbox(
    alloc: Global,
    answer: &mut Answer,
    dev: &mut Device,
    path: &str,
) -> Result<(), CaseFault> {
    let mut known = Known::new(alloc, path, Kind::Mbox)?;
    let mut archive = Archive::new(alloc);
    let found = MboxDriver::new().scan(alloc, dev, &mut known, &mut archive);
    put_scan(alloc, answer, &known, found)
}

fn put_maildir(
    alloc: Global,
    answer: &mut Answer,
    dev: &mut Device,
    path: &str,
) -> Result<(), CaseFault> {
    let mut known = Known::new(alloc, path, Kind::Maildir)?;
    let mut archive = Archive::new(alloc);
    let found = MaildirDriver::new().scan(alloc, dev, &mut known, &mut archive);
    put_scan(alloc, answer, &known, found)
}

fn put_mh(
    alloc: Global,
    answer: &mut Answer,
    dev: &mut Device,
    path: &str,
) -> Result<(), CaseFault> {
    let mut known = Known::new(alloc, path, Kind::Mh)?;
    let mut archive = Archive::new(alloc);
    let found = MhDriver::new().scan(alloc, dev, &mut known, &mut archive);
    put_scan(alloc, answer, &known, found)
}

/// Puts how many messages a scan listed, of a folder of which nothing was known, or why it was
/// refused.
fn put_scan(
    alloc: Global,
    answer: &mut Answer,
    known: &Known,
    found: Result<Found, ScanError>,
) -> Result<(), CaseFault> {
    put_end(alloc, answer, found)?;
    answer.put_count(b"listed", known.listing().len())
}

fn put_end(
    alloc: Global,
    answer: &mut Answer,
    found: Result<Found, ScanError>,
) -> Result<(), CaseFault> {
    match found {
        Ok(_) => answer.put(b"scan", b"done"),
        Err(error) => answer.put_text(b"scan", format!(in alloc; "{error}")?.as_str()),
    }
}
