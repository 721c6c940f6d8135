//! Calls of a disk as a case writes them, and their answers.

use case_disks::text_of;
use case_files::{Answer, Case, CaseFault, read_number};
use disk_model::{Device, Disk, DiskError, FileRead, Stat};
use mail_base::{Bytes, Names, NoMemory};
use std::alloc::Global;

/// Whether the stamp of a file is told. That of a file on the system differs from run to run.
#[derive(Clone, Copy)]
pub enum Stamps {
    Told,
    Untold,
}

/// Makes each `call` of a case and puts what it answers, and then the mark of the disk and its
/// faults.
pub fn put_calls(
    alloc: Global,
    answer: &mut Answer,
    dev: &mut Device,
    case: &Case,
    stamps: Stamps,
) -> Result<(), CaseFault> {
    for entry in case.entries.as_slice() {
        if entry.key.as_slice() == b"call".as_slice() {
            put_call(alloc, answer, dev, text_of(entry.value.as_slice())?, stamps)?;
        }
    }
    let mark = dev.mark();
    let faults = dev.faults();
    answer.put_text(b"mark", format!(in alloc; "{mark}")?.as_str())?;
    answer.put_text(b"faults", format!(in alloc; "{faults}")?.as_str())
}

fn put_call(
    alloc: Global,
    answer: &mut Answer,
    dev: &mut Device,
    call: &str,
    stamps: Stamps,
) -> Result<(), CaseFault> {
    let (name, rest) = call.split_once(' ').unwrap_or((call, ""));
    match name {
        "list" => put_names(alloc, answer, dev.disk.list(alloc, rest)),
        "stat" => put_stat(alloc, answer, dev.disk.stat(rest), stamps),
        "create" => put_done(alloc, answer, dev.disk.create(alloc, rest)),
        "sync" => put_done(alloc, answer, dev.disk.sync(alloc, rest)),
        "remove" => put_done(alloc, answer, dev.disk.remove(alloc, rest)),
        "sync_dir" => put_done(alloc, answer, dev.disk.sync_dir(alloc, rest)),
        "make_dir" => put_done(alloc, answer, dev.disk.make_dir(alloc, rest)),
        _ => put_longer_call(alloc, answer, dev, call, stamps),
    }
}

/// A call that takes more than a path.
fn put_longer_call(
    alloc: Global,
    answer: &mut Answer,
    dev: &mut Device,
    call: &str,
    stamps: Stamps,
) -> Result<(), CaseFault> {
    let (name, rest) = call.split_once(' ').ok_or(CaseFault::BadInput)?;
    let (path, more) = rest.split_once(' ').ok_or(CaseFault::BadInput)?;
    match name {
        "read_all" => {
            let limit = read_number(more.as_bytes())?;
            put_file(alloc, answer, dev.disk.read_all(alloc, path, limit), stamps)
        }
        "agree" => put_agreement(alloc, answer, dev, path, read_number(more.as_bytes())?),
        "read_front" => put_front(alloc, answer, dev, path, read_number(more.as_bytes())?),
        "cut" => {
            let length = read_number(more.as_bytes())?;
            put_done(alloc, answer, dev.disk.cut(alloc, path, length))
        }
        "rename" => put_done(alloc, answer, dev.disk.rename(alloc, path, more)),
        "write_at" => {
            let (at, bytes) = more.split_once(' ').unwrap_or((more, ""));
            let at = read_number(at.as_bytes())?;
            let done = dev.disk.write_at(alloc, path, at, bytes.as_bytes());
            put_done(alloc, answer, done)
        }
        _ => Err(CaseFault::BadInput),
    }
}

/// Puts whether a look at a file and a whole read of it tell the same of it, its stamp too.
fn put_agreement(
    alloc: Global,
    answer: &mut Answer,
    dev: &mut Device,
    path: &str,
    limit: u64,
) -> Result<(), CaseFault> {
    let looked = dev.disk.stat(path);
    let read = dev.disk.read_all(alloc, path, limit);
    let agrees = match (looked, read) {
        (Ok(stat), Ok(read)) => stat == read.stat,
        _ => false,
    };
    answer.put_flag(b"agree", agrees)
}

fn put_done(
    alloc: Global,
    answer: &mut Answer,
    done: Result<(), DiskError>,
) -> Result<(), CaseFault> {
    match done {
        Ok(()) => answer.put(b"answer", b"done"),
        Err(error) => put_error(alloc, answer, error),
    }
}

/// The names with a blank between them.
fn put_names(
    alloc: Global,
    answer: &mut Answer,
    names: Result<Names, DiskError>,
) -> Result<(), CaseFault> {
    match names {
        Ok(names) => put_listed(alloc, answer, names.as_slice()),
        Err(error) => put_error(alloc, answer, error),
    }
}

fn put_listed(alloc: Global, answer: &mut Answer, names: &[Bytes]) -> Result<(), CaseFault> {
    let mut text = Bytes::copy_of(alloc, b"names")?;
    append_names(&mut text, names)?;
    answer.put(b"answer", text.as_slice())
}

fn append_names(text: &mut Bytes, names: &[Bytes]) -> Result<(), NoMemory> {
    for name in names {
        text.push(b' ')?;
        text.append(name.as_slice())?;
    }
    Ok(())
}

fn put_stat(
    alloc: Global,
    answer: &mut Answer,
    stat: Result<Stat, DiskError>,
    stamps: Stamps,
) -> Result<(), CaseFault> {
    match stat {
        Ok(stat) => put_node(alloc, answer, stat, stamps),
        Err(error) => put_error(alloc, answer, error),
    }
}

fn put_file(
    alloc: Global,
    answer: &mut Answer,
    read: Result<FileRead, DiskError>,
    stamps: Stamps,
) -> Result<(), CaseFault> {
    match read {
        Ok(read) => {
            put_node(alloc, answer, read.stat, stamps)?;
            answer.put(b"bytes", read.bytes.as_slice())
        }
        Err(error) => put_error(alloc, answer, error),
    }
}

fn put_front(
    alloc: Global,
    answer: &mut Answer,
    dev: &mut Device,
    path: &str,
    length: u64,
) -> Result<(), CaseFault> {
    let mut front = Vec::new(alloc);
    front.resize(usize::try_from(length).unwrap_or(0), 0u8)?;
    match dev.disk.read_front(path, front.as_mut_slice()) {
        Ok(count) => answer.put(b"bytes", front.as_slice().get(..count).unwrap_or(b"")),
        Err(error) => put_error(alloc, answer, error),
    }
}

fn put_node(
    alloc: Global,
    answer: &mut Answer,
    stat: Stat,
    stamps: Stamps,
) -> Result<(), CaseFault> {
    if stat.folder {
        return answer.put(b"answer", b"folder");
    }
    let length = stat.length;
    let stamp = stat.stamp;
    let text = match stamps {
        Stamps::Told => format!(in alloc; "file of {length}, stamp {stamp}")?,
        Stamps::Untold if stamp > 0 => format!(in alloc; "file of {length}, stamped")?,
        Stamps::Untold => format!(in alloc; "file of {length}, not stamped")?,
    };
    answer.put_text(b"answer", text.as_str())
}

fn put_error(alloc: Global, answer: &mut Answer, error: DiskError) -> Result<(), CaseFault> {
    answer.put_text(b"answer", format!(in alloc; "{error}")?.as_str())
}
