//! Cases of whole runs over memory: words, nodes, keys and moments in; screens, notes and the
//! status out.

use crate::clock::LateClock;
use case_disks::{disk_of, numbers_of, text_of, words_of};
use case_files::{Answer, Case, CaseFault, Entry, Subject};
use disk_model::{Device, Disk};
use folder_core::Archive;
use folder_drivers::Drivers;
use mail_base::{Bytes, Lines, MemoryClock, MemorySink, MemorySource, Names, Words};
use maildir_folder::MaildirDriver;
use mbox_folder::MboxDriver;
use mh_folder::MhDriver;
use mutt_run::run;
use people::{RegexBuild, Verdicts};
use session_events::{Event, Events, Trace};
use std::alloc::Global;

/// The most bytes that a case prints.
const OUT_ROOM: usize = 1_000_000;

/// The most bytes that a case tells.
const ERRS_ROOM: usize = 10_000;

/// `words` and then each `word` are the command line, `failing keys`, `failing out`, `failing
/// errs` and `failing disk` the calls that fail, from 0. The clock is `behind` so many seconds.
/// `screen N` is a whole screen, `row N M` a line of it, both from 1; `pressed` the moment of a
/// key; `after PATH` what stands there then.
pub struct WholeRuns;

impl Subject for WholeRuns {
    fn inputs(&self) -> &[&[u8]] {
        &[
            b"file", b"folder", b"failing", b"stop", b"others", b"words", b"word", b"keys",
            b"moments", b"behind",
        ]
    }

    fn answer(&self, alloc: Global, case: &Case, answer: &mut Answer) -> Result<(), CaseFault> {
        let words = words_of(alloc, case)?;
        let mut dev = Device::new(Box::new(alloc, disk_of(alloc, case)?)?);
        let mut streams = streams_of(alloc, case)?;
        let ended = play_run(alloc, &words, &mut dev, &mut streams)?;
        put_end(answer, &ended, &streams)?;
        put_screens(alloc, answer, streams.out.written().as_slice())?;
        put_nodes(alloc, answer, case, &mut dev)
    }
}

/// What a run reads and writes beside the disk.
#[derive(Drop)]
pub struct Streams {
    pub keys: MemorySource,
    out: MemorySink,
    errs: MemorySink,
    clock: LateClock,
}

/// How a run ended, the letters that it met, and what happened.
#[derive(Drop)]
pub struct Ended {
    status: u8,
    pub archive: Archive,
    events: Events,
}

/// What the run of a case reads and writes.
pub fn streams_of(alloc: Global, case: &Case) -> Result<Streams, CaseFault> {
    Ok(Streams {
        keys: keys_of(alloc, case)?,
        out: sink_of(alloc, case, OUT_ROOM, b"failing out")?,
        errs: sink_of(alloc, case, ERRS_ROOM, b"failing errs")?,
        clock: clock_of(alloc, case)?,
    })
}

fn keys_of(alloc: Global, case: &Case) -> Result<MemorySource, CaseFault> {
    let keys = Bytes::copy_of(alloc, case.find(b"keys").unwrap_or(b""))?;
    let fails = numbers_of(alloc, case, b"failing keys")?;
    Ok(MemorySource::new(keys, fails))
}

// A sink with so much room, of which the writes under a key fail.
fn sink_of(alloc: Global, case: &Case, room: usize, fails: &[u8]) -> Result<MemorySink, CaseFault> {
    let fails = numbers_of(alloc, case, fails)?;
    Ok(MemorySink::new(alloc, room, fails)?)
}

fn clock_of(alloc: Global, case: &Case) -> Result<LateClock, CaseFault> {
    let behind = case.number(b"behind")?.unwrap_or(0);
    Ok(LateClock {
        clock: MemoryClock::new(numbers_of(alloc, case, b"moments")?),
        behind: i64::try_from(behind).unwrap_or(0),
    })
}

/// Makes a run.
pub fn play_run(
    alloc: Global,
    words: &Words,
    dev: &mut Device,
    streams: &mut Streams,
) -> Result<Ended, CaseFault> {
    let mut drivers = Drivers::new(alloc);
    if drivers.add(Box::new(alloc, MboxDriver::new())?).is_err() {
        return Err(CaseFault::NoMemory);
    }
    if drivers.add(Box::new(alloc, MaildirDriver::new())?).is_err() {
        return Err(CaseFault::NoMemory);
    }
    if drivers.add(Box::new(alloc, MhDriver::new())?).is_err() {
        return Err(CaseFault::NoMemory);
    }
    let builder = Box::new(alloc, RegexBuild::new(Names::new(alloc)))?;
    let mut trace = Trace {
        archive: Archive::new(alloc),
        events: Events::new(alloc),
        notes: Lines::new(alloc),
        verdicts: Verdicts::new(alloc, builder),
    };
    let status = run(
        alloc,
        words,
        &mut streams.keys,
        &mut streams.out,
        &mut streams.errs,
        dev,
        &mut drivers,
        &mut streams.clock,
        &mut trace,
    );
    let Trace {
        archive,
        events,
        ..
    } = trace;
    Ok(Ended {
        status: status.number(),
        archive,
        events,
    })
}

fn put_end(answer: &mut Answer, ended: &Ended, streams: &Streams) -> Result<(), CaseFault> {
    answer.put_count(b"status", usize::from(ended.status))?;
    answer.put_count(b"letters", ended.archive.len())?;
    for event in ended.events.as_slice() {
        if let Event::Pressed { moment, .. } = event {
            answer.put_number(b"pressed", *moment)?;
        }
    }
    answer.put(b"errs", streams.errs.written().as_slice())?;
    answer.put(b"out", streams.out.written().as_slice())
}

/// Puts how many screens were printed, and each of them. A screen ends with a form feed and a line
/// feed.
fn put_screens(alloc: Global, answer: &mut Answer, out: &[u8]) -> Result<(), CaseFault> {
    let screens = out.iter().filter(|byte| **byte == 12).count();
    answer.put_count(b"screens", screens)?;
    for (place, page) in out.split(|byte| *byte == 12).enumerate().take(screens) {
        let number = place.saturating_add(1);
        let page = match page {
            [b'\n', rest @ ..] if place > 0 => rest,
            _ => page,
        };
        put_screen(alloc, answer, number, page)?;
        put_rows(alloc, answer, number, page)?;
    }
    Ok(())
}

fn put_screen(
    alloc: Global,
    answer: &mut Answer,
    number: usize,
    page: &[u8],
) -> Result<(), CaseFault> {
    let key = format!(in alloc; "screen {number}")?;
    answer.put(key.as_bytes(), page)
}

fn put_rows(
    alloc: Global,
    answer: &mut Answer,
    number: usize,
    page: &[u8],
) -> Result<(), CaseFault> {
    for (place, line) in page.split(|byte| *byte == b'\n').enumerate() {
        let row = place.saturating_add(1);
        let key = format!(in alloc; "row {number} {row}")?;
        answer.put(key.as_bytes(), line)?;
    }
    Ok(())
}

/// Puts what stands at each path of which the case says `after PATH`.
fn put_nodes(
    alloc: Global,
    answer: &mut Answer,
    case: &Case,
    dev: &mut Device,
) -> Result<(), CaseFault> {
    for entry in case.entries.as_slice() {
        if entry.role() == b"after".as_slice() {
            put_node(alloc, answer, entry, dev)?;
        }
    }
    Ok(())
}

fn put_node(
    alloc: Global,
    answer: &mut Answer,
    entry: &Entry,
    dev: &mut Device,
) -> Result<(), CaseFault> {
    let key = entry.key.as_slice();
    match dev.disk.read_all(alloc, text_of(entry.about())?, u64::MAX) {
        Ok(read) => answer.put(key, read.bytes.as_slice()),
        Err(error) => answer.put_text(key, format!(in alloc; "{error}")?.as_str()),
    }
}
