//! The program: a mail reader in the manner of Mutt.
#![tactic(auto)]

mod environment;

use crate::environment::command_words;
use disk_model::Device;
use folder_core::Archive;
use folder_drivers::Drivers;
use mail_base::{Lines, Names, RealClock, StdSink, StdSource};
use maildir_folder::MaildirDriver;
use mbox_folder::MboxDriver;
use mh_folder::MhDriver;
use mutt_run::{Status, run};
use people::{RegexBuild, Verdicts};
use real_disk::RealDisk;
use session_events::{Events, Trace};
use std::io;
use std::process::ExitCode;

fn main(rt: HostRuntime) -> io::Result<ExitCode> {
    let status = match started(&rt) {
        Ok(status) => status,
        Err(_) => Status::NoMemory,
    };
    Ok(ExitCode::from(status.number()))
}

/// Runs the reader on the words, the streams, the disk and the clock of this process.
fn started(rt: &HostRuntime) -> io::Result<Status> {
    let alloc = rt.alloc();
    let Ok(words) = command_words(alloc, rt) else {
        return Ok(Status::NoMemory);
    };
    let mut dev = Device::new(Box::new(alloc, RealDisk::new(rt.clone()?))?);
    let mut drivers = Drivers::new(alloc);
    if drivers.add(Box::new(alloc, MboxDriver::new())?).is_err() {
        return Ok(Status::NoMemory);
    }
    if drivers.add(Box::new(alloc, MaildirDriver::new())?).is_err() {
        return Ok(Status::NoMemory);
    }
    if drivers.add(Box::new(alloc, MhDriver::new())?).is_err() {
        return Ok(Status::NoMemory);
    }
    let builder = Box::new(alloc, RegexBuild::new(Names::new(alloc)))?;
    let mut trace = Trace {
        archive: Archive::new(alloc),
        events: Events::new(alloc),
        notes: Lines::new(alloc),
        verdicts: Verdicts::new(alloc, builder),
    };
    Ok(run(
        alloc,
        &words,
        &mut StdSource::new(rt.reader()),
        &mut StdSink::new(rt.stdout()),
        &mut StdSink::new(rt.stderr()),
        &mut dev,
        &mut drivers,
        &mut RealClock::new(rt.clone()?),
        &mut trace,
    ))
}
