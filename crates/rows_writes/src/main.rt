//! The worked rows of folders that are written: each case file is read, each case's calls made and
//! compared.
#![tactic(auto)]

mod additions;
mod asked;
mod flags;
mod outcome;
mod playing;
mod stops;
mod syncs;
mod tree;

use crate::additions::Additions;
use crate::stops::Stops;
use crate::syncs::Syncs;
use case_files::{Report, play_file, print_report};
use mail_base::NoMemory;
use std::io;
use std::process::ExitCode;

fn main(rt: HostRuntime) -> io::Result<ExitCode> {
    let mut report = Report::new(rt.alloc());
    match play_all(&rt, &mut report) {
        Ok(()) => print_report(&rt, &report),
        Err(NoMemory) => Ok(ExitCode::from(2)),
    }
}

/// Plays each case file, a line a file.
fn play_all(rt: &HostRuntime, report: &mut Report) -> Result<(), NoMemory> {
    play_file(rt, &Syncs, "syncs", report)?;
    play_file(rt, &Additions, "additions", report)?;
    play_file(rt, &Stops, "stops", report)?;
    play_file(rt, &Syncs, "mailboxes", report)?;
    play_file(rt, &Additions, "mail_additions", report)?;
    play_file(rt, &Stops, "mail_stops", report)
}
