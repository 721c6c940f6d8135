//! The worked rows of the tables of people, of rows of the index and of its status line: each case
//! file is read, each case's calls made and compared.
#![tactic(auto)]

mod index_lines;
mod people_calls;
mod status_lines;

use crate::index_lines::IndexLines;
use crate::people_calls::PeopleCalls;
use crate::status_lines::StatusLines;
use case_files::{Report, play_file, print_report};
use mail_base::NoMemory;
use std::io;
use std::process::ExitCode;

fn main(rt: HostRuntime) -> io::Result<ExitCode> {
    let mut report = Report::new(rt.alloc());
    match play_all(&rt, &mut report) {
        Ok(()) => print_report(&rt, &report),
        Err(NoMemory) => Ok(ExitCode::from(2)),
    }
}

/// Plays each case file, a line a file.
fn play_all(rt: &HostRuntime, report: &mut Report) -> Result<(), NoMemory> {
    play_file(rt, &PeopleCalls, "tables", report)?;
    play_file(rt, &IndexLines, "index_lines", report)?;
    play_file(rt, &StatusLines, "status_lines", report)
}
