//! The worked rows of threads: each case file is read, each case's calls made and compared.
#![tactic(auto)]

mod all_lists;
mod many;
mod plain;
mod threads_calls;

use crate::all_lists::AllLists;
use crate::many::Many;
use crate::threads_calls::ThreadCalls;
use case_files::{Report, play_file, print_report};
use mail_base::NoMemory;
use std::io;
use std::process::ExitCode;

fn main(rt: HostRuntime) -> io::Result<ExitCode> {
    let mut report = Report::new(rt.alloc());
    match play_all(&rt, &mut report) {
        Ok(()) => print_report(&rt, &report),
        Err(NoMemory) => Ok(ExitCode::from(2)),
    }
}

/// Plays each case file, a line a file.
fn play_all(rt: &HostRuntime, report: &mut Report) -> Result<(), NoMemory> {
    play_file(rt, &ThreadCalls, "threads", report)?;
    play_file(rt, &AllLists, "all_lists", report)?;
    play_file(rt, &Many, "many", report)
}
