//! The worked rows of whole runs: each case file is read, each case's run made and compared.
#![tactic(auto)]

mod clock;
mod runs;
mod stops;

use crate::runs::WholeRuns;
use crate::stops::StoppedRuns;
use case_files::{Report, play_file, print_report};
use mail_base::NoMemory;
use std::io;
use std::process::ExitCode;

fn main(rt: HostRuntime) -> io::Result<ExitCode> {
    let mut report = Report::new(rt.alloc());
    match play_all(&rt, &mut report) {
        Ok(()) => print_report(&rt, &report),
        Err(NoMemory) => Ok(ExitCode::from(2)),
    }
}

/// Plays each case file, a line a file.
fn play_all(rt: &HostRuntime, report: &mut Report) -> Result<(), NoMemory> {
    play_file(rt, &WholeRuns, "runs", report)?;
    play_file(rt, &WholeRuns, "runs_rc", report)?;
    play_file(rt, &WholeRuns, "runs_index", report)?;
    play_file(rt, &WholeRuns, "runs_prompts", report)?;
    play_file(rt, &WholeRuns, "runs_commands", report)?;
    play_file(rt, &WholeRuns, "runs_scores", report)?;
    play_file(rt, &WholeRuns, "runs_sources", report)?;
    play_file(rt, &WholeRuns, "runs_pager", report)?;
    play_file(rt, &WholeRuns, "runs_checks", report)?;
    play_file(rt, &WholeRuns, "runs_syncs", report)?;
    play_file(rt, &StoppedRuns, "runs_stops", report)
}
