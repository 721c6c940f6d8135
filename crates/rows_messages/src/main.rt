//! The worked rows of messages as text: each case file is read, each case's calls made and
//! compared.
#![tactic(auto)]

mod draft_calls;
mod hook_calls;
mod letters;
mod pages;

use crate::draft_calls::DraftCalls;
use crate::hook_calls::HookCalls;
use crate::pages::Pages;
use case_files::{Report, play_file, print_report};
use mail_base::NoMemory;
use std::io;
use std::process::ExitCode;

fn main(rt: HostRuntime) -> io::Result<ExitCode> {
    let mut report = Report::new(rt.alloc());
    match play_all(&rt, &mut report) {
        Ok(()) => print_report(&rt, &report),
        Err(NoMemory) => Ok(ExitCode::from(2)),
    }
}

/// Plays each case file, a line a file.
fn play_all(rt: &HostRuntime, report: &mut Report) -> Result<(), NoMemory> {
    play_file(rt, &Pages, "pages", report)?;
    play_file(rt, &DraftCalls, "drafts", report)?;
    play_file(rt, &HookCalls, "hooks", report)
}
