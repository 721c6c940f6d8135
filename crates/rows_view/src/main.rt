//! The worked rows of the view of the index: each case file is read, each case's calls made and
//! compared.
#![tactic(auto)]

mod mailbox;
mod questions;
mod scene;
mod settings;
mod step;
mod steps;
mod texts;
mod view_cases;

use crate::view_cases::ViewCases;
use case_files::{Report, play_file, print_report};
use mail_base::NoMemory;
use std::process::ExitCode;
use std::{fs, io};

fn main(rt: HostRuntime) -> io::Result<ExitCode> {
    let mut report = Report::new(rt.alloc());
    match play_all(&rt, &mut report) {
        Ok(()) => print_report(&rt, &report),
        Err(NoMemory) => Ok(ExitCode::from(2)),
    }
}

/// Plays each case file, a line a file.
fn play_all(rt: &HostRuntime, report: &mut Report) -> Result<(), NoMemory> {
    play_over(rt, "mail_three", "calls", report)?;
    play_over(rt, "mail_twenty", "orders", report)?;
    play_over(rt, "mail_threads", "trees", report)?;
    play_over(rt, "mail_threads", "cursors", report)?;
    play_over(rt, "mail_letters", "letters", report)?;
    play_over(rt, "mail_flags", "limits", report)?;
    play_over(rt, "mail_three", "scores", report)
}

/// Plays a case file over a mailbox.
fn play_over(
    rt: &HostRuntime,
    mailbox: &str,
    cases: &str,
    report: &mut Report,
) -> Result<(), NoMemory> {
    match fs::read(rt, mailbox) {
        Ok(mailbox) => play_file(rt, &ViewCases { mailbox }, cases, report),
        Err(_) => report.tell_file(mailbox, "not read"),
    }
}
