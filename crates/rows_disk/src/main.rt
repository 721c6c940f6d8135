//! The worked rows of disks and of folders on them: each case file is read, each case's calls made
//! and compared.
#![tactic(auto)]

mod calls;
mod disks;
mod files;
mod folders;
mod kinds;
mod scans;
mod trees;

use crate::disks::DiskCalls;
use crate::files::FileCalls;
use crate::folders::FolderScans;
use crate::kinds::FolderKinds;
use crate::scans::Scans;
use crate::trees::Trees;
use case_files::{Report, play_file, print_report};
use mail_base::NoMemory;
use std::io;
use std::process::ExitCode;

fn main(rt: HostRuntime) -> io::Result<ExitCode> {
    let mut report = Report::new(rt.alloc());
    match play_all(&rt, &mut report) {
        Ok(()) => print_report(&rt, &report),
        Err(NoMemory) => Ok(ExitCode::from(2)),
    }
}

/// Plays each case file, a line a file.
fn play_all(rt: &HostRuntime, report: &mut Report) -> Result<(), NoMemory> {
    play_file(rt, &Trees, "trees", report)?;
    play_file(rt, &DiskCalls, "disks", report)?;
    play_file(rt, &FileCalls { rt }, "files", report)?;
    play_file(rt, &FolderScans { rt }, "folders", report)?;
    play_file(rt, &FolderKinds, "kinds", report)?;
    play_file(rt, &Scans, "scans", report)?;
    play_file(rt, &Scans, "rescans", report)
}
