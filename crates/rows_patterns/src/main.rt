//! The worked rows of expressions, of patterns, of what they match and of scores: each case file is
//! read, each case's calls made and compared.
#![tactic(auto)]

mod expressions;
mod listing;
mod matched_cases;
mod pattern_texts;

use crate::expressions::Expressions;
use crate::matched_cases::MatchedCases;
use crate::pattern_texts::PatternTexts;
use case_files::{Report, play_file, print_report};
use mail_base::NoMemory;
use std::io;
use std::process::ExitCode;

fn main(rt: HostRuntime) -> io::Result<ExitCode> {
    let mut report = Report::new(rt.alloc());
    match play_all(&rt, &mut report) {
        Ok(()) => print_report(&rt, &report),
        Err(NoMemory) => Ok(ExitCode::from(2)),
    }
}

/// Plays each case file, a line a file.
fn play_all(rt: &HostRuntime, report: &mut Report) -> Result<(), NoMemory> {
    play_file(rt, &Expressions, "expressions", report)?;
    play_file(rt, &PatternTexts, "patterns", report)?;
    play_file(rt, &MatchedCases, "matches", report)
}
