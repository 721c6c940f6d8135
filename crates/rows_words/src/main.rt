//! The worked rows of command lines, muttrc, keys and formats: each case file is read, each case's
//! call made and compared.
#![tactic(auto)]

mod command_lines;
mod formats;
mod key_functions;
mod key_queues;
mod key_streams;
mod key_texts;
mod key_words;
mod muttrc;
mod presses;
mod settings;

use crate::command_lines::CommandLines;
use crate::formats::Formats;
use crate::key_functions::KeyFunctions;
use crate::key_queues::KeyQueues;
use crate::key_streams::KeyStreams;
use crate::key_words::KeyWords;
use crate::muttrc::MuttrcLines;
use crate::presses::Presses;
use crate::settings::SettingCommands;
use case_files::{Report, play_file, print_report};
use mail_base::NoMemory;
use std::io;
use std::process::ExitCode;

fn main(rt: HostRuntime) -> io::Result<ExitCode> {
    let mut report = Report::new(rt.alloc());
    match play_all(&rt, &mut report) {
        Ok(()) => print_report(&rt, &report),
        Err(NoMemory) => Ok(ExitCode::from(2)),
    }
}

/// Plays each case file, a line a file.
fn play_all(rt: &HostRuntime, report: &mut Report) -> Result<(), NoMemory> {
    play_file(rt, &CommandLines, "command_lines", report)?;
    play_file(rt, &MuttrcLines, "muttrc", report)?;
    play_file(rt, &SettingCommands, "settings", report)?;
    play_file(rt, &KeyFunctions, "key_functions", report)?;
    play_file(rt, &KeyWords, "key_words", report)?;
    play_file(rt, &KeyStreams, "key_streams", report)?;
    play_file(rt, &KeyQueues, "key_queues", report)?;
    play_file(rt, &Presses, "presses", report)?;
    play_file(rt, &Formats, "formats", report)
}
