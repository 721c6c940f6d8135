//! The worked rows of calls on values: each case file is read, each case's call made and compared.
#![tactic(auto)]

mod address_lists;
mod bodies;
mod cores;
mod encoded_words;
mod file_names;
mod flags;
mod lines;
mod mh_numbers;
mod parts;
mod postmarks;
mod regions;
mod rewriting;
mod sequences;
mod status;
mod whole_headers;

use crate::address_lists::People;
use crate::bodies::Bodies;
use crate::cores::Cores;
use crate::encoded_words::EncodedWords;
use crate::file_names::MaildirNames;
use crate::flags::FlagChanges;
use crate::lines::LineForms;
use crate::mh_numbers::MhNumbers;
use crate::parts::MessageParts;
use crate::postmarks::Postmarks;
use crate::regions::FileRegions;
use crate::rewriting::Rewriting;
use crate::sequences::MhSequences;
use crate::status::StatusFields;
use crate::whole_headers::Headers;
use case_files::{Report, play_file, print_report};
use mail_base::NoMemory;
use std::io;
use std::process::ExitCode;

fn main(rt: HostRuntime) -> io::Result<ExitCode> {
    let mut report = Report::new(rt.alloc());
    match play_all(&rt, &mut report) {
        Ok(()) => print_report(&rt, &report),
        Err(NoMemory) => Ok(ExitCode::from(2)),
    }
}

/// Plays each case file, a line a file.
fn play_all(rt: &HostRuntime, report: &mut Report) -> Result<(), NoMemory> {
    play_file(rt, &FlagChanges, "flags", report)?;
    play_file(rt, &LineForms, "lines", report)?;
    play_file(rt, &Postmarks, "postmarks", report)?;
    play_file(rt, &FileRegions, "regions", report)?;
    play_file(rt, &Cores, "cores", report)?;
    play_file(rt, &StatusFields, "status", report)?;
    play_file(rt, &Rewriting, "rewriting", report)?;
    play_file(rt, &MaildirNames, "maildir_names", report)?;
    play_file(rt, &MhNumbers, "mh_numbers", report)?;
    play_file(rt, &MhSequences, "mh_sequences", report)?;
    play_file(rt, &EncodedWords, "encoded_words", report)?;
    play_file(rt, &People, "people", report)?;
    play_file(rt, &Headers, "headers", report)?;
    play_file(rt, &MessageParts, "parts", report)?;
    play_file(rt, &Bodies, "bodies", report)
}
