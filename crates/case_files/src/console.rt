//! Case files on the disk, and the report on the standard streams.

use crate::{Report, Subject, play};
use mail_base::NoMemory;
use std::fs;
use std::io::{self, Write};
use std::process::ExitCode;
use std::rt::Files;

/// Plays the case file of this name.
pub fn play_file<R: Files + AllocGlobal, S: Subject>(
    rt: &R,
    subject: &S,
    file: &str,
    report: &mut Report,
) -> Result<(), NoMemory> {
    match fs::read(rt, file) {
        Ok(text) => play(rt.alloc(), subject, file, text.as_slice(), report),
        Err(_) => report.tell_file(file, "not read"),
    }
}

/// Prints a report: in full on standard output, in short on standard error. The status is 1 where a
/// case is wrong.
pub fn print_report<R: Print + Eprint>(rt: &R, report: &Report) -> io::Result<ExitCode> {
    io::writer(rt).write_all(report.full.as_slice())?;
    let Ok(short) = str::from_utf8(report.short.as_slice()) else {
        return Ok(ExitCode::from(1));
    };
    rt.eprint(short)?;
    Ok(ExitCode::from(if report.is_right { 0 } else { 1 }))
}
