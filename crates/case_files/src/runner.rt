//! A case file, played.

use crate::comparison::{compare, expects};
use crate::{Answer, Case, CaseFault, FileFault, Report, Subject, read_cases};
use mail_base::NoMemory;
use std::alloc::Global;

/// Reads the cases of a file, makes the call of each, compares, and reports what differs and how
/// many are right.
pub fn play<S: Subject>(
    alloc: Global,
    subject: &S,
    file: &str,
    text: &[u8],
    report: &mut Report,
) -> Result<(), NoMemory> {
    let cases = match read_cases(alloc, text) {
        Ok(cases) => cases,
        Err(fault) => return report.tell_fault(file, fault),
    };
    if cases.is_empty() {
        return report.tell_file(file, "no case");
    }
    let mut right = 0usize;
    for case in cases.as_slice() {
        if play_case(alloc, subject, file, case, report)? {
            right = right.saturating_add(1);
        }
    }
    report.tell_count(file, right, cases.len())
}

/// Whether a case answers what it expects.
fn play_case<S: Subject>(
    alloc: Global,
    subject: &S,
    file: &str,
    case: &Case,
    report: &mut Report,
) -> Result<bool, NoMemory> {
    let mut answer = Answer::new(alloc);
    is_right(alloc, subject, file, case, &mut answer, report)
}

fn is_right<S: Subject>(
    alloc: Global,
    subject: &S,
    file: &str,
    case: &Case,
    answer: &mut Answer,
    report: &mut Report,
) -> Result<bool, NoMemory> {
    if let Err(fault) = answer_case(alloc, subject, case, answer) {
        tell_unanswered(file, case, fault, report)?;
        return Ok(false);
    }
    if compare(subject, case, answer, report)? {
        report.tell_case(file, case.line, case.name())?;
        return Ok(false);
    }
    Ok(true)
}

fn answer_case<S: Subject>(
    alloc: Global,
    subject: &S,
    case: &Case,
    answer: &mut Answer,
) -> Result<(), CaseFault> {
    expects(subject, case)?;
    subject.answer(alloc, case, answer)
}

fn tell_unanswered(
    file: &str,
    case: &Case,
    fault: CaseFault,
    report: &mut Report,
) -> Result<(), NoMemory> {
    let line = case.line;
    report.tell_case(file, line, case.name())?;
    report.tell_fault(file, FileFault { line, fault })
}
