//! Cases of the commands that change variables, and of the words that each command takes.

use case_files::{Answer, Case, CaseFault, Subject};
use mail_base::{Bytes, Line, NoMemory, Words};
use rc_lang::{Command, RcError, RcFault, RcLine, Settings, read_rc};
use std::alloc::Global;

/// `text` is muttrc whose commands are run on new settings, in order; `expand` is muttrc whose
/// words are expanded then, and each `query` is the name of a variable that is asked for at the
/// end.
pub struct SettingCommands;

impl Subject for SettingCommands {
    fn inputs(&self) -> &[&[u8]] {
        &[b"text", b"expand", b"query"]
    }

    fn answer(&self, alloc: Global, case: &Case, answer: &mut Answer) -> Result<(), CaseFault> {
        let mut settings = Settings::new(alloc)?;
        put_all(alloc, answer, &mut settings, case)
    }
}

fn put_all(
    alloc: Global,
    answer: &mut Answer,
    settings: &mut Settings,
    case: &Case,
) -> Result<(), CaseFault> {
    run_text(alloc, answer, settings, case.find(b"text").unwrap_or(b""))?;
    expand_text(alloc, answer, settings, case.find(b"expand").unwrap_or(b""))?;
    for entry in case.entries.as_slice() {
        if entry.key.as_slice() == b"query".as_slice() {
            put_value(alloc, answer, settings, entry.value.as_slice())?;
        }
    }
    Ok(())
}

fn run_text(
    alloc: Global,
    answer: &mut Answer,
    settings: &mut Settings,
    text: &[u8],
) -> Result<(), CaseFault> {
    let lines = read_rc(alloc, text)?;
    for line in lines.as_slice() {
        put_run(alloc, answer, settings, line)?;
    }
    Ok(())
}

fn put_run(
    alloc: Global,
    answer: &mut Answer,
    settings: &mut Settings,
    line: &RcLine,
) -> Result<(), CaseFault> {
    match run(alloc, settings, line) {
        Ok(None) => Ok(()),
        Ok(Some(shown)) => answer.put(b"shown", shown.as_slice()),
        Err(error) => put_fault(alloc, answer, line.line, &error),
    }
}

fn expand_text(
    alloc: Global,
    answer: &mut Answer,
    settings: &Settings,
    text: &[u8],
) -> Result<(), CaseFault> {
    let lines = read_rc(alloc, text)?;
    for line in lines.as_slice() {
        put_expanded(alloc, answer, settings, line)?;
    }
    Ok(())
}

fn put_expanded(
    alloc: Global,
    answer: &mut Answer,
    settings: &Settings,
    line: &RcLine,
) -> Result<(), CaseFault> {
    match settings.expand(alloc, &line.words) {
        Ok(words) => put_words(alloc, answer, &words),
        Err(error) => put_fault(alloc, answer, line.line, &error),
    }
}

/// Runs a command; those that change no variable have only their words counted and expanded.
fn run(alloc: Global, settings: &mut Settings, line: &RcLine) -> Result<Option<Line>, RcError> {
    if let Some(fault) = line.fault {
        return Err(RcError::new(alloc, fault, b""));
    }
    let changes = changes_variables(settings.read_command(alloc, &line.words)?);
    let words = settings.expand(alloc, &line.words)?;
    if changes {
        return settings.apply(&words);
    }
    Ok(None)
}

fn changes_variables(command: Command) -> bool {
    match command {
        Command::Set | Command::Unset | Command::Toggle | Command::Reset => true,
        _ => false,
    }
}

fn put_fault(
    alloc: Global,
    answer: &mut Answer,
    line: u32,
    error: &RcError,
) -> Result<(), CaseFault> {
    let mut shown = Bytes::copy_of(alloc, line.to_string(alloc)?.as_bytes())?;
    append_fault(alloc, &mut shown, error)?;
    answer.put(b"fault", shown.as_slice())
}

fn append_fault(alloc: Global, shown: &mut Bytes, error: &RcError) -> Result<(), NoMemory> {
    shown.append(b": ")?;
    shown.append(error.text(alloc)?.as_slice())
}

fn put_value(
    alloc: Global,
    answer: &mut Answer,
    settings: &Settings,
    name: &[u8],
) -> Result<(), CaseFault> {
    match settings.query(alloc, name) {
        Ok(value) => answer.put(b"value", value.line(alloc, name)?.as_slice()),
        Err(error) if error.fault == RcFault::NoMemory => Err(CaseFault::NoMemory),
        Err(error) => answer.put(b"value", error.text(alloc)?.as_slice()),
    }
}

fn put_words(alloc: Global, answer: &mut Answer, words: &Words) -> Result<(), CaseFault> {
    let mut shown = Bytes::new(alloc);
    append_words(&mut shown, words)?;
    answer.put(b"words", shown.as_slice())
}

fn append_words(shown: &mut Bytes, words: &Words) -> Result<(), NoMemory> {
    for word in words.as_slice() {
        shown.append(b"[")?;
        shown.append(word.as_slice())?;
        shown.append(b"]")?;
    }
    Ok(())
}
