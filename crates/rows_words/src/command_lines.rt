//! Cases of command lines: what their words choose, or the first faulty one.

use case_files::{Answer, Case, CaseFault, Subject};
use mail_base::{Bytes, Kind, NoMemory, Words};
use mutt_words::{Options, WordsError, read_words};
use std::alloc::Global;

/// Each `word` is one of the command line. What it chooses is told of where it is not the default,
/// the texts in their order; or `usage` is the first faulty word.
pub struct CommandLines;

impl Subject for CommandLines {
    fn inputs(&self) -> &[&[u8]] {
        &[b"word"]
    }

    fn answer(&self, alloc: Global, case: &Case, answer: &mut Answer) -> Result<(), CaseFault> {
        let mut words = Words::new(alloc);
        push_words(alloc, case, &mut words)?;
        match read_words(alloc, &words) {
            Ok(options) => put_options(&options, answer),
            Err(WordsError::Usage(word)) => answer.put(b"usage", word.as_slice()),
            Err(WordsError::NoMemory) => Err(CaseFault::NoMemory),
        }
    }
}

fn push_words(alloc: Global, case: &Case, words: &mut Words) -> Result<(), NoMemory> {
    for entry in case.entries.as_slice() {
        if entry.key.as_slice() == b"word".as_slice() {
            words.push(Bytes::copy_of(alloc, entry.value.as_slice())?)?;
        }
    }
    Ok(())
}

fn put_options(options: &Options, answer: &mut Answer) -> Result<(), CaseFault> {
    put_text(answer, b"folder", options.folder.as_ref())?;
    put_text(answer, b"rc", options.rc.as_ref())?;
    put_texts(answer, b"command", &options.commands)?;
    put_texts(answer, b"query", &options.query)?;
    if let Some(kind) = options.kind {
        answer.put_text(b"kind", kind_name(kind))?;
    }
    put_switches(options, answer)?;
    answer.put_number(b"rows", i64::from(options.rows))?;
    answer.put_number(b"cols", i64::from(options.cols))?;
    answer.put_number(b"offset", i64::from(options.offset))?;
    answer.put(b"owner", options.owner.as_slice())
}

fn put_text(answer: &mut Answer, key: &[u8], text: Option<&Bytes>) -> Result<(), CaseFault> {
    match text {
        Some(text) => answer.put(key, text.as_slice()),
        None => Ok(()),
    }
}

fn put_texts(answer: &mut Answer, key: &[u8], texts: &Words) -> Result<(), CaseFault> {
    for text in texts.as_slice() {
        answer.put(key, text.as_slice())?;
    }
    Ok(())
}

fn kind_name(kind: Kind) -> &'static str {
    match kind {
        Kind::Mbox => "mbox",
        Kind::Maildir => "Maildir",
        Kind::Mh => "MH",
        Kind::Mmdf => "MMDF",
    }
}

fn put_switches(options: &Options, answer: &mut Answer) -> Result<(), CaseFault> {
    answer.put_flag(b"read_only", options.read_only)?;
    answer.put_flag(b"skip_empty", options.skip_empty)?;
    answer.put_flag(b"version", options.version)
}
