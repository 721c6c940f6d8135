//! Cases of streams of key bytes.

use crate::key_texts::shown_keys;
use case_files::{Answer, Case, CaseFault, Subject, read_number};
use keymap::{KeyFault, KeyReader};
use mail_base::{Bytes, MemorySource, Numbers};
use std::alloc::Global;

/// `bytes` are typed, and each `fails` is the number of a read that fails. Keys are read up to the
/// end: each `key` is a character or a name in brackets, and `key: fault` a failed read.
pub struct KeyStreams;

impl Subject for KeyStreams {
    fn inputs(&self) -> &[&[u8]] {
        &[b"bytes", b"fails"]
    }

    fn answer(&self, alloc: Global, case: &Case, answer: &mut Answer) -> Result<(), CaseFault> {
        let bytes = case.need(b"bytes")?;
        let fails = fails_of(alloc, case)?;
        let most = bytes.len().saturating_add(fails.len());
        let mut source = MemorySource::new(Bytes::copy_of(alloc, bytes)?, fails);
        put_stream(alloc, answer, &mut source, most)
    }
}

/// Puts at most so many keys, and whether the stream ends behind them.
fn put_stream(
    alloc: Global,
    answer: &mut Answer,
    source: &mut MemorySource,
    most: usize,
) -> Result<(), CaseFault> {
    let mut reader = KeyReader::new();
    if put_keys(alloc, answer, &mut reader, source, most)? {
        return Ok(());
    }
    answer.put_flag(b"ended", is_at_end(&mut reader, source))
}

fn fails_of(alloc: Global, case: &Case) -> Result<Numbers, CaseFault> {
    let mut fails = Numbers::new(alloc);
    for entry in case.entries.as_slice() {
        if entry.role() == b"fails".as_slice() {
            fails.push(read_number(entry.value.as_slice())?)?;
        }
    }
    Ok(fails)
}

/// Puts at most so many keys, and says whether they came to their end.
fn put_keys(
    alloc: Global,
    answer: &mut Answer,
    reader: &mut KeyReader,
    source: &mut MemorySource,
    most: usize,
) -> Result<bool, CaseFault> {
    for _turn in 0..most {
        match shown_next(alloc, reader, source)? {
            Some(shown) => answer.put(b"key", shown.as_slice())?,
            None => return Ok(true),
        }
    }
    Ok(false)
}

/// The next key as text, or what failed; nothing at the end.
fn shown_next(
    alloc: Global,
    reader: &mut KeyReader,
    source: &mut MemorySource,
) -> Result<Option<Bytes>, CaseFault> {
    match reader.next_key(source) {
        Ok(Some(key)) => Ok(Some(shown_keys(alloc, &[key])?)),
        Ok(None) => Ok(None),
        Err(KeyFault::ReadFault) => Ok(Some(Bytes::copy_of(alloc, b"fault")?)),
        Err(KeyFault::TooManyKeys) => Ok(Some(Bytes::copy_of(alloc, b"too many")?)),
    }
}

fn is_at_end(reader: &mut KeyReader, source: &mut MemorySource) -> bool {
    match reader.next_key(source) {
        Ok(None) => true,
        _ => false,
    }
}
