//! The words of the command line.

use mail_base::{Bytes, NoMemory, Words};
use std::alloc::Global;
use std::env::{Env, FillError};

/// The words of the command line behind the program's name. They need not be UTF-8.
pub fn command_words<R: Env>(alloc: Global, rt: &R) -> Result<Words, NoMemory> {
    let mut words = Words::new(alloc);
    for place in 1..usize::MAX {
        match word_at(alloc, rt, place)? {
            Some(word) => words.push(word)?,
            None => break,
        }
    }
    Ok(words)
}

/// The word at a place, which is tried with room for twice as many bytes until it fits.
fn word_at<R: Env>(alloc: Global, rt: &R, place: usize) -> Result<Option<Bytes>, NoMemory> {
    let mut room = 256usize;
    for _ in 0..usize::BITS {
        let mut buffer = Vec::new(alloc);
        buffer.resize(room, 0u8)?;
        match rt.arg(place, buffer.as_mut_slice()) {
            Ok(length) => return Ok(Some(Bytes::copy_of(alloc, &buffer[..length])?)),
            Err(FillError::NotPresent) => return Ok(None),
            Err(FillError::TooLong) => room = room.saturating_add(room),
        }
    }
    Err(NoMemory)
}
