//! What is told of the case files that were played.

use crate::{Entry, FileFault, shown};
use mail_base::{Bytes, NoMemory};
use std::alloc::Global;

/// The most bytes that are told in short.
const MOST_SHORT: usize = 500;

/// The differences in full with a line a file, and in short the names of the wrong cases, at most
/// 500 bytes.
#[derive(Drop)]
pub struct Report {
    alloc: Global,
    pub full: Bytes,
    pub short: Bytes,
    /// Whether each case of each file answered what it expects.
    pub is_right: bool,
}

impl Report {
    pub fn new(alloc: Global) -> Self {
        Report {
            alloc,
            full: Bytes::new(alloc),
            short: Bytes::new(alloc),
            is_right: true,
        }
    }

    /// Tells of a case that it answers wrong; its differences follow or stand before.
    pub fn tell_case(&mut self, file: &str, line: usize, name: &[u8]) -> Result<(), NoMemory> {
        let place = format!(in self.alloc; "{file}:{line}: ")?;
        let mut text = Bytes::copy_of(self.alloc, place.as_bytes())?;
        text.append(name)?;
        text.push(b'\n')?;
        self.full.append(text.as_slice())?;
        self.tell_short(text.as_slice())
    }

    /// Tells what is wrong with a file, at a line of it, where there is one.
    pub fn tell_fault(&mut self, file: &str, fault: FileFault) -> Result<(), NoMemory> {
        let line = fault.line;
        let fault = fault.fault;
        let text = format!(in self.alloc; "{file}:{line}: {fault}\n")?;
        self.full.append(text.as_bytes())?;
        self.tell_short(text.as_bytes())
    }

    /// Tells that a file could not be read, or has no case.
    pub fn tell_file(&mut self, file: &str, what: &str) -> Result<(), NoMemory> {
        let text = format!(in self.alloc; "{file}: {what}\n")?;
        self.full.append(text.as_bytes())?;
        self.tell_short(text.as_bytes())
    }

    /// Tells the values of a key that were wanted, and those that were given.
    pub fn tell_difference(
        &mut self,
        key: &[u8],
        wanted: &[Entry],
        given: &[Entry],
    ) -> Result<(), NoMemory> {
        self.tell_values(b"    wanted ", key, wanted)?;
        self.tell_values(b"    given  ", key, given)
    }

    /// Tells how many cases of a file are right.
    pub fn tell_count(&mut self, file: &str, right: usize, all: usize) -> Result<(), NoMemory> {
        let text = format!(in self.alloc; "{file}: {right} of {all}\n")?;
        self.full.append(text.as_bytes())
    }

    fn tell_values(&mut self, what: &[u8], key: &[u8], entries: &[Entry]) -> Result<(), NoMemory> {
        for entry in entries.iter().filter(|entry| entry.key.as_slice() == key) {
            self.full.append(what)?;
            self.full.append(key)?;
            self.full.append(b": ")?;
            self.full
                .append(shown(self.alloc, entry.value.as_slice())?.as_slice())?;
            self.full.push(b'\n')?;
        }
        Ok(())
    }

    fn tell_short(&mut self, text: &[u8]) -> Result<(), NoMemory> {
        self.is_right = false;
        if self.short.len().saturating_add(text.len()) <= MOST_SHORT {
            self.short.append(text)?;
        }
        Ok(())
    }
}
