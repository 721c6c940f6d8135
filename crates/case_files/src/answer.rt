//! What a call answered, as entries.

use crate::{CaseFault, Entry};
use mail_base::Bytes;
use std::alloc::Global;

/// What a call answered, under the keys by which a case expects it.
#[derive(Drop)]
pub struct Answer {
    alloc: Global,
    pub entries: Vec<Entry>,
}

impl Answer {
    pub fn new(alloc: Global) -> Self {
        Answer {
            alloc,
            entries: Vec::new(alloc),
        }
    }

    pub fn put(&mut self, key: &[u8], value: &[u8]) -> Result<(), CaseFault> {
        let entry = Entry {
            key: Bytes::copy_of(self.alloc, key)?,
            value: Bytes::copy_of(self.alloc, value)?,
        };
        self.entries.push(entry)?;
        Ok(())
    }

    pub fn put_text(&mut self, key: &[u8], value: &str) -> Result<(), CaseFault> {
        self.put(key, value.as_bytes())
    }

    /// A number of things.
    pub fn put_count(&mut self, key: &[u8], count: usize) -> Result<(), CaseFault> {
        let text = format!(in self.alloc; "{count}")?;
        self.put(key, text.as_bytes())
    }

    pub fn put_number(&mut self, key: &[u8], number: i64) -> Result<(), CaseFault> {
        let text = format!(in self.alloc; "{number}")?;
        self.put(key, text.as_bytes())
    }

    /// `yes` or `no`.
    pub fn put_flag(&mut self, key: &[u8], flag: bool) -> Result<(), CaseFault> {
        self.put(key, if flag { b"yes" } else { b"no" })
    }

    /// These pieces of text, one behind the other.
    pub fn put_joined(&mut self, key: &[u8], pieces: &[&str]) -> Result<(), CaseFault> {
        let mut value = Bytes::new(self.alloc);
        for piece in pieces {
            value.append(piece.as_bytes())?;
        }
        self.put(key, value.as_slice())
    }
}
