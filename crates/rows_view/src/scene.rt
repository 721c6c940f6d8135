//! What the calls of a case are made with.

use case_files::{CaseFault, read_number};
use folder_core::Archive;
use mail_base::{Bytes, Id};
use std::alloc::Global;

/// The letters of a case's messages, and what the messages are called there.
#[derive(Clone, Copy)]
pub struct Scene<'a> {
    pub alloc: Global,
    pub archive: &'a Archive,
    /// Names of the messages, in their order; without any they are numbered from 1.
    pub names: &'a [u8],
}

impl Scene<'_> {
    /// The message of a name.
    pub fn id_of(self, name: &[u8]) -> Result<Id, CaseFault> {
        let number = match place_of_word(self.names, name) {
            Some(place) => (place as u64).saturating_add(1),
            None => read_number(name)?,
        };
        match u32::try_from(number) {
            Ok(number) if number > 0 => Ok(Id(number - 1)),
            _ => Err(CaseFault::BadInput),
        }
    }

    /// Adds the name of a message.
    pub fn put_name(self, id: Id, text: &mut Bytes) -> Result<(), CaseFault> {
        let number = u64::from(id.0).saturating_add(1);
        match self.names.split(|byte| *byte == b' ').nth(id.0 as usize) {
            Some(name) if !self.names.is_empty() => text.append(name)?,
            _ => text.append(format!(in self.alloc; "{number}")?.as_bytes())?,
        }
        Ok(())
    }
}

fn place_of_word(words: &[u8], word: &[u8]) -> Option<usize> {
    words.split(|byte| *byte == b' ').position(|w| w == word)
}
