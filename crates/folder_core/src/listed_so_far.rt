//! The messages of a folder that were found so far, listed as long as no limit is passed.

ghost use Rattle.std.specs.Prelude.{◌≡◌, ◌+◌, ◌-◌, ◌<◌, ◌^◌, List, [], OnOk, length, take};
ghost use Rattle.folder_letters.specs.Letters.{plain_letter};
ghost use Rattle.folder_letters.specs.declared.letter.Letter.{Letter as AnyLetter};
ghost use Rattle.folder_core.specs.Limits.{most_bytes, sum_refusal, told_sum};
ghost use Rattle.folder_core.specs.ListedSoFar as spec;

use crate::{Archive, Letter, Listed, Listing, MOST_BYTES, MOST_LETTERS, MOST_MESSAGES, ScanError};
use mail_base::{Flags, Id, NoMemory};
use std::alloc::Global;

/// What was found so far.
#[derive(Drop)]
pub struct ListedSoFar {
    /// How many letters the archive had before.
    pub letters: usize,
    /// How many messages were found.
    pub count: usize,
    /// How many of them were not known.
    pub fresh: usize,
    /// Their bytes together; 2^64 - 1 stands for all above it.
    pub bytes: u64,
    pub listing: Listing,
}

impl ListedSoFar {
    pub fn new(alloc: Global, letters: usize) -> Self
        ensures letters { result.letters ≡ letters }
        ensures empty { (archive : List AnyLetter) → spec.IsEmpty (spec.store_of result archive) }
    {
        ListedSoFar {
            letters,
            count: 0,
            fresh: 0,
            bytes: 0,
            listing: Listing::new(alloc),
        }
    }

    /// Why what was found is not listed.
    pub fn refusal(&self) -> Option<ScanError>
        ensures { result
            ≡ sum_refusal self.now.letters self.now.fresh self.now.count self.now.bytes }
    {
        if self.count > MOST_MESSAGES {
            return Some(ScanError::TooMany(self.count as u64));
        }
        if self.bytes > MOST_BYTES {
            return Some(ScanError::TooLarge(self.bytes));
        }
        if self.fresh > MOST_LETTERS || self.letters > MOST_LETTERS - self.fresh {
            return Some(ScanError::ArchiveFull);
        }
        None
    }

    /// What is left of the bytes that may be listed.
    pub fn limit(&self) -> u64
        ensures { result ≡ most_bytes - self.now.bytes }
    {
        MOST_BYTES.saturating_sub(self.bytes)
    }

    /// Counts a message of so many bytes that was not known.
    pub fn count_one(&mut self, size: u64)
        requires count { self.old.count + 1 < 2 ^ 64 }
        requires fresh { self.old.fresh + 1 < 2 ^ 64 }
        ensures { self.new ≡ record self.old {
          count = self.old.count + 1;
          fresh = self.old.fresh + 1;
          bytes = told_sum (self.old.bytes + size);
        } }
    {
        self.count += 1;
        self.fresh += 1;
        self.bytes = self.bytes.saturating_add(size);
    }

    /// Counts a message that was not known by its letter, and lists it where all found so far may
    /// be listed.
    pub fn add(
        &mut self,
        flags: Flags,
        letter: Letter,
        archive: &mut Archive,
    ) -> Result<(), NoMemory>
        requires count { self.old.count + 1 < 2 ^ 64 }
        requires fresh { self.old.fresh + 1 < 2 ^ 64 }
        ensures ok { OnOk result (spec.store_of self.new archive.new.items
            ≡ spec.store_new flags (plain_letter letter)
            (spec.store_of self.old archive.old.items)) }
        ensures front { take (length archive.old.items) archive.new.items ≡ archive.old.items }
    {
        let place = self.fresh;
        self.count_one(letter.core.len() as u64);
        if self.refusal().is_some() {
            return Ok(());
        }
        let id = (self.letters + place) as u32;
        self.listing.push(Listed { id: Id(id), flags })?;
        archive.push(letter)?;
        Ok(())
    }

    /// Counts a known message whose letter has so many bytes, and lists it under its id where all
    /// found so far may be listed.
    pub fn keep(&mut self, id: Id, flags: Flags, size: u64) -> Result<(), NoMemory>
        requires count { self.old.count + 1 < 2 ^ 64 }
        ensures { OnOk result (spec.store_of self.new []
            ≡ spec.store_known id.0 flags size (spec.store_of self.old [])) }
    {
        self.count += 1;
        self.bytes = self.bytes.saturating_add(size);
        if self.refusal().is_some() {
            return Ok(());
        }
        self.listing.push(Listed { id, flags })?;
        Ok(())
    }
}
