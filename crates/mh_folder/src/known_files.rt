//! The listed messages of a folder, for many questions.

ghost use Rattle.std.specs.Prelude.{◌≡◌, ◌++◌, ◌<◌, true, IfOk, OnOk, length, map, slice_get};
ghost use Rattle.std.specs.List.{All};
ghost use Rattle.folder_core.specs.Keeping.{mails_of};
ghost use Rattle.folder_letters.specs.Letters.{plain_letter};
ghost use Rattle.mh_folder.specs.KnownFile as spec;

use crate::known_file::{KnownFile, known_file};
use folder_core::{Archive, Listed};
use mail_base::NoMemory;
use std::alloc::Global;

/// The listed messages by their numbers, which rise.
#[derive(Drop)]
pub struct KnownFiles {
    pub files: Vec<KnownFile>,
    pub ghost rises: { spec.rises_from 0 files.items ≡ true },
}

impl KnownFiles {
    /// Listed messages, whose files had these stamps, by their letters.
    pub fn of(
        alloc: Global,
        listing: &[Listed],
        stamps: &[u128],
        archive: &Archive,
    ) -> Result<KnownFiles, NoMemory>
        requires within { All (λ listed. listed.id.0 < length archive.now.items) listing.now }
        requires rises { spec.rises_from 0 (spec.files_of (mails_of (map plain_letter
            archive.now.items) listing.now) stamps.now) ≡ true }
        ensures { IfOk result (λ known. known.files.items ≡ spec.files_of (mails_of (map
            plain_letter archive.now.items) listing.now) stamps.now) }
    {
        let mut files = Vec::new(alloc);
        add_files(listing, stamps, archive, &mut files)?;
        Ok(KnownFiles { files })
    }

    // The place of the first message whose number is not below this one, by a search in halves.
    fn place_of(&self, number: u64) -> usize
        ensures { spec.file_in self.now.files.items number
            ≡ spec.file_if number (slice_get self.now.files.items result) }
    {
        let is_below = |file: &KnownFile| file.order < number;
        self.files.as_slice().partition_point(is_below)
    }

    /// The listed message of a number. It takes time by the logarithm of the number of messages.
    pub fn find(&self, number: u64) -> Option<KnownFile>
        ensures { result ≡ spec.file_in self.now.files.items number }
    {
        match self.files.get(self.place_of(number)) {
            Some(file) if file.order == number => Some(*file),
            _ => None,
        }
    }
}

// Adds listed messages, whose files had these stamps.
fn add_files(
    listing: &[Listed],
    stamps: &[u128],
    archive: &Archive,
    files: &mut Vec<KnownFile>,
) -> Result<(), NoMemory>
    requires { All (λ listed. listed.id.0 < length archive.now.items) listing.now }
    ensures { OnOk result (files.new.items ≡ files.old.items ++ spec.files_of (mails_of (map
        plain_letter archive.now.items) listing.now) stamps.now) }
{
    let mut left = listing;
    let mut stamps_left = stamps;
    while let [listed, rest @ ..] = left {
        let [stamp, others @ ..] = stamps_left else {
            return Ok(());
        };
        files.push(known_file(listed, *stamp, archive))?;
        left = rest;
        stamps_left = others;
    }
    Ok(())
}
