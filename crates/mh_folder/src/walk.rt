//! The walk over the numbered files of a folder: each message that stands there with the stamp that
//! is known of it is kept as it is listed, and each other that is not empty becomes a letter and an
//! entry of the listing, as long as no limit is passed.

ghost use Rattle.std.specs.Prelude.{ℕ, ◌≡◌, ◌≢◌, [], List, None, Some};
ghost use Rattle.std.specs.Prelude.{IfOk, OnOk, length};
ghost use Rattle.std.specs.Prelude.{take as take_lem};
ghost use Rattle.std.specs.List.{All};
ghost use Rattle.folder_letters.specs.Letters.{plain_letter};
ghost use Rattle.folder_letters.specs.declared.letter.Letter.{Letter as KeptLetter};
ghost use Rattle.disk_model.specs.Journal.{ReadAll};
ghost use Rattle.folder_core.specs.Costs.{RaisesAtMost};
ghost use Rattle.folder_core.specs.Directory.{path_in as path_in_lem};
ghost use Rattle.folder_core.specs.ListedSoFar.{IsEmpty, LooksWithin, store_of};
ghost use Rattle.folder_core.specs.Looked.{FitsLimit, IsContent, Looked, content_read};
ghost use Rattle.mh_sequences.specs.Marks.{AreMarks};
ghost use Rattle.folder_shapes.specs.Mh.{Rises};
ghost use Rattle.mh_folder.specs.NumberedName.{IsNumbered, plain_names};
ghost use Rattle.mh_folder.specs.Visit.{BeginsWell, Course, IsCourse, IsFileCourse};
ghost use Rattle.mh_folder.specs.Walk as spec;

use crate::known_file::KnownFile;
use crate::look::{Look, look_for};
use crate::numbered_name::NumberedName;
use crate::visit::Visit;
use disk_model::{Disk, FileRead};
use folder_core::{Archive, Content, Letter, ListedSoFar, ScanError, content_of, path_in};
use mail_base::{Bytes, NoMemory, Stamps};
use mh_sequences::Marks;
use std::alloc::Global;

/// What was found so far, and the stamps of the files that were read.
#[derive(Drop)]
pub struct Walk {
    pub so_far: ListedSoFar,
    pub stamps: Stamps,
}

impl Walk {
    pub fn new(alloc: Global, letters: usize) -> Self
        ensures letters { result.so_far.letters ≡ letters }
        ensures empty { (letters : List KeptLetter) → IsEmpty (store_of result.so_far letters) }
        ensures stamps { result.stamps.items ≡ [] }
    {
        Walk {
            so_far: ListedSoFar::new(alloc, letters),
            stamps: Stamps::new(alloc),
        }
    }

    // Keeps a message as it is listed.
    fn keep(
        &mut self,
        marks: &Marks,
        file: &NumberedName,
        known: &KnownFile,
    ) -> Result<(), NoMemory>
        requires room { spec.HasRoom self.old.so_far }
        requires file { IsNumbered file.now }
        ensures ok { OnOk result ((bytes : List ℕ) (letters : List KeptLetter)
            → AreMarks bytes marks.now → spec.Stays bytes file.now.name.items known.now
            (spec.kept_of self.old letters) (spec.kept_of self.new letters)) }
        ensures counts { OnOk result (spec.CountsOne known.now.size self.old.so_far
            self.new.so_far) }
    {
        self.so_far
            .keep(known.id, marks.flags(file.number), known.size)?;
        self.stamps.push(known.stamp)
    }

    // Adds the message of a file that was read, with this stamp; an empty one is no message.
    fn add(
        &mut self,
        alloc: Global,
        marks: &Marks,
        file: &NumberedName,
        raw: Bytes,
        stamp: u128,
        archive: &mut Archive,
    ) -> Result<(), NoMemory>
        requires room { spec.HasRoom self.old.so_far }
        requires file { IsNumbered file.now }
        ensures ok { OnOk result ((bytes : List ℕ) → AreMarks bytes marks.now
            → spec.Adds bytes file.now.name.items raw.items stamp
            (spec.kept_of self.old archive.old.items)
            (spec.kept_of self.new archive.new.items)) }
        ensures counts { OnOk result (spec.CountsOne (length raw.items) self.old.so_far
            self.new.so_far) }
        ensures front { take_lem (length archive.old.items) archive.new.items ≡ archive.old.items }
    {
        if raw.as_slice().is_empty() {
            return Ok(());
        }
        let letter = letter_of(alloc, file, raw)?;
        self.so_far.add(marks.flags(file.number), letter, archive)?;
        self.stamps.push(stamp)?;
        Ok(())
    }

    // Keeps the message of a file that was read with the stamp of a listed one; one that is longer
    // is none that was read under this stamp.
    fn put_same(
        &mut self,
        alloc: Global,
        marks: &Marks,
        file: &NumberedName,
        known: &KnownFile,
        raw: Bytes,
        archive: &mut Archive,
    ) -> Result<(), NoMemory>
        requires room { spec.HasRoom self.old.so_far }
        requires file { IsNumbered file.now }
        ensures ok { OnOk result ((bytes : List ℕ) → AreMarks bytes marks.now
            → spec.Puts bytes file.now.name.items (Some known.now) raw.items known.now.stamp
            (spec.kept_of self.old archive.old.items)
            (spec.kept_of self.new archive.new.items)) }
        ensures counts { OnOk result (spec.CountsOne (length raw.items) self.old.so_far
            self.new.so_far) }
        ensures front { take_lem (length archive.old.items) archive.new.items ≡ archive.old.items }
    {
        let length = raw.len() as u64;
        if length == 0 {
            return Ok(());
        }
        if length <= known.size {
            return self.keep(marks, file, known);
        }
        self.add(alloc, marks, file, raw, other_stamp(known.stamp), archive)
    }

    // Adds the message of a file that was read, or keeps it where it is the one that is listed.
    fn put(
        &mut self,
        alloc: Global,
        marks: &Marks,
        file: &NumberedName,
        known: Option<KnownFile>,
        read: FileRead,
        archive: &mut Archive,
    ) -> Result<(), NoMemory>
        requires room { spec.HasRoom self.old.so_far }
        requires file { IsNumbered file.now }
        ensures ok { OnOk result ((bytes : List ℕ) → AreMarks bytes marks.now
            → spec.Puts bytes file.now.name.items known read.bytes.items read.stat.stamp
            (spec.kept_of self.old archive.old.items)
            (spec.kept_of self.new archive.new.items)) }
        ensures counts { OnOk result (spec.CountsOne (length read.bytes.items) self.old.so_far
            self.new.so_far) }
        ensures front { take_lem (length archive.old.items) archive.new.items ≡ archive.old.items }
    {
        match known {
            Some(known) if known.stamp == read.stat.stamp => {
                self.put_same(alloc, marks, file, &known, read.bytes, archive)
            }
            _ => self.add(alloc, marks, file, read.bytes, read.stat.stamp, archive),
        }
    }

    // Reads a file, and adds or keeps its message where it is one.
    fn read(
        &mut self,
        alloc: Global,
        disk: &mut dyn Disk,
        path: &str,
        marks: &Marks,
        file: &NumberedName,
        known: Option<KnownFile>,
        archive: &mut Archive,
    ) -> Result<(), ScanError>
        requires room { spec.HasRoom self.old.so_far }
        requires file { IsNumbered file.now }
        ensures taken { OnOk result ((course : Course)
            → IsFileCourse path.now marks.now file.now.name.items known (seen disk.old).told course
            → spec.Takes course file.now.name.items (spec.kept_of self.old archive.old.items)
            (spec.kept_of self.new archive.new.items) (seen disk.old).told (seen disk.new).told) }
        ensures count { OnOk result (spec.FillsOne self.old.so_far self.new.so_far) }
        ensures walks { LooksWithin result self.old.so_far.bytes self.new.so_far.bytes
            (seen disk.old) (seen disk.new) }
        ensures front { take_lem (length archive.old.items) archive.new.items ≡ archive.old.items }
    {
        match content_at(alloc, disk, path, file, self.so_far.limit())? {
            Content::NoFile => Ok(()),
            Content::TooLong(size) => {
                self.so_far.count_one(size);
                Ok(())
            }
            Content::Whole(read) => match self.put(alloc, marks, file, known, read, archive) {
                Ok(()) => Ok(()),
                Err(NoMemory) => Err(ScanError::NoMemory),
            },
        }
    }

    // Looks for the file of a listed message, and keeps it where its stamp is the known one.
    fn take_known(
        &mut self,
        alloc: Global,
        disk: &mut dyn Disk,
        path: &str,
        marks: &Marks,
        file: &NumberedName,
        known: KnownFile,
        archive: &mut Archive,
    ) -> Result<(), ScanError>
        requires room { spec.HasRoom self.old.so_far }
        requires file { IsNumbered file.now }
        ensures taken { OnOk result ((course : Course)
            → IsFileCourse path.now marks.now file.now.name.items (Some known) (seen disk.old).told
            course
            → spec.Takes course file.now.name.items (spec.kept_of self.old archive.old.items)
            (spec.kept_of self.new archive.new.items) (seen disk.old).told (seen disk.new).told) }
        ensures count { OnOk result (spec.FillsOne self.old.so_far self.new.so_far) }
        ensures walks { LooksWithin result self.old.so_far.bytes self.new.so_far.bytes
            (seen disk.old) (seen disk.new) }
        ensures front { take_lem (length archive.old.items) archive.new.items ≡ archive.old.items }
    {
        match look_for(alloc, disk, path, file, known.stamp)? {
            Look::Nothing => Ok(()),
            Look::Same => match self.keep(marks, file, &known) {
                Ok(()) => Ok(()),
                Err(NoMemory) => Err(ScanError::NoMemory),
            },
            Look::Other => self.read(alloc, disk, path, marks, file, Some(known), archive),
        }
    }

    // Looks for a file, and adds or keeps its message where it is one.
    fn take(
        &mut self,
        alloc: Global,
        disk: &mut dyn Disk,
        path: &str,
        visit: &Visit,
        file: &NumberedName,
        archive: &mut Archive,
    ) -> Result<(), ScanError>
        requires room { spec.HasRoom self.old.so_far }
        requires file { IsNumbered file.now }
        ensures taken { OnOk result ((course : Course)
            → IsCourse path.now visit.now (seen disk.old).told course
            → spec.Takes course file.now.name.items (spec.kept_of self.old archive.old.items)
            (spec.kept_of self.new archive.new.items) (seen disk.old).told (seen disk.new).told) }
        ensures count { OnOk result (spec.FillsOne self.old.so_far self.new.so_far) }
        ensures walks { LooksWithin result self.old.so_far.bytes self.new.so_far.bytes
            (seen disk.old) (seen disk.new) }
        ensures front { take_lem (length archive.old.items) archive.new.items ≡ archive.old.items }
    {
        match visit.files.find(u64::from(file.number)) {
            Some(known) => self.take_known(alloc, disk, path, &visit.marks, file, known, archive),
            None => self.read(alloc, disk, path, &visit.marks, file, None, archive),
        }
    }

    /// Looks for each of these files in turn, and adds or keeps those that are messages.
    pub fn take_all(
        &mut self,
        alloc: Global,
        disk: &mut dyn Disk,
        path: &str,
        visit: &Visit,
        files: &[NumberedName],
        archive: &mut Archive,
    ) -> Result<(), ScanError>
        requires each { All IsNumbered files.now }
        requires rises { Rises None (plain_names files.now) }
        requires empty { spec.IsNothing (spec.kept_of self.old archive.old.items) }
        ensures walked { OnOk result ((course : Course)
            → IsCourse path.now visit.now (seen disk.old).told course
            → spec.IsWalked course (plain_names files.now)
            (spec.kept_of self.old archive.old.items) (spec.kept_of self.new archive.new.items)
            (seen disk.old).told (seen disk.new).told) }
        ensures walks { LooksWithin result self.old.so_far.bytes self.new.so_far.bytes
            (seen disk.old) (seen disk.new) }
        ensures front { take_lem (length archive.old.items) archive.new.items ≡ archive.old.items }
    {
        let mut left = files;
        while let [file, rest @ ..] = left {
            match self.take(alloc, disk, path, visit, file, archive) {
                Ok(()) => {}
                Err(why) => return Err(why),
            }
            left = rest;
        }
        Ok(())
    }
}

// The content of a file, of at most so many bytes.
fn content_at(
    alloc: Global,
    disk: &mut dyn Disk,
    path: &str,
    file: &NumberedName,
    limit: u64,
) -> Result<Content, ScanError>
    requires { IsNumbered file.now }
    ensures looked { Looked result (ReadAll (path_in_lem path.now file.now.name.items) limit)
        (λ content tree. IsContent limit content tree
        (path_in_lem path.now file.now.name.items)) (seen disk.old) (seen disk.new) }
    ensures reads { RaisesAtMost (seen disk.old).bytes_read (seen disk.new).bytes_read
        (content_read result) }
    ensures fits { IfOk result (FitsLimit limit) }
    ensures begins { BeginsWell (seen disk.new).told }
{
    let Ok(name) = str::from_utf8(&file.name) else {
        unreachable!()
    };
    // A told past is lawful, so that no two files that it tells of have one stamp.
    let _ = disk.mark();
    let at = match path_in(alloc, path, name) {
        Ok(at) => at,
        Err(NoMemory) => return Err(ScanError::NoMemory),
    };
    content_of(alloc, disk, at.as_str(), limit)
}

// The letter of a message with these bytes.
fn letter_of(alloc: Global, file: &NumberedName, raw: Bytes) -> Result<Letter, NoMemory>
    ensures { IfOk result (λ letter. plain_letter letter
        ≡ spec.letter_as file.now.number file.now.name.items raw.items) }
{
    Ok(Letter {
        order: u64::from(file.number),
        key: Bytes::copy_of(alloc, &file.name)?,
        core: raw,
        text_at: 0,
        received: 0,
    })
}

fn other_stamp(stamp: u128) -> u128
    ensures { stamp ≢ result }
{
    if stamp == 0 { 1 } else { 0 }
}
