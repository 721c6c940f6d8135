//! What the entries of a journal do, and what a stop may leave.

ghost use Rattle.std.specs.Prelude.{◌≡◌, ◌<◌, ◌≤◌, ◌+◌, ◌^◌, IfOk, OnOk, length, map};
ghost use Rattle.std.specs.List.{range_with_len};
ghost use Rattle.disk_model.specs.Fills as spec;
ghost use Rattle.disk_model.specs.Images.{is_touched};
ghost use Rattle.disk_model.specs.Node.{plain_bytes, plain_node};
ghost use Rattle.disk_model.specs.State.{after_entry, file_at, run_entries};
ghost use Rattle.disk_state.specs.Plain.{plain_entry, plain_file, plain_name, plain_patch};
ghost use Rattle.disk_state.specs.Plain.{plain_state};

use crate::Entry;
use crate::file::{File, Patch};
use crate::names::Name;
use crate::state::State;
use disk_model::{Fill, Node, Tree};
use mail_base::{Bytes, NoMemory};
use std::alloc::Global;

impl State {
    /// Does what the entries of a journal do.
    pub fn replay(&mut self, alloc: Global, journal: &[Entry]) -> Result<(), NoMemory>
        requires { (plain_state self.old).clock + length journal.now < 2 ^ 127 }
        ensures { OnOk result (plain_state self.new
            ≡ run_entries (map plain_entry journal.now) (plain_state self.old)) }
    {
        let mut left = journal;
        while let [entry, rest @ ..] = left {
            self.follow_entry(alloc, entry)?;
            left = rest;
        }
        Ok(())
    }

    fn follow_entry(&mut self, alloc: Global, entry: &Entry) -> Result<(), NoMemory>
        requires { self.old.clock < 2 ^ 127 }
        ensures state { OnOk result (plain_state self.new
            ≡ after_entry (plain_state self.old) (plain_entry entry.now)) }
        ensures clock { OnOk result (self.new.clock ≤ self.old.clock + 1) }
    {
        match entry {
            Entry::Own(call, None) => self.follow(alloc, call),
            Entry::Own(_, Some(_)) => Ok(()),
            Entry::Others(action) => self.follow_others(alloc, action),
        }
    }

    /// The image in which so many name operations since the last barrier stand and what is open is
    /// filled so.
    pub fn image(&self, alloc: Global, names: u64, fill: Fill) -> Result<Tree, NoMemory>
        ensures { IfOk result (λ tree. map plain_node tree.items
            ≡ spec.image_of (plain_state self.now) names fill) }
    {
        let mut tree = Tree::new(alloc);
        let mut left = self.names_after(names);
        while let [name, rest @ ..] = left {
            tree.push(Node {
                path: Bytes::copy_of(alloc, name.path.as_slice())?,
                bytes: self.filled_at(alloc, name.file, fill)?,
            })?;
            left = rest;
        }
        Ok(tree)
    }

    /// The names after so many name operations since the last barrier.
    fn names_after(&self, count: u64) -> &[Name]
        ensures { map plain_name result.now ≡ spec.names_after (plain_state self.now) count }
    {
        let operations = self.earlier.len();
        if count as usize >= operations {
            return self.names.as_slice();
        }
        self.earlier[operations - 1 - count as usize].as_slice()
    }

    fn filled_at(
        &self,
        alloc: Global,
        file: Option<usize>,
        fill: Fill,
    ) -> Result<Option<Bytes>, NoMemory>
        ensures { IfOk result (λ bytes. plain_bytes bytes
            ≡ spec.filled_at fill (plain_state self.now).files file) }
    {
        let Some(number) = file else {
            return Ok(None);
        };
        Ok(Some(self.filled(alloc, number, fill)?))
    }

    fn filled(&self, alloc: Global, number: usize, fill: Fill) -> Result<Bytes, NoMemory>
        ensures { IfOk result (λ bytes. bytes.items
            ≡ spec.filled fill (file_at (plain_state self.now).files number)) }
    {
        match self.files.get(number) {
            Some(file) => filled(alloc, file, fill),
            None => Ok(Bytes::new(alloc)),
        }
    }
}

fn filled(alloc: Global, file: &File, fill: Fill) -> Result<Bytes, NoMemory>
    ensures { IfOk result (λ bytes. bytes.items ≡ spec.filled fill (plain_file file.now)) }
{
    match fill {
        Fill::Kept => Bytes::copy_of(alloc, file.kept.as_slice()),
        Fill::Written => Bytes::copy_of(alloc, file.bytes.as_slice()),
        Fill::Byte(byte) => filled_with(alloc, file, byte),
    }
}

fn filled_with(alloc: Global, file: &File, byte: u8) -> Result<Bytes, NoMemory>
    ensures { IfOk result (λ bytes. bytes.items
        ≡ map (spec.filled_byte (plain_file file.now) byte) (range_with_len 0 file.now.greatest)) }
{
    let mut bytes = Bytes::new(alloc);
    for place in 0..file.greatest {
        bytes.push(filled_byte(file, byte, place))?;
    }
    Ok(bytes)
}

fn filled_byte(file: &File, byte: u8, place: usize) -> u8
    ensures { result ≡ spec.filled_byte (plain_file file.now) byte place }
{
    if is_touched(file.touched.as_slice(), place) {
        return byte;
    }
    match file.bytes.get(place) {
        Some(byte) => *byte,
        None => 0,
    }
}

/// The latest patch that has a place says whether it is open.
fn is_touched(touched: &[Patch], place: usize) -> bool
    ensures { result ≡ is_touched (map plain_patch touched.now) place }
{
    let mut left = touched;
    while let [patch, rest @ ..] = left {
        if patch.low <= place && place < patch.high {
            return patch.is_open;
        }
        left = rest;
    }
    false
}
