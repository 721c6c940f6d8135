//! A file of a state.

ghost use Rattle.std.specs.Prelude.{◌≡◌, ◌++◌, [], IfOk, OnOk, OnErr};
ghost use Rattle.disk_model.specs.State.{appended, closed, cut_to, durable, kept_within, opened};
ghost use Rattle.disk_model.specs.State.{synced, written};
ghost use Rattle.disk_state.specs.Plain.{plain_change, plain_file};

use crate::bytes::{behind, front, of_length, put_first};
use mail_base::{Bytes, NoMemory};
use std::alloc::Global;

/// Places that were written or cut away: by us, so that they are open until the file is synced, or
/// by others.
#[derive(Clone, Copy)]
pub(crate) struct Patch {
    pub low: usize,
    pub high: usize,
    pub is_open: bool,
}

/// A file: its bytes, those that a stop leaves where it loses all that is open, and what was done
/// to it since.
#[derive(Drop)]
pub(crate) struct File {
    pub bytes: Bytes,
    pub kept: Bytes,
    pub touched: Vec<Patch>,
    pub least: usize,
    pub greatest: usize,
    pub stamp: u128,
}

/// What is done to the bytes of a file.
#[derive(Clone, Copy)]
pub(crate) enum Change<'a> {
    Write(usize, &'a [u8]),
    Cut(usize),
    Append(&'a [u8]),
    Replace(&'a [u8]),
}

impl File {
    /// A file that is on the disk as it is.
    pub(crate) fn durable(alloc: Global, bytes: &[u8], stamp: u128) -> Result<File, NoMemory>
        ensures { IfOk result (λ file. plain_file file ≡ durable bytes.now stamp) }
    {
        Ok(File {
            bytes: Bytes::copy_of(alloc, bytes)?,
            kept: Bytes::copy_of(alloc, bytes)?,
            touched: Vec::new(alloc),
            least: bytes.len(),
            greatest: bytes.len(),
            stamp,
        })
    }

    pub(crate) fn change(
        &mut self,
        alloc: Global,
        change: Change<'_>,
        stamp: u128,
    ) -> Result<(), NoMemory>
        ensures ok { OnOk result (plain_file self.new ≡ plain_change change.entry stamp
            (plain_file self.old)) }
        ensures err { OnErr result (plain_file self.new ≡ plain_file self.old) }
    {
        match change {
            Change::Write(at, piece) => self.write(alloc, at, piece, stamp),
            Change::Cut(size) => self.cut(alloc, size, stamp),
            Change::Append(piece) => self.append(alloc, piece, stamp),
            Change::Replace(bytes) => {
                *self = File::durable(alloc, bytes, stamp)?;
                Ok(())
            }
        }
    }

    /// Writes a piece from the place `at` on.
    fn write(&mut self, alloc: Global, at: usize, piece: &[u8], stamp: u128) -> Result<(), NoMemory>
        ensures ok { OnOk result (plain_file self.new ≡ written at piece.now stamp
            (plain_file self.old)) }
        ensures err { OnErr result (plain_file self.new ≡ plain_file self.old) }
    {
        let Some(high) = at.checked_add(piece.len()) else {
            return Err(NoMemory);
        };
        let low = at.min(self.bytes.len());
        let mut bytes = of_length(alloc, self.bytes.as_slice(), at)?;
        bytes.append(piece)?;
        bytes.append(behind(self.bytes.as_slice(), high))?;
        self.open(bytes, low, high, stamp)
    }

    /// Gives the file that length.
    fn cut(&mut self, alloc: Global, size: usize, stamp: u128) -> Result<(), NoMemory>
        ensures ok { OnOk result (plain_file self.new ≡ cut_to size stamp (plain_file self.old)) }
        ensures err { OnErr result (plain_file self.new ≡ plain_file self.old) }
    {
        let low = size.min(self.bytes.len());
        let high = size.max(self.bytes.len());
        let bytes = of_length(alloc, self.bytes.as_slice(), size)?;
        self.open(bytes, low, high, stamp)
    }

    /// Takes these bytes, which differ from low up to high from those on the disk.
    fn open(&mut self, bytes: Bytes, low: usize, high: usize, stamp: u128) -> Result<(), NoMemory>
        ensures ok { OnOk result (plain_file self.new
            ≡ opened bytes.items low high stamp (plain_file self.old)) }
        ensures err { OnErr result (plain_file self.new ≡ plain_file self.old) }
    {
        self.touched.reserve(1)?;
        let patch = Patch {
            low,
            high,
            is_open: true,
        };
        put_first(&mut self.touched, patch);
        self.least = self.least.min(bytes.len());
        self.greatest = self.greatest.max(bytes.len());
        self.bytes = bytes;
        self.stamp = stamp;
        Ok(())
    }

    /// Puts bytes of others at the end.
    fn append(&mut self, alloc: Global, piece: &[u8], stamp: u128) -> Result<(), NoMemory>
        ensures ok { OnOk result (plain_file self.new ≡ appended piece.now stamp
            (plain_file self.old)) }
        ensures err { OnErr result (plain_file self.new ≡ plain_file self.old) }
    {
        if piece.is_empty() {
            self.stamp = stamp;
            return Ok(());
        }
        let mut kept = self.kept_within(alloc)?;
        kept.append(piece)?;
        let mut bytes = Bytes::copy_of(alloc, self.bytes.as_slice())?;
        bytes.append(piece)?;
        self.close(bytes, kept, stamp)
    }

    /// Takes these bytes of others, of which a stop leaves those, behind the ones that were there.
    fn close(&mut self, bytes: Bytes, kept: Bytes, stamp: u128) -> Result<(), NoMemory>
        ensures ok { OnOk result (plain_file self.new
            ≡ closed bytes.items kept.items stamp (plain_file self.old)) }
        ensures err { OnErr result (plain_file self.new ≡ plain_file self.old) }
    {
        self.touched.reserve(1)?;
        let patch = Patch {
            low: self.bytes.len(),
            high: bytes.len(),
            is_open: false,
        };
        put_first(&mut self.touched, patch);
        self.least = bytes.len();
        self.greatest = bytes.len();
        self.bytes = bytes;
        self.kept = kept;
        self.stamp = stamp;
        Ok(())
    }

    /// What a stop leaves of the bytes that are there.
    fn kept_within(&self, alloc: Global) -> Result<Bytes, NoMemory>
        ensures { IfOk result (λ b. b.items ≡ kept_within (plain_file self.now)) }
    {
        let mut kept = Bytes::copy_of(alloc, front(self.kept.as_slice(), self.bytes.len()))?;
        kept.append(behind(self.bytes.as_slice(), self.kept.len()))?;
        Ok(kept)
    }

    /// Puts the bytes on the disk.
    pub(crate) fn sync(&mut self, alloc: Global) -> Result<(), NoMemory>
        ensures ok { OnOk result (plain_file self.new ≡ synced (plain_file self.old)) }
        ensures err { OnErr result (plain_file self.new ≡ plain_file self.old) }
    {
        self.kept = Bytes::copy_of(alloc, self.bytes.as_slice())?;
        self.touched.clear();
        self.least = self.bytes.len();
        self.greatest = self.bytes.len();
        Ok(())
    }
}
