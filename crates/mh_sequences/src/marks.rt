//! What the sequences of a folder say of its messages.

ghost use Rattle.std.specs.Prelude.{◌≡◌, IfOk};
ghost use Rattle.mh_sequences.specs.Marks as spec;

use crate::members::Members;
use crate::sequences::Sequences;
use mail_base::{Flags, NoMemory};
use std::alloc::Global;

/// The numbers in the sequences of flags, of all lines of their names.
#[derive(Drop)]
pub struct Marks {
    pub unseen: Members,
    pub flagged: Members,
    pub replied: Members,
}

impl Marks {
    /// The marks in a file of sequences.
    pub fn read(alloc: Global, bytes: &[u8]) -> Result<Marks, NoMemory>
        ensures { IfOk result (spec.AreMarks bytes.now) }
    {
        let sequences = Sequences::read(alloc, bytes)?;
        Ok(Marks {
            unseen: sequences.members(alloc, b"unseen")?,
            flagged: sequences.members(alloc, b"flagged")?,
            replied: sequences.members(alloc, b"replied")?,
        })
    }

    /// The flags of a message: seen and aged is what is not marked as unseen.
    pub fn flags(&self, number: u32) -> Flags
        ensures { result ≡ spec.flags_marked self.now number }
    {
        let is_seen = !self.unseen.holds(number);
        Flags {
            seen: is_seen,
            aged: is_seen,
            replied: self.replied.holds(number),
            flagged: self.flagged.holds(number),
            passed: false,
            draft: false,
            trashed: false,
        }
    }
}
