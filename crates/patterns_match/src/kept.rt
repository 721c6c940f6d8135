//! What was read of the parts of a message while a pattern is asked of it.

ghost use Rattle.std.specs.Prelude.{◌≡◌, ℕ, List, length, IfOk};
ghost use Rattle.mime_tree.specs.Order.{StandsWithin};
ghost use Rattle.mime_tree.specs.Part.{plain_part};
ghost use Rattle.mime_tree.specs.Parts.{parts_of};
ghost use Rattle.mail_base.specs.Series.{plain_texts};
ghost use Rattle.patterns_match.specs.Kept.{AreParts, IsKept, known};
ghost use Rattle.patterns_match.specs.Listings.{part_lines};

use mail_base::{Lines, NoMemory};
use mime_tree::{MimeError, Part, Parts, decoded_text, read_parts};
use std::alloc::Global;

/// The parts of a message.
#[derive(Drop)]
pub enum KeptParts {
    Unread,
    TooDeep,
    Read(Parts),
}

/// What was read of a message, so that no part of it is decoded twice.
#[derive(Drop)]
pub struct Kept {
    pub alloc: Global,
    pub parts: KeptParts,
    /// The lines of the first parts; a part that is no text has none.
    pub decoded: Vec<Lines>,
}

fn parts_in(alloc: Global, raw: &[u8]) -> Result<KeptParts, NoMemory>
    ensures value { IfOk result (λ parts. known parts ≡ parts_of raw.now) }
    ensures parts { IfOk result (λ parts. AreParts raw.now parts) }
{
    match read_parts(alloc, raw) {
        Ok(parts) => Ok(KeptParts::Read(parts)),
        Err(MimeError::TooDeep) => Ok(KeptParts::TooDeep),
        Err(MimeError::NoMemory) => Err(NoMemory),
    }
}

/// The lines of a part, decoded.
pub fn lines_of(alloc: Global, raw: &[u8], part: &Part) -> Result<Lines, NoMemory>
    requires { StandsWithin (length raw.now) part.now }
    ensures { IfOk result
        (λ lines. plain_texts lines ≡ part_lines raw.now (plain_part part.now)) }
{
    if !part.content.as_slice().starts_with(b"text/") {
        return Ok(Lines::new(alloc));
    }
    decoded_text(alloc, raw, part)
}

impl Kept {
    /// Nothing, which is so of each message.
    pub fn new(alloc: Global) -> Self
        ensures { (raw : List ℕ) → IsKept raw result }
    {
        Kept {
            alloc,
            parts: KeptParts::Unread,
            decoded: Vec::new(alloc),
        }
    }

    /// Reads the parts of the message, unless that was done.
    pub fn read(&mut self, raw: &[u8]) -> Result<(), NoMemory>
        requires { IsKept raw.now self.old }
        ensures kept { IfOk result (λ _. IsKept raw.now self.new) }
        ensures value { IfOk result (λ _. known self.new.parts ≡ parts_of raw.now) }
    {
        if let KeptParts::Unread = &self.parts {
            self.parts = parts_in(self.alloc, raw)?;
        }
        Ok(())
    }
}
