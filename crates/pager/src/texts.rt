//! Texts, one behind the other in one buffer.

ghost use Rattle.std.specs.Prelude.{◌≡◌, ◌<◌, ◌++◌, ◌∷◌, [], encode_utf8, length, slice_index_or};
ghost use Rattle.std.specs.Prelude.{OnOk};
ghost use Rattle.pager.specs.Inner as spec;

use mail_base::{Bytes, NoMemory, Series};
use std::alloc::Global;
use std::marker::Model;

/// Texts, and one that is not ended.
#[derive(Drop)]
pub struct Texts {
    bytes: Bytes,
    ends: Series<usize>,
}

impl Model for Texts {
    ghost use Rattle.std.specs.Prelude.{◌≡◌, drop, length, true};
    ghost use Rattle.pager.specs.Inner.{PlainTexts, ascends, cut_at, last_end};

    ghost Value = { PlainTexts };

    ghost view = { λ t. record {
      done = cut_at 0 t.ends.items t.bytes.items;
      current = drop (last_end 0 t.ends.items) t.bytes.items;
    } };

    ghost invariant = { λ t. ascends 0 t.ends.items (length t.bytes.items) ≡ true };
}

impl Texts {
    pub fn new(alloc: Global) -> Self
        ensures { result ≡ record { done = []; current = [] } }
    {
        Texts {
            bytes: Bytes::new(alloc),
            ends: Series::new(alloc),
        }
    }

    /// Makes room for so many more texts and bytes, first for the bytes: they may take the place of
    /// the text that was decoded.
    pub fn reserve(&mut self, texts: usize, bytes: usize) -> Result<(), NoMemory>
        ensures { self.new ≡ self.old }
    {
        self.bytes.reserve(bytes)?;
        self.ends.reserve(texts)
    }

    /// How many texts are ended.
    pub fn len(&self) -> usize
        ensures { result ≡ length self.now.done }
    {
        self.ends.len()
    }

    /// Adds bytes to the text that is not ended.
    #[tactic(auto, using(crate::proofs::TextsLemmas::bytes_added))]
    pub fn append(&mut self, bytes: &[u8]) -> Result<(), NoMemory>
        ensures { OnOk result
            (self.new ≡ record self.old { current = self.old.current ++ bytes.now }) }
    {
        self.bytes.append(bytes)?;
        Ok(())
    }

    /// Adds a character to it.
    pub fn append_char(&mut self, c: char) -> Result<(), NoMemory>
        ensures { OnOk result
            (self.new ≡ record self.old { current = self.old.current ++ encode_utf8 c }) }
    {
        let mut buffer = [0; 4];
        self.append(c.encode_utf8(&mut buffer).as_bytes())
    }

    /// Ends the text.
    #[tactic(auto, using(crate::proofs::TextsLemmas::ascends_push))]
    pub fn end(&mut self) -> Result<(), NoMemory>
        ensures { OnOk result
            (self.new ≡ record { done = self.old.done ++ self.old.current ∷ []; current = [] }) }
    {
        self.ends.push(self.bytes.len())?;
        Ok(())
    }

    /// A text that is ended; past the last it is empty.
    #[tactic(auto, using(crate::proofs::TextsLemmas::text_place))]
    pub fn text(&self, place: usize) -> &[u8]
        ensures { result.now ≡ slice_index_or self.now.done place [] }
    {
        let ends = self.ends.as_slice();
        if place < ends.len() {
            &self.bytes.as_slice()[start_at(ends, place)..ends[place]]
        } else {
            &[]
        }
    }
}

// Where a text begins that is ended.
#[tactic(auto, using(crate::proofs::TextsLemmas::text_start))]
fn start_at(ends: &[usize], place: usize) -> usize
    requires { place < length ends.now }
    ensures { result ≡ spec.start_at 0 ends.now place }
{
    if place == 0 { 0 } else { ends[place - 1] }
}
