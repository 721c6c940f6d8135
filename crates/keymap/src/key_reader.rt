//! A reader of keys.

ghost use Rattle.std.specs.Prelude.{◌≡◌, ◌<◌, ◌≤◌, ◌+◌, ◌++◌, ◌∷◌, [], drop, length, Err, IfOk};
ghost use Rattle.std.specs.Prelude.{IfErr};
ghost use Rattle.mail_base.specs.Faults.{Rose};
ghost use Rattle.keymap.specs.Reader as spec;

use crate::key::Key;
use crate::stream::{first_key, is_open};
use arrayvec::ArrayVec;
use mail_base::Source;
use std::marker::Model;
use thiserror::Error;

/// Why no key was read.
#[derive(Clone, Copy, Debug, PartialEq, Eq, Error)]
pub enum KeyFault {
    /// What was taken before waits for the next call.
    #[error("a read failed")]
    ReadFault,
    /// A further byte is needed, and 16,777,216 were taken.
    #[error("too many keys")]
    TooManyKeys,
}

/// The most bytes that a reader takes.
const MOST_BYTES: u32 = 16_777_216;

/// A reader of keys, which takes a byte only where those before it do not tell their first key.
#[derive(Drop)]
pub struct KeyReader {
    pending: ArrayVec<u8, 4>,
    taken: u32,
}

impl Model for KeyReader {
    ghost use Rattle.std.specs.Prelude.{◌≤◌};
    ghost use Rattle.keymap.specs.Reader.{PlainReader, most_bytes};

    ghost Value = { PlainReader };

    ghost view = { λ r. record { pending = r.pending.items; taken = r.taken } };

    ghost invariant = { λ r. r.taken ≤ most_bytes };
}

impl KeyReader {
    pub fn new() -> KeyReader
        ensures { result ≡ record { pending = []; taken = 0 } }
    {
        KeyReader {
            pending: ArrayVec::new(),
            taken: 0,
        }
    }

    /// Reads a key, or `None` at the end of the keys; never a function's name. After a fault the
    /// same key is read on.
    pub fn next_key<K: Source>(&mut self, keys: &mut K) -> Result<Option<Key>, KeyFault>
        ensures key { IfOk result (λ key. spec.Gives key self.old self.new
            (K.left keys.old) (K.left keys.new)) }
        ensures stops { IfErr result (λ fault. spec.Stops fault self.old self.new
            (K.left keys.old) (K.left keys.new)) }
        ensures cause { result ≡ Err KeyFault.ReadFault
            → Rose (K.faults keys.old) (K.faults keys.new) }
        ensures later { K.faults keys.old ≤ K.faults keys.new }
        ensures ahead { length self.new.pending ≤ 3 }
    {
        self.fill(keys)?;
        Ok(self.take_key())
    }

    // Takes bytes until those that wait tell their first key, or none are left.
    fn fill<K: Source>(&mut self, keys: &mut K) -> Result<(), KeyFault>
        ensures filled { spec.Filled self.old self.new (K.left keys.old) (K.left keys.new) }
        ensures ends { spec.Ends result self.new (K.left keys.new) }
        ensures cause { result ≡ Err KeyFault.ReadFault
            → Rose (K.faults keys.old) (K.faults keys.new) }
        ensures later { K.faults keys.old ≤ K.faults keys.new }
    {
        for _turn in self.taken..MOST_BYTES {
            if !is_open(self.pending.as_slice()) {
                return Ok(());
            }
            match keys.next_byte() {
                Ok(Some(byte)) => self.add(byte),
                Ok(None) => return Ok(()),
                Err(_) => return Err(KeyFault::ReadFault),
            }
        }
        if is_open(self.pending.as_slice()) {
            return Err(KeyFault::TooManyKeys);
        }
        Ok(())
    }

    fn add(&mut self, byte: u8)
        requires room { length self.old.pending < 4 }
        requires few { self.old.taken < spec.most_bytes }
        ensures pending { self.new.pending ≡ self.old.pending ++ byte ∷ [] }
        ensures taken { self.new.taken ≡ self.old.taken + 1 }
    {
        self.pending.push(byte);
        self.taken += 1;
    }

    // The first key of the bytes that wait, without them.
    fn take_key(&mut self) -> Option<Key>
        ensures first { spec.IsFirst result self.old.pending self.new.pending }
        ensures taken { self.new.taken ≡ self.old.taken }
        ensures few { length self.new.pending ≤ 3 }
    {
        if self.pending.len() == 0 {
            return None;
        }
        let piece = first_key(self.pending.as_slice());
        drop_front(&mut self.pending, 1);
        drop_front(&mut self.pending, piece.more);
        Some(piece.key)
    }
}

fn drop_front(pending: &mut ArrayVec<u8, 4>, count: usize)
    ensures { pending.new.items ≡ drop count pending.old.items }
{
    for _byte in 0..count.min(pending.len()) {
        pending.remove(0);
    }
}
