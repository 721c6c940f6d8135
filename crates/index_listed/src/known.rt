//! Texts that are known.

ghost use Rattle.std.specs.Prelude.{◌≡◌, ℕ, List, false, OnOk};
ghost use Rattle.index_listed.specs.Known.{is_in, with_text};

use indexmap::IndexSet;
use mail_base::NoMemory;
use std::alloc::Global;
use std::marker::Model;

/// Texts that are known, which stay where they are.
pub struct Known<'a> {
    texts: IndexSet<&'a [u8]>,
}

impl<'a> Drop for Known<'a> {
    fn drop(self) {
        let Known { texts: _ } = self;
    }
}

impl<'a> Model for Known<'a> {
    ghost use Rattle.std.specs.Borrow.{Bor};
    ghost use Rattle.std.specs.Prelude.{ℕ, List};

    ghost Value = { List (Bor (List ℕ)) };

    ghost view = { λ k. k.texts.keys };
}

impl<'a> Known<'a> {
    pub fn new(alloc: Global) -> Known<'a>
        ensures { (text : List ℕ) → is_in result text ≡ false }
    {
        Known {
            texts: IndexSet::new(alloc),
        }
    }

    /// Whether a text is known.
    pub fn holds(&self, text: &[u8]) -> bool
        ensures { result ≡ is_in self.now text.now }
    {
        self.texts.contains(text)
    }

    /// From now on the text is known.
    pub fn add(&mut self, text: &'a [u8]) -> Result<(), NoMemory>
        ensures { OnOk result (is_in self.new ≡ with_text (is_in self.old) text.now) }
    {
        self.texts.insert(text)?;
        Ok(())
    }
}
