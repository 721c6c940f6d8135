//! Why words are no command line.

ghost use Rattle.std.specs.Prelude.{◌≡◌};
ghost use Rattle.mutt_words.specs.Words.{IsFaulty};
ghost use Rattle.mutt_words.specs.declared.error.ValueError.TheVariants as value_error;

use mail_base::{Bytes, NoMemory};
use std::alloc::Global;

/// Why words are no command line.
#[derive(Drop)]
pub enum WordsError {
    /// The first faulty word: an option whose value is missing, or the word that holds a bad value.
    Usage(Bytes),
    NoMemory,
}

/// The error that tells this word.
pub fn usage(alloc: Global, word: &[u8]) -> WordsError
    ensures { IsFaulty word.now result }
{
    match Bytes::copy_of(alloc, word) {
        Ok(word) => WordsError::Usage(word),
        Err(NoMemory) => WordsError::NoMemory,
    }
}

/// Why a value was not taken.
#[derive(Clone, Copy, Debug, PartialEq, Eq)]
pub enum ValueError {
    /// The option does not take this value.
    Bad,
    NoMemory,
}

impl From<NoMemory> for ValueError {
    ghost from_gives = { λ _ e. e ≡ value_error.NoMemory };

    fn from(_: NoMemory) -> ValueError {
        ValueError::NoMemory
    }
}
