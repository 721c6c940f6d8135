//! The words of a hook.

ghost use Rattle.std.specs.Prelude.{◌≡◌};
ghost use Rattle.rc_lang.specs.Settings.{plain_names};
ghost use Rattle.hook_requests.specs.HookWords as spec;

use crate::words::joined;
use mail_base::{Bytes, NoMemory, without_blanks};
use std::alloc::Global;

/// The words of a hook, of which a `!` before the expression or pattern was taken off.
#[derive(Clone, Copy)]
pub struct HookWords<'a> {
    /// It counts where its expression or pattern does not match.
    pub negated: bool,
    /// The word of the expression or pattern, as it is written.
    pub word: &'a [u8],
    /// The expression or pattern.
    pub text: &'a [u8],
    /// The words behind it.
    pub rest: &'a [Bytes],
}

fn is_negation(word: &[u8]) -> bool
    ensures { result ≡ spec.is_negation word.now }
{
    word == b"!".as_slice()
}

// Whether a `!` stands at the front of a word, and the text behind it.
fn split_negation(word: &[u8]) -> (bool, &[u8])
    ensures { (result.0, result.1.now) ≡ spec.split_negation word.now }
{
    match word {
        [b'!', rest @ ..] => (true, without_blanks(rest)),
        _ => (false, word),
    }
}

impl<'a> HookWords<'a> {
    ghost use Rattle.std.specs.Prelude.{◌≡◌, IfOk};
    ghost use Rattle.rc_lang.specs.Settings.{plain_names};
    ghost use Rattle.hook_requests.specs.HookWords as spec;
    ghost use Rattle.hook_requests.specs.Words.{joined as joined_text};

    /// Reads the words behind the name of the command.
    pub fn read(words: &'a [Bytes]) -> HookWords<'a>
        ensures { spec.plain_hook_words result ≡ spec.hook_words (plain_names words.now) }
    {
        match words {
            [first, word, rest @ ..] if is_negation(first.as_slice()) => HookWords {
                negated: true,
                word: word.as_slice(),
                text: word.as_slice(),
                rest,
            },
            [word, rest @ ..] => HookWords::with_word(word.as_slice(), rest),
            [] => HookWords::with_word(b"", &[]),
        }
    }

    // The words of which the first has its own `!`, or none.
    fn with_word(word: &'a [u8], rest: &'a [Bytes]) -> HookWords<'a>
        ensures { spec.plain_hook_words result ≡ spec.with_word word.now (plain_names rest.now) }
    {
        let (negated, text) = split_negation(word);
        HookWords {
            negated,
            word,
            text,
            rest,
        }
    }

    /// The command, or the mailbox.
    pub fn command(self, alloc: Global) -> Result<Bytes, NoMemory>
        ensures { IfOk result
            (λ command. command.items ≡ joined_text (plain_names self.entry.rest.now)) }
    {
        joined(alloc, self.rest)
    }
}
