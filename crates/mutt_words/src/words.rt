//! The words of a command line.

ghost use Rattle.std.specs.Prelude.{◌≡◌, ◌≤◌, ◌∷◌, Some, None, Ok, length, IfOk, IfErr};
ghost use Rattle.mail_base.specs.Series.{plain_texts};
ghost use Rattle.mutt_words.specs.Options.{IsUsable, Takes, plain_options};
ghost use Rattle.mutt_words.specs.Words as spec;

use crate::error::{ValueError, WordsError, usage};
use crate::long_option::read_long;
use crate::options::Options;
use crate::short_option::{ShortOption, read_short};
use crate::switch::Switch;
use mail_base::{Bytes, Words};
use std::alloc::Global;

/// Reads the words of a command line. A word need not be UTF-8, but is faulty then.
pub fn read_words(alloc: Global, words: &Words) -> Result<Options, WordsError>
    ensures ok { IfOk result
        (λ options. spec.options_of (plain_texts words.now) ≡ Ok (plain_options options)) }
    ensures err { IfErr result
        (λ error. spec.IsFault error (spec.options_of (plain_texts words.now))) }
    ensures usable { IfOk result IsUsable }
{
    let mut options = Options::new(alloc);
    let mut left = words.as_slice();
    while let Some((word, rest)) = left.split_first() {
        left = options.take_word(alloc, word.as_slice(), rest)?;
    }
    Ok(options)
}

// The option whose value stands in the next word.
fn waiting(word: &[u8]) -> Option<ShortOption>
    ensures { result ≡ spec.waiting word.now }
{
    match read_short(word) {
        Some((option, [])) => Some(option),
        _ => None,
    }
}

// Tells the word that holds a bad value.
fn told(alloc: Global, taken: Result<(), ValueError>, word: &[u8]) -> Result<(), WordsError>
    ensures { spec.IsTold taken word.now result }
{
    match taken {
        Ok(()) => Ok(()),
        Err(ValueError::Bad) => Err(usage(alloc, word)),
        Err(ValueError::NoMemory) => Err(WordsError::NoMemory),
    }
}

impl Options {
    // Takes a word, with the next one where its value stands there, and gives the words behind.
    fn take_word<'a>(
        &mut self,
        alloc: Global,
        word: &[u8],
        rest: &'a [Bytes],
    ) -> Result<&'a [Bytes], WordsError>
        requires usable { IsUsable self.old }
        ensures ok { IfOk result (λ left.
            spec.read_from (plain_options self.old) None (word.now ∷ spec.texts rest.now)
            ≡ spec.read_from (plain_options self.new) None (spec.texts left.now)) }
        ensures err { IfErr result (λ error. spec.IsFault error
            (spec.read_from (plain_options self.old) None (word.now ∷ spec.texts rest.now))) }
        ensures usable { IfOk result (λ left. IsUsable self.new) }
        ensures shorter { IfOk result (λ left. length left.now ≤ length rest.now) }
    {
        if word == b"--".as_slice() {
            let left = self.at_end(alloc, rest)?;
            return Ok(left);
        }
        match waiting(word) {
            Some(option) => self.take_next(alloc, option, word, rest),
            None => {
                let taken = self.take_whole(alloc, word);
                told(alloc, taken, word)?;
                Ok(rest)
            }
        }
    }

    // Nothing may stand behind `--`.
    fn at_end<'a>(&self, alloc: Global, rest: &'a [Bytes]) -> Result<&'a [Bytes], WordsError>
        ensures ok { IfOk result (λ left. spec.at_end (plain_options self.now)
            (spec.texts rest.now)
            ≡ spec.read_from (plain_options self.now) None (spec.texts left.now)) }
        ensures err { IfErr result (λ error. spec.IsFault error
            (spec.at_end (plain_options self.now) (spec.texts rest.now))) }
        ensures shorter { IfOk result (λ left. length left.now ≤ length rest.now) }
    {
        match rest {
            [] => Ok(rest),
            [word, ..] => Err(usage(alloc, word.as_slice())),
        }
    }

    // Takes the value of an option from the next word.
    fn take_next<'a>(
        &mut self,
        alloc: Global,
        option: ShortOption,
        word: &[u8],
        rest: &'a [Bytes],
    ) -> Result<&'a [Bytes], WordsError>
        requires usable { IsUsable self.old }
        ensures ok { IfOk result (λ left.
            spec.read_from (plain_options self.old) (Some (option, word.now))
            (spec.texts rest.now)
            ≡ spec.read_from (plain_options self.new) None (spec.texts left.now)) }
        ensures err { IfErr result (λ error. spec.IsFault error
            (spec.read_from (plain_options self.old) (Some (option, word.now))
            (spec.texts rest.now))) }
        ensures usable { IfOk result (λ left. IsUsable self.new) }
        ensures shorter { IfOk result (λ left. length left.now ≤ length rest.now) }
    {
        let [value, after @ ..] = rest else {
            return Err(usage(alloc, word));
        };
        let taken = self.take_short(alloc, option, value.as_slice());
        told(alloc, taken, value.as_slice())?;
        Ok(after)
    }

    // Takes a word that is whole in itself.
    fn take_whole(&mut self, alloc: Global, word: &[u8]) -> Result<(), ValueError>
        requires usable { IsUsable self.old }
        ensures takes { Takes result (spec.after_word (plain_options self.old) word.now)
            (plain_options self.new) }
        ensures usable { IsUsable self.new }
    {
        if let Some(switch) = Switch::from_word(word) {
            self.turn_on(switch);
            return Ok(());
        }
        if let Some((option, value)) = read_long(word) {
            return self.take_long(alloc, option, value);
        }
        match read_short(word) {
            Some((option, value)) => self.take_short(alloc, option, value),
            None => Err(ValueError::Bad),
        }
    }
}
