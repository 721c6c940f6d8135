//! Words with the values of their variables.

ghost use Rattle.std.specs.Prelude.{map};
ghost use Rattle.mail_base.specs.Series.{plain_texts};
ghost use Rattle.rc_lang.specs.Expansion as spec;
ghost use Rattle.rc_lang.specs.Settings.{Answers, queried_value};
ghost use Rattle.rc_lang_words.specs.Words.{plain_piece, plain_words};

use crate::settings::Settings;
use mail_base::{Bytes, NoMemory, Words};
use rc_lang_words::{RcError, RcFault, RcPiece, RcWords};
use std::alloc::Global;

impl Settings {
    /// The words with the value of each variable in its place. They are together no longer than the
    /// texts of the parts and, for each variable among these, the longest value of a variable.
    pub fn expand(&self, alloc: Global, words: &RcWords) -> Result<Words, RcError>
        ensures { Answers plain_texts result
            (spec.expanded_words self.now (plain_words words.now)) }
    {
        let mut expanded = Words::new(alloc);
        let mut left = words.as_slice();
        while let Some((word, rest)) = left.split_first() {
            let text = self.word_text(alloc, word.pieces.as_slice())?;
            let Ok(()) = expanded.push(text) else {
                return Err(RcError::no_memory(alloc));
            };
            left = rest;
        }
        Ok(expanded)
    }

    /// The text of a word by its parts.
    pub(crate) fn word_text(&self, alloc: Global, pieces: &[RcPiece]) -> Result<Bytes, RcError>
        ensures { Answers (λ b. b.items) result
            (spec.word_text self.now (map plain_piece pieces.now)) }
    {
        let mut text = Bytes::new(alloc);
        let mut left = pieces;
        while let Some((piece, rest)) = left.split_first() {
            let part = self.piece_text(alloc, piece)?;
            let Ok(()) = text.append(part.as_slice()) else {
                return Err(RcError::no_memory(alloc));
            };
            left = rest;
        }
        Ok(text)
    }

    fn piece_text(&self, alloc: Global, piece: &RcPiece) -> Result<Bytes, RcError>
        ensures { Answers (λ b. b.items) result
            (spec.piece_text self.now (plain_piece piece.now)) }
    {
        let text = match piece {
            RcPiece::Text(text) => text,
            RcPiece::Variable(name) => return self.variable_text(alloc, name.as_slice()),
        };
        match Bytes::copy_of(alloc, text.as_slice()) {
            Ok(text) => Ok(text),
            Err(NoMemory) => Err(RcError::no_memory(alloc)),
        }
    }

    fn variable_text(&self, alloc: Global, name: &[u8]) -> Result<Bytes, RcError>
        ensures { Answers (λ b. b.items) result
            (spec.text_given (queried_value self.now name.now)) }
    {
        let Some(value) = self.find_value(name) else {
            return Err(RcError::new(alloc, RcFault::UnknownVariable, name));
        };
        match value.text(alloc) {
            Ok(text) => Ok(text),
            Err(NoMemory) => Err(RcError::no_memory(alloc)),
        }
    }
}
