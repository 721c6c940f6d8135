//! muttrc text as commands, words and parts of words: `read_rc`. What they mean is the matter of
//! `rc_lang`.
#![tactic(auto)]

mod fault;
mod laws;
mod rc_line;
mod sign;
mod split;
mod state;
mod word;

pub use fault::{RcError, RcFault};
pub use laws::quoted_words_are_read;
pub use rc_line::{RcLine, RcLines, read_rc};
pub use word::{RcPiece, RcPieces, RcWord, RcWords};
