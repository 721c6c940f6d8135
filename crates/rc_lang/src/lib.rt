//! muttrc as values: `read_rc` reads commands, `Settings` keeps the variables and runs `set` and
//! its kin.
#![tactic(auto)]

mod change;
mod command;
mod expansion;
mod kind;
mod laws;
mod number;
mod quad;
mod request;
mod rule;
mod settings;
mod value;
mod variable;

pub use command::Command;
pub use laws::{printed_texts_are_set, reset_gives_defaults};
pub use quad::Quad;
pub use rc_lang_words::{
    RcError, RcFault, RcLine, RcLines, RcPiece, RcPieces, RcWord, RcWords, read_rc,
};
pub use rule::{ROW_LETTERS, STATUS_LETTERS};
pub use settings::Settings;
pub use value::Value;
pub use variable::{Variable, is_variable};
