//! What the words of `bind`, `macro`, `push` and `exec` ask for. Call `BindRequest::read` and
//! `MacroRequest::read` for keys that are bound, `key_text` and `calls_of` for keys that are put.
#![tactic(auto)]

mod request;

pub use request::{BindRequest, MacroRequest, calls_of, key_text, word_at};
