//! The command line: `read_words` makes `Options` of its words, or tells the first faulty one.
#![tactic(auto)]

mod error;
mod long_option;
mod options;
mod short_option;
mod switch;
mod words;

pub use error::WordsError;
pub use options::Options;
pub use words::read_words;
