//! Formats of lines: `read_format` reads one, with the letters that it may have, and `render`
//! makes a line of it over any `Values`. A format is a list of pieces: text, fields, fills and
//! conditions. `cut` makes a line of a text.
#![tactic(auto)]

mod cell;
mod choice;
mod columns;
mod condition;
mod cutting;
mod error;
mod field;
mod format;
mod laws;
mod leaf;
mod letter;
mod line;
mod number;
mod piece;
mod rendering;
mod values;

pub use columns::{columns_of, shown_char};
pub use cutting::cut;
pub use error::FormatError;
pub use format::{Format, read_format};
pub use laws::{gaps_are_filled, printed_formats_are_read};
pub use rendering::render;
pub use values::Values;
