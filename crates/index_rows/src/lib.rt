//! The texts of the letters of a message's row in the index and of its status line, and both lines.
//! Call `Ties::of` for what the tables of people tell of a message, `index_row` for its row by a
//! format, and `status_line` for the status line.
#![tactic(auto)]

mod date;
mod entry;
mod laws;
mod persons;
mod row;
mod shut;
mod status_chars;
mod summary;
mod summary_texts;
mod text;
mod texts;
mod ties;

pub use entry::Entry;
pub use laws::{clocks_say_their_parts, formats_are_shown};
pub use row::{index_row, status_line};
pub use shut::Shut;
pub use summary::Summary;
pub use ties::Ties;
