//! The text of a message as it is read on a screen, before its lines are broken at columns.
//! Call `message_text` for the lines of a message, `part_text` for those of one of its parts, both
//! with a row for each part, and `attachment_rows` for these rows alone.
#![tactic(auto)]

mod branch;
mod header;
mod laws;
mod look;
mod marks;
mod message;
mod parts;
mod rows;
mod source;
mod weeding;

pub use laws::{kept_fields_are_shown_once, levels_are_enough, unweeded_fields_are_all_shown};
pub use message::{MessageText, message_text, part_text};
pub use rows::attachment_rows;
pub use weeding::Weeding;
