//! The parts of a message, and their text decoded.
//! Call `read_parts` for the parts of a message, `decoded_text` for the text of one, and
//! `kind_list` for the types of all.
#![tactic(auto)]

mod base64_body;
mod cut;
mod dash_lines;
mod delimiter;
mod encoding;
mod entity;
mod kinds;
mod laws;
mod media_type;
mod parameter;
mod part;
mod parts;
mod quoted;
mod quotes;
mod section;
mod text;

pub use encoding::Encoding;
pub use kinds::kind_list;
pub use laws::{quoted_bytes_are_read, written_parameter_is_read, written_sections_are_cut};
pub use part::{Part, Parts};
pub use parts::{MimeError, read_parts};
pub use text::{append_lines, append_text, decoded_text};
