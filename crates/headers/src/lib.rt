//! Fields of a message: encoded words, people, message ids, subjects and dates.
//! Call `read_header` for all that a header says; for a value of its own `FoldedField::named`, or
//! `read_fields` and `first_value`, and `decode_words`.
#![tactic(auto)]

mod address_byte;
mod address_state;
mod body_lines;
mod candidates;
mod charset;
mod decode;
mod encoded_word;
mod encoding;
mod field;
mod fields;
mod folded_field;
mod header;
mod ids;
mod people;
mod person;
mod references;
mod sent_date;
mod subject;
mod values;

pub use charset::Charset;
pub use decode::decode_words;
pub use field::{Field, Fields};
pub use fields::{first_value, read_fields};
pub use folded_field::{FoldedField, Unfolded, next_continuation};
pub use header::{Header, read_brief_header, read_header};
pub use people::read_people;
pub use person::{Person, Persons};
pub use sent_date::SentDate;
