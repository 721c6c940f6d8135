//! Laws of how headers are read, each the contract of a function that does nothing. Nothing stands
//! on them: they say in the words of a reader of mail what the definitions of `headers` mean.
#![tactic(auto)]

mod laws;

pub use laws::{
    comment_is_the_name, group_is_read, plain_text_stays, quoted_phrase_is_read,
    written_fields_are_read, written_people_are_read,
};
