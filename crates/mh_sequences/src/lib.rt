//! The sequences of an MH folder, in which numbers of messages stand (mh-sequence(5)).
//! `Sequences` reads the file of them, tells which numbers a sequence holds, changes that, and
//! writes the file; `Marks` are the flags that they give to messages, for many questions.
#![tactic(auto)]

mod laws;
mod marks;
mod members;
mod range;
mod sequence_line;
mod sequences;

pub use laws::{
    drop_takes_one, put_changes_one, ranges_stay_upright, sequences_hold_what_is_written,
};
pub use marks::Marks;
pub use members::Members;
pub use range::{Range, Ranges};
pub use sequences::Sequences;
