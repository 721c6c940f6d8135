//! Patterns of messages: their arguments, ranges and grammar. Call `read_pattern` for the pattern
//! that a text is; `patterns_match` asks it of messages.
#![tactic(auto)]

mod argument;
mod date_range;
mod day;
mod draft;
mod draft_text;
mod fault;
mod hook;
mod laws;
mod need;
mod number;
mod pattern_error;
mod pattern_text;
mod range_text;
mod read_error;
mod state;
mod token;

pub use argument::read_argument;
pub use date_range::read_days;
pub use day::{day_at, read_day};
pub use fault::Fault;
pub use hook::hook_pattern;
pub use laws::printed_ranges_are_read;
pub use pattern_error::PatternError;
pub use pattern_text::read_pattern;
pub use patterns_match::{Asked, Field, Operation, Pattern, Range, Sought};
pub use range_text::{Measure, read_range};
pub use token::{Leaf, Token, read_token};
