//! Prompts of the last line: what they ask, and what is typed at them. Make a `Prompt`, and hand it
//! each key.
#![tactic(auto)]

mod asking;
mod prompt;
mod reply;

pub use asking::Asking;
pub use prompt::Prompt;
pub use reply::Reply;
