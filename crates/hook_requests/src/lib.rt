//! What the words of hooks and of lists of header fields ask for. Call `HookWords::read` for the
//! words of a hook, and `add_pattern_hook` to add it; `Weeds` keeps names of fields.
#![tactic(auto)]

mod hook_words;
mod pattern_hook;
mod place;
mod weeds;
mod words;

pub use hook_words::HookWords;
pub use pattern_hook::{HookTable, add_pattern_hook};
pub use place::CommandPlace;
pub use weeds::{WeedList, Weeds};
pub use words::joined;
