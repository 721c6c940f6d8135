//! What functions of the index do, by basic effects: `effects_of` has a line for each. Beside it
//! stand the words of these effects, what the last line says, and what answers to prompts mean.
#![tactic(auto)]

mod choosing;
mod effect;
mod finding;
mod functions;
mod message;
mod motion;
mod notice;
mod places;
mod rule;
mod syncs;
mod wanted;
mod way;

pub use choosing::{is_no_limit, mark_of};
pub use effect::{Effect, Scope};
pub use finding::{first_found, found_notice};
pub use functions::{effects_of, needs_message, writes};
pub use message::Message;
pub use motion::Motion;
pub use notice::Notice;
pub use places::{is_in, page_before, page_behind, place_of};
pub use rule::{Rule, is_written};
pub use syncs::count_discards;
pub use wanted::Wanted;
pub use way::{Way, way_or};
