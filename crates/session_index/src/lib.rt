//! What functions do to the index of a session: where motions of the cursor lead, what is done to
//! which messages, searches, answers to prompts, what a pager asks of it, and what is to be written
//! where a sync or the end of the run is asked for.
#![tactic(auto)]

mod acting;
mod answering;
mod desk;
mod folding;
mod hiding;
mod last_line;
mod neighbours;
mod opening;
mod performing;
mod scope;
mod searching;
mod sought;
mod staying;
mod syncing;
mod touched;
mod typing;
mod viewing;
mod ways;

pub use desk::Desk;
pub use index_functions::{
    Effect, Message, Motion, Notice, Rule, Scope, Wanted, Way, first_found, is_no_limit, is_written,
};
pub use scope::{meant, thread_ids};
pub use searching::search;
pub use sought::Sought;
