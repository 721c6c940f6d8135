//! A message on pages: its text broken at columns, with a top line, hidden quotes and a search.
//! Open a `Pager` by `Pager::open_message` or `Pager::open_part`; `lines` gives the page from the
//! top on, `scroll` moves the top, `find` searches, `toggle_quoted` hides and shows quoted lines,
//! and `attachments` gives the rows of the parts.
#![tactic(auto)]

mod breaker;
mod breaking;
mod laws;
mod opening;
mod pager;
mod quotes;
mod texts;

pub use laws::lines_are_broken;
pub use message_text::Weeding;
pub use pager::Pager;
