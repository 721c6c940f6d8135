//! What happens in a run: the reading of a file of commands, the opening of a folder, checks and
//! syncs of it, and keys, each with what it says of the disk; the trace of it all; and what a
//! session starts from.
#![tactic(auto)]

mod cause;
mod checking;
mod event;
mod open_folder;
mod opening;
mod setup;
mod source;
mod syncing;
mod visit;

pub use cause::{append_cause, refusal_line, sync_refusal_line};
pub use checking::Scanned;
pub use event::{Event, Events, Marks, OpenFault, Trace};
pub use open_folder::{News, OpenFolder};
pub use opening::{Opening, open_event};
pub use setup::{Next, Setup, StartError};
pub use source::source_event;
pub use syncing::Tried;
