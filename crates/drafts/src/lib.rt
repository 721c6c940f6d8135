//! Messages that are being written, and their bytes.
//! Call `new_draft` or `reply_to` to begin one, `to_bytes` for the bytes that are kept of it, and
//! `from_bytes` to read it from them.
#![tactic(auto)]

mod clean;
mod draft;
mod fault;
mod ids;
mod laws;
mod line_state;
mod new_drafts;
mod quoted;
mod reader;
mod reading;
mod reply;
mod writing;

pub use draft::{Draft, DraftError};
pub use laws::{drafts_differ, written_drafts_are_read};
pub use new_drafts::new_draft;
pub use reader::from_bytes;
pub use reply::reply_to;
pub use writing::to_bytes;
