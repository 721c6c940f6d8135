//! Mailboxes in one file as text (mbox(5)): where their messages stand, and what each tells of
//! itself.
#![tactic(auto)]

mod laws;
mod message_core;
mod postmark;
mod regions;
mod rewriting;
mod stamp;
mod status;
mod status_fields;

pub use folder_core::{Region, Regions};
pub use laws::{fronts_stay, rewritten_mailboxes_read};
pub use message_core::{core_of, read_message};
pub use postmark::read_postmark;
pub use regions::{CutError, cut_regions};
pub use rewriting::{Rewritten, rewrite};
pub use status::read_status;
pub use status_fields::with_status;
