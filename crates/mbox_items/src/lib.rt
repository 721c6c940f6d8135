//! Messages that are added to a mailbox in one file (mbox(5)). `item_text` gives the bytes of one,
//! from its postmark to the empty line that ends it, and `feeds_before` what goes in front of them.
#![tactic(auto)]

mod feeds;
mod item_region;
mod laws;
mod postmark;
mod stamp;

pub use feeds::feeds_before;
pub use item_region::item_text;
pub use laws::appended_mailboxes_read;
