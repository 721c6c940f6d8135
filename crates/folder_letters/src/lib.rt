//! Letters, listings of them and what is to become of listed messages, for all that reads no folder
//! itself.
#![tactic(auto)]

mod change;
mod letter;
mod listing;

pub use change::{Change, Changed1, Changes};
pub use letter::{Archive, Letter};
pub use listing::{Found, Listed, Listing};
