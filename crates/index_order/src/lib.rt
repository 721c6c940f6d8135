//! The order of the index: messages by the keys of a sort, or in threads. Keep the `SortKeys` of
//! each message of a listing, and ask `order` for their ids under some `SortOptions`.
#![tactic(auto)]

mod greatest;
mod keys;
mod laws;
mod listing;
mod options;
mod sorted;
mod standing;
mod view_options;

pub use keys::SortKeys;
pub use laws::greatest_is_greatest;
pub use listing::order;
pub use options::{Sort, SortOptions};
pub use view_options::ViewOptions;
