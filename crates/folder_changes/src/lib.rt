//! What a call that writes does to the messages of a folder, step by step: definitions, and their
//! laws as the contracts of functions that do nothing; and why such a call is refused.
#![tactic(auto)]

mod item;
mod laws;
mod left;
mod refusing;
mod sync_error;

pub use item::Item;
pub use laws::{
    causes_are_found_or_made_by_others, own_removals_take_files, own_renames_rename_files,
    renamed_files_change_one_message, steps_alone_do_what_is_wanted, taken_files_take_one_message,
};
pub use left::listing_synced;
pub use refusing::{error_at, name_changed};
pub use sync_error::{Spot, SyncError};
