//! What a stop may leave of a folder with one file a message, a Maildir or an MH folder, over the
//! journal of a disk.
//!
//! The crate has no code: drivers of such folders cite its words and lemmas. `specs/Rows.antt` has
//! what a folder holds name by name (`Holds`), `specs/Reads.antt` what each image is then read as
//! (`Stands`), `specs/Others.antt` what others may do, `specs/Syncs.antt` and `specs/Appends.antt`
//! what a call says. Its public functions do nothing: each has a law as its contract.
#![tactic(auto)]

mod laws;

pub use laws::{
    a_folder_stands_at_first, a_sync_keeps_the_messages, an_append_adds_its_item,
    calls_elsewhere_keep_the_messages, what_is_held_stands, what_is_kept_is_all_but_some,
};
