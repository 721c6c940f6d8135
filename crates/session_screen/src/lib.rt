//! What the settings say of folders and of the index, and what the screen shows of it:
//! `page_lines`, `status_line`, and `pager_line` of a message.
#![tactic(auto)]

mod checks;
mod formats;
mod page;
mod pager_status;
mod places;
mod sorting;
mod status;
mod toggling;
mod tuning;
mod window;

pub use checks::is_over;
pub use page::page_lines;
pub use pager_status::pager_line;
pub use places::{folder_path, new_kind};
pub use sorting::sort_words;
pub use status::{Banner, Place, status_line};
pub use toggling::toggle_words;
pub use tuning::{is_set, options_of, quad_of};
pub use window::Window;
