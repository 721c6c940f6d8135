//! What stands in place of the index: a message or one of its parts on pages, or the list of its
//! parts. Keep a `Reader` beside the index: `open`, `list` and `open_part` show something, `turn`,
//! `step` and `search_for` move in it, `refresh` makes it anew, and `page_lines` and `part_lines`
//! are its lines. `pager_deed` and `attach_deed` say what each function does there.
#![tactic(auto)]

mod attach_functions;
mod laws;
mod letters;
mod lines;
mod pager_functions;
mod parts;
mod reader;
mod showing;
mod stepped;
mod text;
mod turn;

pub use attach_functions::{AttachDeed, attach_deed};
pub use laws::{attach_functions_act, last_page_ends_the_text, pager_functions_act};
pub use pager_functions::{PagerDeed, pager_deed};
pub use reader::Reader;
pub use stepped::Stepped;
pub use turn::Turn;
