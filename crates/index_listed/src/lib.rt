//! Listed messages with their letters and headers, what each follows, and what of them is seen.
//! Keep headers by `read_heads`, put the messages together by `all_listed` and in threads by
//! `in_threads`. Give an order of them to `stances` and to `Sight::new`, with a `Mark` for each
//! message, and ask the `Sight` what is seen; `moved` tells where the cursor goes then.
#![tactic(auto)]

mod cursor;
mod entry;
mod heads;
mod known;
mod links;
mod listed;
mod mark;
mod page;
mod places;
mod sight;
mod stance;
mod threaded;
mod threading;
mod tree;
mod visibility;

pub use cursor::{at_or_last, moved, moved_by_shutting};
pub use entry::Above;
pub use heads::read_heads;
pub use links::Links;
pub use listed::{Listed, all_listed, text_of};
pub use mark::Mark;
pub use page::{cursor_mark, put_blanks};
pub use places::{Places, places_of};
pub use sight::Sight;
pub use stance::{Stance, stances};
pub use threaded::{Threaded, in_threads};
