//! The index from scratch: the listed messages with what the user changed of them, in threads and
//! in order, and what of them is seen. Make a `View`, take in what a scan found by `take_delta`,
//! and ask for its ids, rows and lines.
#![tactic(auto)]

mod acting;
mod answers;
mod asked;
mod asking;
mod finding;
mod judging;
mod laws;
mod limiting;
mod lines;
mod marks;
mod messages;
mod ordering;
mod rows;
mod shutting;
mod tables;
mod view;

pub use index_order::ViewOptions;
pub use laws::first_folder_is_taken;
pub use view::View;
