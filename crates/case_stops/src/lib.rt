//! What the cases of stopped calls share: calls that are stopped, refused, or made beside others,
//! and the images that are opened again behind them.
#![tactic(auto)]

mod images;
mod letters;
mod played;
mod trouble;

pub use played::{Played, is_always_kept};
