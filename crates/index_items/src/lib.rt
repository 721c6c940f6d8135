//! The listed messages as the index keeps them: what the user changed of each and the folder does
//! not hold yet, its tag, and whether its thread is shut. `Items` are they with their `Tally`: how
//! many are new and so on. Change one of them in place by `Items::act`, or in a new list by
//! `altered`, ask `changes` for what a sync is to do, and `settled` and `joined` for what a sync
//! and a scan leave of the list.
#![tactic(auto)]

mod act;
mod alteration;
mod by_id;
mod change;
mod found;
mod item;
mod items;
mod kept;
mod pending;
mod tally;

pub use act::{Act, Mark};
pub use alteration::{Alteration, altered};
pub use by_id::ById;
pub use change::{changes, settled, table_of};
pub use found::joined;
pub use item::{Item, ids_of};
pub use items::Items;
pub use kept::keep;
pub use pending::Pending;
pub use tally::{Tally, Unsynced};
