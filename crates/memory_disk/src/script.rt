//! What others do to a disk in memory, and when.

use disk_state::Action;
use mail_base::Series;

/// An action of others before the call of that number. Calls are numbered from 0.
#[derive(Drop)]
pub struct Foreign {
    pub before_call: u64,
    pub action: Action,
}

/// What others do: before each call those actions, in their order, that are due by then.
pub type Script = Series<Foreign>;
