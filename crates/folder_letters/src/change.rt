//! What is to become of messages of a folder.

use mail_base::{Delta, Id, Series};

/// What is to become of a message.
#[derive(Clone, Copy)]
pub enum Change {
    /// Its flags change.
    Alter(Delta),
    /// It is taken out of the folder.
    Discard,
}

/// A listed message, and what is to become of it.
#[derive(Clone, Copy)]
pub struct Changed1 {
    pub id: Id,
    pub change: Change,
}

/// The messages of a folder that change, each once.
pub type Changes = Series<Changed1>;
