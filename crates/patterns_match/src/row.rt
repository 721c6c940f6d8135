//! What is shown of messages.

use mail_base::{Flags, Id};

/// A message of a listing, with what is shown of it beside its text.
#[derive(Clone, Copy)]
pub struct Row {
    pub id: Id,
    /// Its place in the order, from 1.
    pub number: u64,
    pub flags: Flags,
    pub deleted: bool,
    pub tagged: bool,
    /// In a thread that is shut.
    pub collapsed: bool,
    pub score: u64,
    /// When it was received: seconds since 1970 in UTC.
    pub received: i64,
    pub size: u64,
}
