//! The messages of a folder, and what changed of them.

use mail_base::{Flags, Id, Ids, Series};

/// A message of a folder, with its flags as the folder has them.
#[derive(Clone, Copy, Debug, PartialEq, Eq)]
pub struct Listed {
    pub id: Id,
    pub flags: Flags,
}

/// A folder's messages.
pub type Listing = Series<Listed>;

/// What changed since the known listing.
#[derive(Drop)]
pub struct Found {
    pub gone: Ids,
    pub came: Listing,
    pub reflagged: Listing,
}
