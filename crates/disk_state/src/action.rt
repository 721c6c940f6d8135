//! What others do to a disk.

use mail_base::Bytes;

/// What others do to a tree. An action that does not fit the tree does nothing.
#[derive(Drop)]
pub enum Action {
    Append { path: Bytes, bytes: Bytes },
    /// A new file.
    Put { path: Bytes, bytes: Bytes },
    Rename { from: Bytes, to: Bytes },
    Remove { path: Bytes },
    /// Replaces what the file holds.
    Write { path: Bytes, bytes: Bytes },
}
