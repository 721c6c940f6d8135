//! A shut thread.

/// What stands among the messages of a shut thread that hides some of them.
#[derive(Clone, Copy, Debug, PartialEq, Eq)]
pub struct Shut {
    pub has_new: bool,
    /// Whether one of them is old and unread.
    pub has_old: bool,
}
