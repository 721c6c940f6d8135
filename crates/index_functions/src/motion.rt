//! Where the cursor is to go.

/// Where the cursor is to go (Mutt's manual, "Functions").
#[derive(Clone, Copy, Debug, PartialEq, Eq)]
pub enum Motion {
    NextUndeleted,
    PreviousUndeleted,
    Next,
    Previous,
    First,
    Last,
    NextPage,
    PreviousPage,
    /// The next new message, going round, or else the next unread one.
    NextUnread,
    NextThread,
    PreviousThread,
    ToParent,
}
