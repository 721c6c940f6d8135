//! What the status line of the index shows.

/// A listing as the status line of the index shows it, and the settings that count.
#[derive(Clone, Copy)]
pub struct Summary<'a> {
    pub path: &'a [u8],
    pub read_only: bool,
    /// Whether there are changes, where purging counts.
    pub changed: bool,
    /// How many messages the listing has.
    pub count: u64,
    pub new: u64,
    /// Old and unread ones.
    pub old: u64,
    pub unread: u64,
    pub deleted: u64,
    pub flagged: u64,
    pub tagged: u64,
    /// The text of the limit.
    pub limit: Option<&'a [u8]>,
    /// How many messages are visible.
    pub visible: u64,
    /// How many of them stand before the page.
    pub before: u64,
    /// The place of the last one on the page, from 1.
    pub last: u64,
    pub sort: &'a [u8],
    pub sort_aux: &'a [u8],
}
