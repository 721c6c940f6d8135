//! Where a run is shown.

/// The size of the screen, and the reader's offset from UTC in seconds.
#[derive(Clone, Copy, Debug, PartialEq, Eq)]
pub struct Window {
    pub rows: u16,
    pub cols: u16,
    pub offset: i32,
}
