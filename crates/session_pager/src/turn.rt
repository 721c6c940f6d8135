//! How a page is turned.

/// How a page is turned (Mutt's manual, "The Pager").
#[derive(Clone, Copy, Debug, PartialEq, Eq)]
pub enum Turn {
    NextLine,
    PreviousLine,
    NextPage,
    PreviousPage,
    Top,
    /// The last page.
    Bottom,
    /// Quoted lines are hidden, or shown again.
    ToggleQuoted,
}
