//! The cells of a line before it is filled and cut.

use mail_base::Series;

/// What a line shows: a character, or columns that are filled with one.
#[derive(Clone, Copy, Drop)]
pub enum Cell {
    Shown(char),
    /// As many columns as are left beside all others.
    Gap(char),
    /// All columns that are left.
    Rest(char),
}

/// The cells of a line.
pub type Cells = Series<Cell>;
