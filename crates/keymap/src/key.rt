//! Keys.

use crate::function::Function;
use mail_base::Series;

/// A key.
#[derive(Clone, Copy, Debug, PartialEq, Eq, Hash)]
pub enum Key {
    Char(char),
    Up,
    Down,
    Left,
    Right,
    Home,
    End,
    PageUp,
    PageDown,
    Insert,
    Delete,
    F1,
    F2,
    F3,
    F4,
    /// A function's name in the text of a macro, which runs it at once.
    Call(Function),
}

/// A list of keys.
pub type Keys = Series<Key>;
