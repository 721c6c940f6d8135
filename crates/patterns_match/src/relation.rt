//! Which other messages a pattern asks.

/// Which other messages a pattern in parentheses asks.
#[derive(Clone, Copy, Debug, PartialEq, Eq)]
pub enum Relation {
    /// Some message with the same root.
    Thread,
    Parent,
    /// Some child.
    Child,
}
