//! What a step of a cursor met.

/// What a step of the cursor in the list of parts met.
#[derive(Clone, Copy, Debug, PartialEq, Eq)]
pub enum Stepped {
    Moved,
    /// The cursor stands on the first part, and stays there.
    First,
    /// The cursor stands on the last part, and stays there.
    Last,
}
