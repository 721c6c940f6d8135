//! Why a text is no pattern.

/// Why a text is no pattern, at the first place where its grammar has no way on.
#[derive(Clone, Copy, Debug, PartialEq, Eq)]
pub enum Fault {
    /// A pattern, a group, an operand or an expression is missing.
    Empty,
    /// No letter stands at this place, or no term begins there.
    UnknownLetter(usize),
    /// The parenthesis or quote at this place has no partner.
    Unbalanced(usize),
    BadRange(usize),
    BadDate(usize),
    /// More than 64 parentheses are open.
    TooDeep,
}
