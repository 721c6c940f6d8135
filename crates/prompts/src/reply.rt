//! What a key says to a prompt.

/// What a key says to a prompt.
#[derive(Clone, Copy, Debug, PartialEq, Eq)]
pub enum Reply {
    /// The prompt stays.
    More,
    /// It ends without effect.
    GivenUp,
    /// It ends with what was typed.
    Answered,
    /// It ends with this key.
    Chosen(char),
}
