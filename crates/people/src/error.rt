//! Why a text is no expression.

use mail_base::NoMemory;
use thiserror::Error;

/// Why a text is no expression.
#[derive(Clone, Copy, Debug, PartialEq, Eq, Error)]
pub enum ExprError {
    /// It is out of form, or nests too deep.
    #[error("bad syntax")]
    Syntax,
    /// It is too large.
    #[error("too large")]
    Size,
    /// Memory ran out.
    #[error("no memory")]
    NoMemory,
}

impl From<NoMemory> for ExprError {
    ghost use Rattle.std.specs.Prelude.{◌≡◌};
    ghost use Rattle.people.specs.declared.error.ExprError.{ExprError};

    ghost from_gives = { λ _ e. e ≡ ExprError.NoMemory };

    fn from(_: NoMemory) -> Self {
        ExprError::NoMemory
    }
}
