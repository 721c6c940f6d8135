//! Why a text is no format.

use mail_base::NoMemory;
use thiserror::Error;

/// Why a text is no format.
#[derive(Clone, Copy, Debug, PartialEq, Eq, Error)]
pub enum FormatError {
    /// The percent sign at this place begins nothing.
    #[error("bad format at {0}")]
    BadFormat(usize),
    /// Memory ran out.
    #[error("no memory")]
    NoMemory,
}

impl From<NoMemory> for FormatError {
    ghost use Rattle.std.specs.Prelude.{◌≡◌};
    ghost use Rattle.expando.specs.declared.error.FormatError.{FormatError};

    ghost from_gives = { λ _ e. e ≡ FormatError.NoMemory };

    fn from(_: NoMemory) -> Self {
        FormatError::NoMemory
    }
}
