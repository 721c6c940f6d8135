//! Why an entry is no score.

use mail_base::NoMemory;
use thiserror::Error;

/// Why an entry is no score.
#[derive(Clone, Copy, Debug, PartialEq, Eq, Error)]
pub enum ScoreError {
    /// The pattern has a letter that may not stand in a score.
    #[error("pattern not allowed here")]
    NotHere,
    /// The value is below -1,000,000 or above 1,000,000.
    #[error("value out of range")]
    OutOfRange,
    /// There are 4,096 entries.
    #[error("too many scores")]
    TooMany,
    /// Memory ran out.
    #[error("no memory")]
    NoMemory,
}

impl From<NoMemory> for ScoreError {
    ghost use Rattle.std.specs.Prelude.{◌≡◌};
    ghost use Rattle.patterns_match.specs.declared.score_error.ScoreError.{ScoreError};

    ghost from_gives = { λ _ e. e ≡ ScoreError.NoMemory };

    fn from(_: NoMemory) -> Self {
        ScoreError::NoMemory
    }
}
