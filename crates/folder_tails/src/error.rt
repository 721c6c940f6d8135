//! Why the end of a mailbox was not put in its place.

use mail_base::NoMemory;
use thiserror::Error;

/// Why the end of a mailbox was not put in its place.
#[derive(Clone, Copy, Debug, PartialEq, Eq, Error)]
pub enum TailError {
    /// Somebody else has the lock.
    #[error("locked")]
    Locked,
    /// Somebody else began to write, and has not ended.
    #[error("unfinished")]
    Unfinished,
    /// The mailbox, its folder or a name beside it is not there, or is in the way.
    #[error("gone")]
    Gone,
    /// The disk failed, and has counted it.
    #[error("disk fault")]
    Fault,
    /// Memory ran out.
    #[error("no memory")]
    NoMemory,
}

impl From<NoMemory> for TailError {
    ghost use Rattle.std.specs.Prelude.{◌≡◌};
    ghost use Rattle.folder_tails.specs.declared.error.TailError.TheVariants.{NoMemory};

    ghost from_gives = { λ _ e. e ≡ NoMemory };

    fn from(_: NoMemory) -> Self {
        TailError::NoMemory
    }
}
