//! Why a driver was not added.

use thiserror::Error;

/// Why a driver was not added.
#[derive(Clone, Copy, Debug, PartialEq, Eq, Error)]
pub enum DriversError {
    /// A driver of that kind is there.
    #[error("a driver of this kind is there")]
    Twice,
    /// Memory ran out.
    #[error("no memory")]
    NoMemory,
}
