//! Why a pattern is not read.

use crate::fault::Fault;
use mail_base::NoMemory;

/// Why a pattern is not read.
#[derive(Clone, Copy, Debug, PartialEq, Eq)]
pub enum ReadError {
    Fault(Fault),
    NoMemory,
}

impl From<NoMemory> for ReadError {
    ghost use Rattle.std.specs.Prelude.{◌≡◌};
    ghost use Rattle.patterns.specs.declared.read_error.ReadError.{ReadError};

    ghost from_gives = { λ _ e. e ≡ ReadError.NoMemory };

    fn from(_: NoMemory) -> Self {
        ReadError::NoMemory
    }
}

impl From<Fault> for ReadError {
    ghost use Rattle.std.specs.Prelude.{◌≡◌};
    ghost use Rattle.patterns.specs.declared.read_error.ReadError.{ReadError};

    ghost from_gives = { λ fault e. e ≡ ReadError.Fault fault };

    fn from(fault: Fault) -> Self {
        ReadError::Fault(fault)
    }
}
