//! Why a text is no pattern.

use crate::fault::Fault;
use crate::read_error::ReadError;
use mail_base::NoMemory;
use people::ExprError;
use thiserror::Error;

/// Why a text is no pattern. Its form counts before its expressions.
#[derive(Clone, Copy, Debug, PartialEq, Eq, Error)]
pub enum PatternError {
    /// A pattern, a group, an operand or an expression is missing.
    #[error("nothing to search for")]
    Empty,
    #[error("unknown letter at {0}")]
    UnknownLetter(usize),
    #[error("no partner of the sign at {0}")]
    Unbalanced(usize),
    #[error("bad range at {0}")]
    BadRange(usize),
    #[error("bad date at {0}")]
    BadDate(usize),
    /// An expression is out of form.
    #[error("bad expression")]
    RegexSyntax,
    /// An expression is too large.
    #[error("expression too large")]
    RegexSize,
    /// More than 64 parentheses are open.
    #[error("nesting too deep")]
    TooDeep,
    /// Memory ran out.
    #[error("no memory")]
    NoMemory,
}

impl From<NoMemory> for PatternError {
    ghost use Rattle.std.specs.Prelude.{◌≡◌};
    ghost use Rattle.patterns.specs.declared.pattern_error.PatternError.{PatternError};

    ghost from_gives = { λ _ e. e ≡ PatternError.NoMemory };

    fn from(_: NoMemory) -> Self {
        PatternError::NoMemory
    }
}

impl From<Fault> for PatternError {
    ghost use Rattle.std.specs.Prelude.{◌≡◌};
    ghost use Rattle.patterns.specs.Errors.{error_of};

    ghost from_gives = { λ fault e. e ≡ error_of fault };

    fn from(fault: Fault) -> Self {
        match fault {
            Fault::Empty => PatternError::Empty,
            Fault::UnknownLetter(place) => PatternError::UnknownLetter(place),
            Fault::Unbalanced(place) => PatternError::Unbalanced(place),
            Fault::BadRange(place) => PatternError::BadRange(place),
            Fault::BadDate(place) => PatternError::BadDate(place),
            Fault::TooDeep => PatternError::TooDeep,
        }
    }
}

impl From<ReadError> for PatternError {
    ghost use Rattle.std.specs.Prelude.{◌≡◌};
    ghost use Rattle.patterns.specs.Errors.{of_read_error};

    ghost from_gives = { λ error e. e ≡ of_read_error error };

    fn from(error: ReadError) -> Self {
        match error {
            ReadError::Fault(fault) => PatternError::from(fault),
            ReadError::NoMemory => PatternError::NoMemory,
        }
    }
}

impl From<ExprError> for PatternError {
    ghost use Rattle.std.specs.Prelude.{◌≡◌};
    ghost use Rattle.patterns.specs.Errors.{of_expr_error};

    ghost from_gives = { λ error e. e ≡ of_expr_error error };

    fn from(error: ExprError) -> Self {
        match error {
            ExprError::Syntax => PatternError::RegexSyntax,
            ExprError::Size => PatternError::RegexSize,
            ExprError::NoMemory => PatternError::NoMemory,
        }
    }
}
