//! What can be wrong with a case file.

use mail_base::NoMemory;
use std::alloc::{AllocError, AllocFailed};
use thiserror::Error;

/// What is wrong with a case.
#[derive(Clone, Copy, Debug, PartialEq, Eq, Error)]
pub enum CaseFault {
    #[error("no such escape")]
    Escape,
    #[error("no colon behind a key")]
    NoColon,
    #[error("a line of text without a key above it")]
    NoKey,
    #[error("a case begins with the keys `case` and `source`")]
    NoName,
    #[error("an input is missing")]
    NoInput,
    #[error("an input is out of form")]
    BadInput,
    #[error("nothing is expected")]
    NothingExpected,
    #[error("no memory")]
    NoMemory,
}

/// What is wrong with a case file, and in which line. Lines are counted from 1.
#[derive(Clone, Copy, Debug, PartialEq, Eq)]
pub struct FileFault {
    pub line: usize,
    pub fault: CaseFault,
}

impl From<NoMemory> for CaseFault {
    fn from(_: NoMemory) -> Self {
        CaseFault::NoMemory
    }
}

impl From<AllocError> for CaseFault {
    fn from(_: AllocError) -> Self {
        CaseFault::NoMemory
    }
}

impl<T: Drop> From<AllocFailed<T>> for CaseFault {
    fn from(_: AllocFailed<T>) -> Self {
        CaseFault::NoMemory
    }
}
