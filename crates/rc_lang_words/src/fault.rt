//! Why a command of muttrc is refused.

ghost use Rattle.rc_lang_words.specs.declared.fault.RcFault.TheVariants as fault;
ghost use Rattle.std.specs.Prelude.{◌≡◌, IfOk};
ghost use Rattle.rc_lang_words.specs.Faults as spec;

use mail_base::{Bytes, NoMemory};
use std::alloc::Global;

/// What is wrong with a command.
#[derive(Clone, Copy, Debug, PartialEq, Eq)]
pub enum RcFault {
    /// A quote is not closed.
    OpenQuote,
    UnknownCommand,
    MissingWord,
    ExtraWord,
    UnknownVariable,
    /// A value that is not of the variable's type, or out of its range.
    BadValue,
    /// A value, `no`, `inv` or a toggle that the variable's type does not take.
    WrongKind,
    BadKey,
    UnknownMenu,
    UnknownFunction,
    BadExpression,
    BadPattern,
    PatternNotHere,
    BadFormat,
    TooMuchSource,
    NotRead,
    NoMemory,
}

impl RcFault {
    // What is told of the fault, before its word.
    fn cause(self) -> &'static [u8]
        ensures { result.now ≡ spec.cause_of self }
    {
        match self {
            RcFault::OpenQuote => b"unclosed quote",
            RcFault::UnknownCommand => b"unknown command: ",
            RcFault::MissingWord => b"missing word",
            RcFault::ExtraWord => b"extra word: ",
            RcFault::UnknownVariable => b"unknown variable: ",
            RcFault::BadValue => b"bad value: ",
            RcFault::WrongKind => b"wrong kind: ",
            RcFault::BadKey => b"bad key: ",
            RcFault::UnknownMenu => b"unknown menu: ",
            RcFault::UnknownFunction => b"unknown function: ",
            RcFault::BadExpression => b"bad expression: ",
            RcFault::BadPattern => b"bad pattern: ",
            RcFault::PatternNotHere => b"pattern not allowed here: ",
            RcFault::BadFormat => b"bad format: ",
            RcFault::TooMuchSource => b"too many nested files",
            RcFault::NotRead => b"cannot read",
            RcFault::NoMemory => b"no memory",
        }
    }
}

impl From<NoMemory> for RcFault {
    ghost from_gives = { λ _ e. e ≡ fault.NoMemory };

    fn from(_: NoMemory) -> RcFault {
        RcFault::NoMemory
    }
}

/// A fault with the word that is faulty; the word is empty where the fault's text names none.
#[derive(Drop)]
pub struct RcError {
    pub fault: RcFault,
    pub word: Bytes,
}

impl RcError {
    /// The fault with its word, or want of memory for the word.
    pub fn new(alloc: Global, fault: RcFault, word: &[u8]) -> RcError
        ensures { spec.IsError fault word.now result }
    {
        if let RcFault::NoMemory = fault {
            return RcError::no_memory(alloc);
        }
        match Bytes::copy_of(alloc, word) {
            Ok(word) => RcError { fault, word },
            Err(NoMemory) => RcError::no_memory(alloc),
        }
    }

    /// Want of memory.
    pub fn no_memory(alloc: Global) -> RcError
        ensures { spec.plain_error result ≡ spec.no_memory }
    {
        RcError {
            fault: RcFault::NoMemory,
            word: Bytes::new(alloc),
        }
    }

    /// What is told of the fault, without file, line and line end.
    pub fn text(&self, alloc: Global) -> Result<Bytes, NoMemory>
        ensures { IfOk result (λ t. t.items ≡ spec.fault_text (spec.plain_error self.now)) }
    {
        let mut text = Bytes::copy_of(alloc, self.fault.cause())?;
        text.append(self.word.as_slice())?;
        Ok(text)
    }
}
