//! What a session starts from.

use crate::event::OpenFault;
use folder_core::ScanError;
use mail_base::{Bytes, Kind, NoMemory, Words};

/// What the words of a command line say.
#[derive(Drop)]
pub struct Setup {
    pub path: Option<Bytes>,
    pub rc: Option<Bytes>,
    pub commands: Words,
    pub kind: Option<Kind>,
    pub owner: Bytes,
    pub read_only: bool,
    pub rows: u16,
    pub cols: u16,
    pub offset: i32,
}

/// Whether a run goes on after a key.
#[derive(Clone, Copy, Debug, PartialEq, Eq)]
pub enum Next {
    Go,
    Quit,
}

/// Why a session did not start.
#[derive(Clone, Copy, Debug, PartialEq, Eq)]
pub enum StartError {
    /// The folder was not opened, for a cause that can be told.
    NotOpened(OpenFault),
    /// The disk failed in the opening.
    DiskFault,
    NoMemory,
}

impl StartError {
    ghost use Rattle.std.specs.Prelude.{◌≡◌};
    ghost use Rattle.session_events.specs.Opening.{start_error};

    /// How a start ends without a folder, for this cause.
    pub fn of(why: OpenFault) -> StartError
        ensures { result ≡ start_error why }
    {
        match why {
            OpenFault::Folder(ScanError::Fault) => StartError::DiskFault,
            OpenFault::Folder(ScanError::NoMemory) => StartError::NoMemory,
            why => StartError::NotOpened(why),
        }
    }
}

impl From<NoMemory> for StartError {
    ghost use Rattle.std.specs.Prelude.{◌≡◌};
    ghost use Rattle.session_events.specs.declared.setup.StartError.TheVariants.{NoMemory};

    ghost from_gives = { λ _ e. e ≡ NoMemory };

    fn from(_: NoMemory) -> Self {
        StartError::NoMemory
    }
}
