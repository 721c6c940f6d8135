//! How a run ends.

ghost use Rattle.std.specs.Prelude.{◌≡◌};

use mail_base::Bytes;
use session_events::OpenFault;

/// How a run ended.
#[derive(Drop)]
pub enum Status {
    /// A key ended it, or the keys were read to their end.
    Done,
    /// The words are no command line; this is the first faulty one.
    Usage(Bytes),
    /// The folder was not opened.
    NotOpened(OpenFault),
    /// The disk failed while the folder was opened.
    DiskFault,
    /// A read of the keys failed.
    KeysFault,
    /// A write of a screen or of a note failed.
    OutFault,
    /// Memory ran out.
    NoMemory,
    /// The folder is empty, and an empty one is not shown.
    Empty,
    /// A further key was needed when 16,777,216 had been taken.
    TooManyKeys,
}

impl Status {
    ghost use Rattle.mutt_run.specs.Notes.{exit_status};

    /// The exit status of the program.
    pub fn number(&self) -> u8
        ensures { result ≡ exit_status self.now }
    {
        match self {
            Status::Done => 0,
            Status::Usage(_) => 1,
            Status::NotOpened(_) => 2,
            Status::DiskFault => 3,
            Status::KeysFault => 4,
            Status::OutFault => 5,
            Status::NoMemory => 6,
            Status::Empty => 7,
            Status::TooManyKeys => 8,
        }
    }
}
