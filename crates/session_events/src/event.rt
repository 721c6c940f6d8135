//! What happened in a run.

use disk_model::DiskError;
use folder_changes::SyncError;
use folder_core::{Archive, Found, Listing, ScanError};
use folder_letters::Changes;
use keymap::Key;
use mail_base::{Bytes, Kind, Lines, Series};
use people::Verdicts;

/// The device's mark and faults before and after an event.
#[derive(Clone, Copy, Debug, PartialEq, Eq)]
pub struct Marks {
    pub mark_before: u64,
    pub mark_after: u64,
    pub faults_before: u64,
    pub faults_after: u64,
}

/// Why a folder was not opened.
#[derive(Clone, Copy, Debug, PartialEq, Eq)]
pub enum OpenFault {
    /// Something stands where a new folder was to be made.
    Taken,
    /// No driver reads folders of this kind.
    NoDriver(Kind),
    /// The folder was not read.
    Folder(ScanError),
}

/// What happened in a run. Moments are in seconds since 1970 UTC.
#[derive(Drop)]
pub enum Event {
    Sourced {
        path: Bytes,
        text: Bytes,
        marks: Marks,
    },
    NotSourced {
        path: Bytes,
        why: DiskError,
        marks: Marks,
    },
    Pressed {
        key: Key,
        moment: i64,
    },
    Opened {
        path: Bytes,
        kind: Kind,
        moment: i64,
        came: Listing,
        marks: Marks,
    },
    NotOpened {
        path: Bytes,
        why: OpenFault,
        marks: Marks,
    },
    Checked {
        moment: i64,
        found: Found,
        marks: Marks,
    },
    NotChecked {
        moment: i64,
        why: ScanError,
        marks: Marks,
    },
    Synced {
        changes: Changes,
        marks: Marks,
    },
    NotSynced {
        changes: Changes,
        why: SyncError,
        marks: Marks,
    },
}

impl Event {
    ghost use Rattle.std.specs.Prelude.{◌≡◌};
    ghost use Rattle.session_events.specs.Events.{KeyPressed, plain_event};

    /// A key was pressed.
    pub fn pressed(key: Key, moment: i64) -> Event
        ensures { plain_event result ≡ KeyPressed key moment }
    {
        Event::Pressed { key, moment }
    }
}

/// Events in their order.
pub type Events = Series<Event>;

/// All letters that were met, all that happened, the lines that commands gave for the fault stream,
/// and the verdicts on expressions.
#[derive(Drop)]
pub struct Trace {
    pub archive: Archive,
    pub events: Events,
    pub notes: Lines,
    pub verdicts: Verdicts,
}
