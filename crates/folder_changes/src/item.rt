//! Messages that are to be added to a folder.

ghost use Rattle.folder_letters.specs.Moments.{IsClockMoment};

use mail_base::{Bytes, Flags};

/// A message that is to be added to a folder.
#[derive(Drop)]
pub struct Item {
    pub text: Bytes,
    pub flags: Flags,
    /// The address of its sender, which is empty where none is known.
    pub sender: Bytes,
    /// When it was received, in seconds since 1970 UTC.
    pub moment: i64,
    pub ghost in_range: { IsClockMoment moment },
}
