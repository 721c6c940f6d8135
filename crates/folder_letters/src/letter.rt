//! Messages as they were first read.

ghost use Rattle.std.specs.Prelude.{◌≤◌, length};
ghost use Rattle.folder_letters.specs.Moments.{IsClockMoment};

use mail_base::{Bytes, Series};

/// A message as it was read first. An `Id` is a place in the archive of all letters.
#[derive(Drop)]
pub struct Letter {
    /// Its place among the folder's messages; for an mbox its `Id`.
    pub order: u64,
    /// What tells it from others with the same order; empty for an mbox.
    pub key: Bytes,
    /// Its bytes but for its status.
    pub core: Bytes,
    /// Where its text begins in the core: behind the postmark.
    pub text_at: usize,
    /// When it was received, in seconds since 1970 UTC.
    pub received: i64,
    pub ghost inside: { text_at ≤ length core.items },
    pub ghost in_range: { IsClockMoment received },
}

/// All letters that were met, in the order of their ids.
pub type Archive = Series<Letter>;
