//! How much of a folder is listed.

/// The most messages that are listed. A folder of more is refused (`TooMany`).
pub const MOST_MESSAGES: usize = 65_535;

/// The most bytes of a folder: of the file of an mbox, and of the messages of a directory
/// together. A folder of more is refused (`TooLarge`).
pub const MOST_BYTES: u64 = 536_870_912;

/// The most letters of an archive. A folder whose letters would not fit is refused (`ArchiveFull`).
pub const MOST_LETTERS: usize = 4_294_967_295;
