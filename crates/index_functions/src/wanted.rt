//! What keys want of the outside.

use mail_base::Line;
use prompts::Asking;

/// What keys want of the outside.
#[derive(Drop)]
pub enum Wanted {
    Unasked,
    /// The run is to end.
    ToEnd,
    /// A text was answered to a prompt.
    ToAnswer(Asking, Line),
    /// A key was answered to a prompt of one key.
    ToChoose(Asking, char),
    /// The cursor's message is to be shown.
    ToDisplay,
    /// Its parts are to be listed.
    ToList,
    /// Changes are to be written, and messages that are marked deleted go where `purge`; the run is
    /// to end behind that where `quits`.
    ToSync { purge: bool, quits: bool },
}
