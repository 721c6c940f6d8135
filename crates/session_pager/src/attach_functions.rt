//! What functions do in the list of parts.

ghost use Rattle.std.specs.Prelude.{◌≡◌};
ghost use Rattle.session_pager.specs.Deeds as spec;

use keymap::Function;

/// What a function does in the list of parts.
#[derive(Clone, Copy, Debug, PartialEq, Eq)]
pub enum AttachDeed {
    Down,
    Up,
    /// The part on which the cursor stands is shown.
    OpenPart,
    /// The index comes back.
    Leave,
    /// The list does not have it.
    NoDeed,
}

/// What a function does in the list of parts, a line each (Mutt's manual, "Attachment menu").
#[rattlefmt::skip]
pub fn attach_deed(function: Function) -> AttachDeed
    ensures { result ≡ spec.attach_deed function }
{
    match function {
        Function::NextEntry => AttachDeed::Down,
        Function::PreviousEntry => AttachDeed::Up,
        Function::DisplayMessage => AttachDeed::OpenPart,
        Function::Exit => AttachDeed::Leave,
        _ => AttachDeed::NoDeed,
    }
}
