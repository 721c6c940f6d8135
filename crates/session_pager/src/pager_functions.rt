//! What functions do in the pager.

ghost use Rattle.std.specs.Prelude.{◌≡◌};
ghost use Rattle.session_pager.specs.Deeds as spec;

use crate::turn::Turn;
use keymap::Function;

/// What a function does in the pager.
#[derive(Clone, Copy, Debug, PartialEq, Eq)]
pub enum PagerDeed {
    /// The index comes back.
    Leave,
    /// The page is turned.
    Turn(Turn),
    /// The cursor of the index moves, and the message to which it came is opened.
    Follow,
    AskSearch,
    SearchAgain,
    /// What it does in the index.
    AsInIndex,
    /// The message is deleted, and the next one that is not is opened, or the index comes back.
    DeleteOn,
    /// The pager does not have it.
    NoDeed,
}

/// What a function does in the pager, a line each (Mutt's manual, "The Pager").
#[rattlefmt::skip]
pub fn pager_deed(function: Function) -> PagerDeed
    ensures { result ≡ spec.pager_deed function }
{
    match function {
        Function::Exit => PagerDeed::Leave,
        Function::NextLine => PagerDeed::Turn(Turn::NextLine),
        Function::PreviousLine => PagerDeed::Turn(Turn::PreviousLine),
        Function::NextPage => PagerDeed::Turn(Turn::NextPage),
        Function::PreviousPage => PagerDeed::Turn(Turn::PreviousPage),
        Function::Top => PagerDeed::Turn(Turn::Top),
        Function::Bottom => PagerDeed::Turn(Turn::Bottom),
        Function::ToggleQuoted => PagerDeed::Turn(Turn::ToggleQuoted),
        Function::NextUndeleted => PagerDeed::Follow,
        Function::PreviousUndeleted => PagerDeed::Follow,
        Function::NextEntry => PagerDeed::Follow,
        Function::PreviousEntry => PagerDeed::Follow,
        Function::Search => PagerDeed::AskSearch,
        Function::SearchNext => PagerDeed::SearchAgain,
        Function::DisplayToggleWeed => PagerDeed::AsInIndex,
        Function::UndeleteMessage => PagerDeed::AsInIndex,
        Function::FlagMessage => PagerDeed::AsInIndex,
        Function::ViewAttachments => PagerDeed::AsInIndex,
        Function::EnterCommand => PagerDeed::AsInIndex,
        Function::DeleteMessage => PagerDeed::DeleteOn,
        _ => PagerDeed::NoDeed,
    }
}
