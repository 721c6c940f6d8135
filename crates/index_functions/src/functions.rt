//! What functions of the index do, by their basic effects (Mutt's manual, "Functions").

ghost use Rattle.std.specs.Prelude.{◌≡◌};
ghost use Rattle.index_functions.specs.Functions as spec;

use crate::effect::{Effect, Scope};
use crate::motion::Motion;
use crate::notice::Notice;
use index_items::{Act, Mark};
use keymap::Function;
use prompts::Asking;

const DELETE: Act = Act::Set(Mark::Deleted);

const UNDELETE: Act = Act::Clear(Mark::Deleted);

/// The basic effects of a function, a line each; the others do not act yet.
#[rattlefmt::skip]
pub fn effects_of(function: Function) -> &'static [Effect]
    ensures { result.now ≡ spec.effects_of function }
{
    match function {
        Function::NextUndeleted => &[Effect::Move(Motion::NextUndeleted), Effect::DropPrefix],
        Function::PreviousUndeleted =>
            &[Effect::Move(Motion::PreviousUndeleted), Effect::DropPrefix],
        Function::NextEntry => &[Effect::Move(Motion::Next), Effect::DropPrefix],
        Function::PreviousEntry => &[Effect::Move(Motion::Previous), Effect::DropPrefix],
        Function::FirstEntry => &[Effect::Move(Motion::First), Effect::DropPrefix],
        Function::LastEntry => &[Effect::Move(Motion::Last), Effect::DropPrefix],
        Function::NextPage => &[Effect::Move(Motion::NextPage), Effect::DropPrefix],
        Function::PreviousPage => &[Effect::Move(Motion::PreviousPage), Effect::DropPrefix],
        Function::NextNewThenUnread => &[Effect::Move(Motion::NextUnread), Effect::DropPrefix],
        Function::NextThread => &[Effect::Move(Motion::NextThread), Effect::DropPrefix],
        Function::PreviousThread => &[Effect::Move(Motion::PreviousThread), Effect::DropPrefix],
        Function::ParentMessage => &[Effect::Move(Motion::ToParent), Effect::DropPrefix],
        Function::DeleteMessage =>
            &[Effect::Do(DELETE, Scope::Meant), Effect::Resolve, Effect::DropPrefix],
        Function::UndeleteMessage =>
            &[Effect::Do(UNDELETE, Scope::Meant), Effect::StepOn, Effect::DropPrefix],
        Function::DeleteThread =>
            &[Effect::Do(DELETE, Scope::Thread), Effect::DropPrefix],
        Function::UndeleteThread =>
            &[Effect::Do(UNDELETE, Scope::Thread), Effect::DropPrefix],
        Function::DeletePattern => &[Effect::DropPrefix, Effect::Ask(Asking::Delete)],
        Function::UndeletePattern => &[Effect::DropPrefix, Effect::Ask(Asking::Undelete)],
        Function::TagEntry =>
            &[Effect::Do(Act::TurnTag, Scope::Cursor), Effect::StepOn, Effect::DropPrefix],
        Function::TagPattern => &[Effect::DropPrefix, Effect::Ask(Asking::Tag)],
        Function::UntagPattern => &[Effect::DropPrefix, Effect::Ask(Asking::Untag)],
        Function::TagThread => &[Effect::TagThread, Effect::DropPrefix],
        Function::TagPrefix => &[Effect::BeginPrefix],
        Function::Limit => &[Effect::DropPrefix, Effect::Ask(Asking::Limit)],
        Function::SortMailbox => &[Effect::DropPrefix, Effect::Ask(Asking::Sort)],
        Function::SortReverse => &[Effect::DropPrefix, Effect::Ask(Asking::ReverseSort)],
        Function::Search => &[Effect::DropPrefix, Effect::Ask(Asking::Search)],
        Function::SearchNext => &[Effect::SearchAgain, Effect::DropPrefix],
        Function::FlagMessage =>
            &[Effect::Do(Act::TurnFlagged, Scope::Meant), Effect::Resolve, Effect::DropPrefix],
        Function::ToggleNew =>
            &[Effect::Do(Act::TurnNew, Scope::Meant), Effect::Resolve, Effect::DropPrefix],
        Function::SetFlag => &[Effect::Ask(Asking::SetFlag)],
        Function::ClearFlag => &[Effect::Ask(Asking::ClearFlag)],
        Function::CollapseThread => &[Effect::Fold, Effect::DropPrefix],
        Function::CollapseAll => &[Effect::FoldAll, Effect::DropPrefix],
        Function::DisplayMessage => &[Effect::DropPrefix, Effect::Display],
        Function::ViewAttachments => &[Effect::DropPrefix, Effect::ListParts],
        Function::EnterCommand => &[Effect::DropPrefix, Effect::Ask(Asking::Command)],
        Function::ToggleWrite => &[Effect::TurnWriting, Effect::DropPrefix],
        Function::SyncMailbox => &[Effect::DropPrefix, Effect::Sync],
        Function::Quit => &[Effect::DropPrefix, Effect::Quit],
        Function::Exit => &[Effect::End],
        Function::DisplayToggleWeed | Function::Noop => &[Effect::DropPrefix],
        _ => &[Effect::Say(Notice::NotBound)],
    }
}

/// Whether the function speaks of the message on which the cursor stands, or moves it.
pub fn needs_message(function: Function) -> bool
    ensures { result ≡ spec.needs_message function }
{
    matches!(
        function,
        Function::NextUndeleted
            | Function::PreviousUndeleted
            | Function::NextEntry
            | Function::PreviousEntry
            | Function::FirstEntry
            | Function::LastEntry
            | Function::NextPage
            | Function::PreviousPage
            | Function::NextNewThenUnread
            | Function::NextThread
            | Function::PreviousThread
            | Function::ParentMessage
            | Function::DeleteMessage
            | Function::UndeleteMessage
            | Function::DeleteThread
            | Function::UndeleteThread
            | Function::TagEntry
            | Function::TagThread
            | Function::Search
            | Function::SearchNext
            | Function::FlagMessage
            | Function::ToggleNew
            | Function::SetFlag
            | Function::ClearFlag
            | Function::CollapseThread
            | Function::DisplayMessage
            | Function::ViewAttachments
    )
}

/// Whether the function changes what a folder holds.
pub fn writes(function: Function) -> bool
    ensures { result ≡ spec.writes function }
{
    matches!(
        function,
        Function::DeleteMessage
            | Function::UndeleteMessage
            | Function::DeleteThread
            | Function::UndeleteThread
            | Function::DeletePattern
            | Function::UndeletePattern
            | Function::FlagMessage
            | Function::ToggleNew
            | Function::SetFlag
            | Function::ClearFlag
            | Function::SyncMailbox
    )
}
