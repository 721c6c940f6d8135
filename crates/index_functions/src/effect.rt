//! Basic effects of functions.

use crate::motion::Motion;
use crate::notice::Notice;
use index_items::Act;
use prompts::Asking;

/// Which messages an effect means.
#[derive(Clone, Copy, Debug, PartialEq, Eq)]
pub enum Scope {
    /// The cursor's, or after a tag-prefix the tagged ones that are seen.
    Meant,
    Cursor,
    /// All of the cursor's thread.
    Thread,
}

/// A basic effect.
#[derive(Clone, Copy, Debug, PartialEq, Eq)]
pub enum Effect {
    Move(Motion),
    Do(Act, Scope),
    /// Tags all messages of the cursor's thread, or takes their tags away where its own is tagged.
    TagThread,
    /// Shuts the cursor's thread, or opens it.
    Fold,
    /// Shuts all threads, or opens all where one is shut.
    FoldAll,
    /// To the next message that is not deleted, where the variable says so and no prefix stands.
    Resolve,
    /// To the next message, without a text where there is none.
    StepOn,
    SearchAgain,
    BeginPrefix,
    DropPrefix,
    TurnWriting,
    Ask(Asking),
    Say(Notice),
    End,
    /// The cursor's message is to be shown.
    Display,
    /// The parts of the cursor's message are to be listed.
    ListParts,
    /// Changes are to be written, where there are some; may ask what becomes of deleted messages.
    Sync,
    /// The run is to end, where it may; may ask whether, and what becomes of deleted messages.
    Quit,
}
