//! What is done to a message.

ghost use Rattle.std.specs.Prelude.{◌≡◌, false};
ghost use Rattle.mail_base.specs.Flags.{overlap};
ghost use Rattle.index_items.specs.Acts as spec;
ghost use Rattle.index_items.specs.Pending.{no_flags};

use crate::alteration::{Alteration, altered_item};
use crate::item::Item;
use mail_base::{Delta, Flags};

/// A mark that is set or cleared (Mutt's manual, "set-flag").
#[derive(Clone, Copy, Debug, PartialEq, Eq)]
pub enum Mark {
    Deleted,
    /// Neither seen nor old; to clear it is to mark the message as seen.
    New,
    Old,
    Replied,
    Tagged,
    Flagged,
}

/// What is done to a message.
#[derive(Clone, Copy, Debug, PartialEq, Eq)]
pub enum Act {
    Set(Mark),
    Clear(Mark),
    TurnFlagged,
    /// What was seen or old is new again, and what is new is seen.
    TurnNew,
    TurnTag,
    /// What is neither seen nor old becomes old.
    Age,
}

fn none() -> Flags
    ensures { result ≡ no_flags }
{
    Flags {
        seen: false,
        aged: false,
        replied: false,
        flagged: false,
        passed: false,
        draft: false,
        trashed: false,
    }
}

fn flags(added: Flags, cleared: Flags) -> Alteration
    requires { overlap added cleared ≡ false }
    ensures { spec.plain_alteration result ≡ spec.flags added cleared }
{
    Alteration::Pending(Delta { added, cleared }, None)
}

fn deletion(deleted: bool) -> Alteration
    ensures { spec.plain_alteration result ≡ spec.deletion deleted }
{
    let delta = Delta {
        added: none(),
        cleared: none(),
    };
    Alteration::Pending(delta, Some(deleted))
}

fn seen() -> Flags
    ensures { result ≡ spec.seen_flag }
{
    Flags {
        seen: true,
        ..none()
    }
}

fn aged() -> Flags
    ensures { result ≡ spec.aged_flag }
{
    Flags {
        aged: true,
        ..none()
    }
}

fn replied() -> Flags
    ensures { result ≡ spec.replied_flag }
{
    Flags {
        replied: true,
        ..none()
    }
}

fn flagged() -> Flags
    ensures { result ≡ spec.flagged_flag }
{
    Flags {
        flagged: true,
        ..none()
    }
}

fn setting(mark: Mark) -> Alteration
    ensures { spec.plain_alteration result ≡ spec.setting mark }
{
    let seen_and_aged = Flags {
        seen: true,
        ..aged()
    };
    match mark {
        Mark::Deleted => deletion(true),
        Mark::New => flags(none(), seen_and_aged),
        Mark::Old => flags(aged(), seen()),
        Mark::Replied => flags(replied(), none()),
        Mark::Tagged => Alteration::Tag(true),
        Mark::Flagged => flags(flagged(), none()),
    }
}

fn clearing(mark: Mark, shown: Flags) -> Alteration
    ensures { spec.plain_alteration result ≡ spec.clearing mark shown }
{
    match mark {
        Mark::Deleted => deletion(false),
        Mark::New => flags(seen(), none()),
        Mark::Old if shown.seen => flags(none(), none()),
        Mark::Old => flags(none(), aged()),
        Mark::Replied => flags(none(), replied()),
        Mark::Tagged => Alteration::Tag(false),
        Mark::Flagged => flags(none(), flagged()),
    }
}

// What is done to a message, by its flags as they are shown and its tag.
fn alteration(act: Act, shown: Flags, tagged: bool) -> Alteration
    ensures { spec.plain_alteration result ≡ spec.alteration act shown tagged }
{
    match act {
        Act::Set(mark) => setting(mark),
        Act::Clear(mark) => clearing(mark, shown),
        Act::TurnFlagged if shown.flagged => clearing(Mark::Flagged, shown),
        Act::TurnFlagged => setting(Mark::Flagged),
        Act::TurnNew if shown.seen || shown.aged => setting(Mark::New),
        Act::TurnNew => clearing(Mark::New, shown),
        Act::TurnTag => Alteration::Tag(!tagged),
        Act::Age if shown.seen || shown.aged => flags(none(), none()),
        Act::Age => flags(aged(), none()),
    }
}

impl Item {
    ghost use Rattle.std.specs.Prelude.{◌≡◌};
    ghost use Rattle.index_items.specs.Acts.{acted};
    ghost use Rattle.index_items.specs.Items.{plain_item};

    /// The message to which this is done.
    pub fn acted(self, act: Act) -> Item
        ensures { plain_item result ≡ acted act (plain_item self) }
    {
        altered_item(alteration(act, self.shown(), self.tagged), self)
    }
}
