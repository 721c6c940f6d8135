//! What the user changed of a message.

ghost use Rattle.std.specs.Prelude.{◌≡◌, false};
ghost use Rattle.mail_base.specs.Flags.{overlap};
ghost use Rattle.index_items.specs.Pending as spec;

use mail_base::{Delta, Flags};

/// What the user changed of a message and the folder does not hold yet.
#[derive(Clone, Copy)]
pub struct Pending {
    /// The flags to add and to clear.
    pub delta: Delta,
    /// It is marked deleted.
    pub deleted: bool,
}

// The flags of either set.
fn joined(a: Flags, b: Flags) -> Flags
    ensures { result ≡ spec.joined a b }
{
    Flags {
        seen: a.seen || b.seen,
        aged: a.aged || b.aged,
        replied: a.replied || b.replied,
        flagged: a.flagged || b.flagged,
        passed: a.passed || b.passed,
        draft: a.draft || b.draft,
        trashed: a.trashed || b.trashed,
    }
}

// The flags of both sets.
fn shared(a: Flags, b: Flags) -> Flags
    ensures { result ≡ spec.shared a b }
{
    Flags {
        seen: a.seen && b.seen,
        aged: a.aged && b.aged,
        replied: a.replied && b.replied,
        flagged: a.flagged && b.flagged,
        passed: a.passed && b.passed,
        draft: a.draft && b.draft,
        trashed: a.trashed && b.trashed,
    }
}

// The flags of the first set alone.
fn without(a: Flags, b: Flags) -> Flags
    ensures { result ≡ spec.without a b }
{
    Flags {
        seen: a.seen && !b.seen,
        aged: a.aged && !b.aged,
        replied: a.replied && !b.replied,
        flagged: a.flagged && !b.flagged,
        passed: a.passed && !b.passed,
        draft: a.draft && !b.draft,
        trashed: a.trashed && !b.trashed,
    }
}

fn delta_of(added: Flags, cleared: Flags) -> Delta
    requires { overlap added cleared ≡ false }
    ensures added { result.added ≡ added }
    ensures cleared { result.cleared ≡ cleared }
{
    match Delta::new(added, cleared) {
        Some(delta) => delta,
        None => unreachable!(),
    }
}

impl Pending {
    ghost use Rattle.std.specs.Prelude.{◌≡◌};
    ghost use Rattle.index_items.specs.Pending.{changed as changed_by, left_by, nothing};
    ghost use Rattle.index_items.specs.Pending.{plain_pending};

    /// Nothing is changed.
    pub fn none() -> Pending
        ensures { plain_pending result ≡ nothing }
    {
        Pending {
            delta: delta_of(Flags::NONE, Flags::NONE),
            deleted: false,
        }
    }

    /// What is changed with a further change, which wins over the earlier ones.
    pub fn changed(self, delta: Delta, deleted: Option<bool>) -> Pending
        ensures { plain_pending result
            ≡ changed_by delta.added delta.cleared deleted (plain_pending self) }
    {
        let added = joined(without(self.delta.added, delta.cleared), delta.added);
        let cleared = joined(without(self.delta.cleared, delta.added), delta.cleared);
        Pending {
            delta: delta_of(added, cleared),
            deleted: deleted.unwrap_or(self.deleted),
        }
    }

    /// What is left to be changed once the folder holds these flags.
    pub fn left(self, held: Flags) -> Pending
        ensures { plain_pending result ≡ left_by held (plain_pending self) }
    {
        let added = without(self.delta.added, held);
        let cleared = shared(self.delta.cleared, held);
        Pending {
            delta: delta_of(added, cleared),
            deleted: self.deleted,
        }
    }
}
