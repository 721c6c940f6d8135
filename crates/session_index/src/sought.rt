//! What is sought of messages.

ghost use Rattle.std.specs.Prelude.{◌≡◌, find, reverse};
ghost use Rattle.session_index.specs.Shown as spec;

use index_view::View;
use mail_base::Id;
use patterns_match::Row;

/// How a message is that is sought.
#[derive(Clone, Copy, Debug, PartialEq, Eq)]
pub enum Sought {
    Undeleted,
    Deleted,
    New,
    /// Old and unread.
    Old,
    Unread,
    Flagged,
    Tagged,
    /// In a thread that is shut.
    Collapsed,
}

fn is_so(sought: Sought, row: Row) -> bool
    ensures { result ≡ spec.is_so sought row }
{
    let flags = row.flags;
    match sought {
        Sought::Undeleted => !row.deleted,
        Sought::Deleted => row.deleted,
        Sought::New => flags.is_new(),
        Sought::Old => flags.is_old(),
        Sought::Unread => !flags.seen,
        Sought::Flagged => flags.flagged,
        Sought::Tagged => row.tagged,
        Sought::Collapsed => row.collapsed,
    }
}

/// Whether a message is as it is sought.
pub fn shows(view: &View, sought: Sought, id: Id) -> bool
    ensures { result ≡ spec.shows sought view.now.answers id }
{
    match view.row(id) {
        Some(row) => is_so(sought, row),
        None => false,
    }
}

/// The first of some messages that is as it is sought.
pub fn first_shown(view: &View, sought: Sought, ids: &[Id]) -> Option<Id>
    ensures { result ≡ find (spec.shows sought view.now.answers) ids.now }
{
    let mut left = ids;
    while let [first, rest @ ..] = left {
        if shows(view, sought, *first) {
            return Some(*first);
        }
        left = rest;
    }
    None
}

/// The last of some messages that is as it is sought.
pub fn last_shown(view: &View, sought: Sought, ids: &[Id]) -> Option<Id>
    ensures { result ≡ find (spec.shows sought view.now.answers) (reverse ids.now) }
{
    let mut left = ids;
    while let Some((last, rest)) = left.split_last() {
        if shows(view, sought, *last) {
            return Some(*last);
        }
        left = rest;
    }
    None
}
