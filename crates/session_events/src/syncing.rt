//! What a sync of the open folder answers.

ghost use Rattle.std.specs.Prelude.{◌≡◌};
ghost use Rattle.index_items.specs.Changes.{plain_changes};
ghost use Rattle.session_events.specs.Events.{plain_event};
ghost use Rattle.session_events.specs.Syncing as spec;

use crate::event::{Event, Marks};
use folder_changes::SyncError;
use folder_letters::{Changed1, Changes, Listed};
use mail_base::Id;

/// What a sync of the open folder answered, and where the device stood before and after it.
#[derive(Drop)]
pub struct Tried {
    pub answer: Result<(), SyncError>,
    pub marks: Marks,
}

impl Tried {
    /// Its event, where these were the changes.
    pub fn event(self, changes: Changes) -> Event
        ensures { plain_event result
            ≡ spec.sync_event (plain_changes changes.items) self.answer self.marks }
    {
        let marks = self.marks;
        match self.answer {
            Ok(()) => Event::Synced { changes, marks },
            Err(why) => Event::NotSynced {
                changes,
                why,
                marks,
            },
        }
    }
}

// Changes without the first one, where that is of this message.
fn without_first(changes: &[Changed1], id: Id) -> &[Changed1]
    ensures { plain_changes result.now ≡ spec.without_first id.0 (plain_changes changes.now) }
{
    match changes {
        [first, rest @ ..] if first.id == id => rest,
        _ => changes,
    }
}

// Whether each change is of a listed message, in the order of the listing.
pub(crate) fn are_in_order(listing: &[Listed], changes: &[Changed1]) -> bool
    ensures { result ≡ spec.are_in_order listing.now (plain_changes changes.now) }
{
    let mut listed = listing;
    let mut left = changes;
    while let [first, rest @ ..] = listed {
        left = without_first(left, first.id);
        listed = rest;
    }
    left.is_empty()
}
