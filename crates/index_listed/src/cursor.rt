//! Where the cursor goes when what is seen has changed.

ghost use Rattle.std.specs.Prelude.{◌≡◌, find};
ghost use Rattle.index_listed.specs.Cursor as spec;
ghost use Rattle.index_listed.specs.Seen.{visible_ids};

use crate::sight::Sight;
use mail_base::Id;

/// The id that is seen at a place, or the last one.
pub fn at_or_last(visible: &[Id], place: usize) -> Option<Id>
    ensures { result ≡ spec.at_or_last visible.now place }
{
    visible
        .get(place.min(visible.len().saturating_sub(1)))
        .copied()
}

fn beside(old: &Sight, new: &Sight, id: Id) -> Option<Id>
    ensures { result ≡ spec.beside (visible_ids old.now) (visible_ids new.now) id }
{
    let place = old.visible_place(id).unwrap_or(0);
    at_or_last(new.visible().as_slice(), place)
}

/// Where the cursor goes: it stays on its message while that is seen, or else goes to the one at
/// its old place, or to the last one; where there was none it goes to the first.
pub fn moved(old: &Sight, new: &Sight, cursor: Option<Id>) -> Option<Id>
    ensures { result ≡ spec.moved (visible_ids old.now) (visible_ids new.now) cursor }
{
    match cursor {
        None => new.visible().as_slice().first().copied(),
        Some(id) if new.visible_place(id).is_some() => Some(id),
        Some(id) => beside(old, new, id),
    }
}

// The first message that is seen of the same thread.
fn seen_of_thread(new: &Sight, id: Id) -> Option<Id>
    ensures { result ≡ find (spec.same_thread new.now id) (visible_ids new.now) }
{
    let mut left = new.visible().as_slice();
    while let [first, rest @ ..] = left {
        if new.are_of_one_thread(id, *first) {
            return Some(*first);
        }
        left = rest;
    }
    None
}

/// Where the cursor goes when a thread was shut: where that hides its message, to the one of the
/// thread that is seen.
pub fn moved_by_shutting(old: &Sight, new: &Sight, cursor: Option<Id>) -> Option<Id>
    ensures { result
        ≡ spec.moved_by_shutting new.now (visible_ids old.now) (visible_ids new.now) cursor }
{
    match cursor {
        Some(id) if new.visible_place(id).is_none() => {
            seen_of_thread(new, id).or_else(|| beside(old, new, id))
        }
        _ => moved(old, new, cursor),
    }
}
