//! What decides how a listed message is seen.

ghost use Rattle.std.specs.Prelude.{◌≡◌};
ghost use Rattle.index_listed.specs.Marks as spec;

/// What decides whether a listed message is seen, and what its thread shows where it is shut.
#[derive(Clone, Copy)]
pub struct Mark {
    /// It satisfies the limit, or there is none.
    pub satisfies: bool,
    /// Its thread is shut.
    pub is_shut: bool,
    /// It is unread and not old.
    pub is_new: bool,
    /// It is unread and old.
    pub is_old: bool,
}

/// The mark at a place of the listing.
pub fn mark_at(marks: &[Mark], place: usize) -> Mark
    ensures { result ≡ spec.mark_at marks.now place }
{
    match marks.get(place) {
        Some(mark) => *mark,
        None => Mark {
            satisfies: false,
            is_shut: false,
            is_new: false,
            is_old: false,
        },
    }
}
