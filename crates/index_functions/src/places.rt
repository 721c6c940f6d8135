//! Where messages stand among others.

ghost use Rattle.std.specs.Prelude.{◌≡◌, ◌<◌, length, IfSome};
ghost use Rattle.index_listed.specs.Places.{place_in};
ghost use Rattle.index_listed.specs.Cursor.{is_seen};
ghost use Rattle.index_functions.specs.Places as spec;

use mail_base::Id;

/// The first place of an id.
pub fn place_of(ids: &[Id], id: Id) -> Option<usize>
    ensures place { result ≡ place_in ids.now id }
    ensures within { IfSome result (λ p. p < length ids.now) }
{
    let mut left = ids;
    let mut place = 0;
    while let [first, rest @ ..] = left {
        if *first == id {
            return Some(place);
        }
        place += 1;
        left = rest;
    }
    None
}

/// Whether an id is among some.
pub fn is_in(ids: &[Id], id: Id) -> bool
    ensures { result ≡ is_seen ids.now id }
{
    place_of(ids, id).is_some()
}

/// The first message of the next page, where pages have this size.
pub fn page_behind(size: usize, place: usize, ids: &[Id]) -> Option<Id>
    requires size { 0 < size }
    requires place { place < length ids.now }
    ensures { result ≡ spec.page_behind size place ids.now }
{
    let rest = ids.get(place / size * size..)?;
    rest.get(size).copied()
}

/// The first message of the page before that of a place.
pub fn page_before(size: usize, place: usize, ids: &[Id]) -> Option<Id>
    requires { 0 < size }
    ensures { result ≡ spec.page_before size place ids.now }
{
    if place < size {
        return None;
    }
    ids.get(place / size * size - size).copied()
}
