//! Messages of a table.

ghost use Rattle.std.specs.Prelude.{◌≡◌, ◌<◌, IfSome, length, option_map, slice_get};
ghost use Rattle.patterns_match.specs.Entries.{plain_entry};

use crate::row::Row;
use crate::table::Table;
use headers::Header;

/// A message of a table, with all that patterns ask of it.
#[derive(Clone, Copy)]
pub struct Entry<'a> {
    pub row: &'a Row,
    pub header: &'a Header,
    pub raw: &'a [u8],
    pub parent: Option<usize>,
    pub root: usize,
    pub duplicate: bool,
}

/// The message at a place.
pub fn entry_at<T: Table>(place: usize, table: &T) -> Option<Entry<'_>>
    ensures value { option_map plain_entry result ≡ slice_get (T.messages table.now) place }
    ensures within { IfSome result
        (λ e. IfSome e.parent (λ parent. parent < length (T.messages table.now))) }
{
    if place >= table.len() {
        return None;
    }
    let row = table.row(place)?;
    let header = table.header(place)?;
    let raw = table.raw(place)?;
    Some(Entry {
        row,
        header,
        raw,
        parent: table.parent(place),
        root: table.root(place),
        duplicate: table.duplicate(place),
    })
}
