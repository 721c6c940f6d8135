//! The listed messages as patterns see them.

ghost use Rattle.std.specs.Prelude.{◌≡◌, length, map};
ghost use Rattle.index_listed.specs.Listed.{plain_listed};
ghost use Rattle.index_listed.specs.Threading.{AllWithin};
ghost use Rattle.index_view.specs.Tables as spec;

use crate::messages::Messages;
use headers::Header;
use index_listed::{Links, Listed};
use patterns_match::{Row, Table};

impl Table for Messages<'_> {
    ghost use Rattle.index_view.specs.Tables.{seen_of};

    ghost messages = { λ m. seen_of m };

    fn len(&self) -> usize {
        self.listed.len()
    }

    fn row(&self, place: usize) -> Option<&Row> {
        self.rows.get(place)
    }

    fn header(&self, place: usize) -> Option<&Header> {
        match self.listed.get(place) {
            Some(listed) => Some(listed.header),
            None => None,
        }
    }

    fn raw(&self, place: usize) -> Option<&[u8]> {
        match self.listed.get(place) {
            Some(listed) => Some(listed.text()),
            None => None,
        }
    }

    fn parent(&self, place: usize) -> Option<usize> {
        self.links[place].parent
    }

    fn root(&self, place: usize) -> usize {
        self.links[place].root
    }

    fn duplicate(&self, place: usize) -> bool {
        self.links[place].duplicate
    }
}

/// The messages with these rows and links.
pub fn messages_of<'a>(
    listed: &'a [Listed<'a>],
    rows: &'a [Row],
    links: &'a [Links],
) -> Messages<'a>
    requires rows { length rows.now ≡ length listed.now }
    requires links { length links.now ≡ length listed.now }
    requires within { AllWithin (length listed.now) links.now }
    ensures { spec.seen_of result
        ≡ spec.table (map plain_listed listed.now) rows.now links.now }
{
    Messages {
        listed,
        rows,
        links,
    }
}
