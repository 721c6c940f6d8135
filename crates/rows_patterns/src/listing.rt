//! A listing of a few messages, in memory.

ghost use Rattle.std.specs.Prelude.{◌≡◌, ◌<◌, IfSome, Some, length, option_map, slice_get};
ghost use Rattle.headers.specs.Header.{plain_header};
ghost use Rattle.rows_patterns.specs.Listing.{listed};

use headers::Header;
use mail_base::Bytes;
use patterns_match::{Row, Table};

/// A message, with the place of its parent and of its root.
pub struct Listed {
    pub row: Row,
    pub header: Header,
    pub raw: Bytes,
    pub parent: Option<usize>,
    pub root: usize,
    pub duplicate: bool,
}

impl Drop for Listed {
    fn drop(self) {
        let Listed {
            row: _,
            header: _,
            raw: _,
            parent: _,
            root: _,
            duplicate: _,
        } = self;
    }
}

/// Messages in order. A parent that is not listed counts as none, and such a root as the last
/// message.
#[derive(Drop)]
pub struct Listing {
    pub messages: Vec<Listed>,
}

impl Table for Listing {
    ghost use Rattle.rows_patterns.specs.Listing.{listed};

    ghost messages = { λ l. listed l.messages.items };

    fn len(&self) -> usize {
        self.messages.len()
    }

    fn row(&self, place: usize) -> Option<&Row> {
        match self.messages.get(place) {
            Some(message) => Some(&message.row),
            None => None,
        }
    }

    fn header(&self, place: usize) -> Option<&Header> {
        match self.messages.get(place) {
            Some(message) => Some(&message.header),
            None => None,
        }
    }

    fn raw(&self, place: usize) -> Option<&[u8]> {
        match self.messages.get(place) {
            Some(message) => Some(message.raw.as_slice()),
            None => None,
        }
    }

    fn parent(&self, place: usize) -> Option<usize> {
        match self.messages[place].parent {
            Some(parent) if parent < self.messages.len() => Some(parent),
            _ => None,
        }
    }

    fn root(&self, place: usize) -> usize {
        self.messages[place].root.min(self.messages.len() - 1)
    }

    fn duplicate(&self, place: usize) -> bool {
        self.messages[place].duplicate
    }
}
