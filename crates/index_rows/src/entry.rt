//! What a row of the index shows.

use crate::shut::Shut;
use crate::ties::Ties;
use headers::{Header, SentDate};
use mail_base::{Flags, Line};

/// A message as a row of the index shows it, and the settings that count.
#[derive(Clone, Copy)]
pub struct Entry<'a> {
    /// Its place in the order before the limit, from 1.
    pub number: u64,
    /// How many messages the listing has.
    pub count: u64,
    /// Its flags as they are shown.
    pub flags: Flags,
    pub deleted: bool,
    pub tagged: bool,
    /// The shut thread whose other messages it hides.
    pub shut: Option<Shut>,
    pub ties: &'a Ties,
    /// Its header, whose list of fields is not looked at.
    pub header: &'a Header,
    /// Its text.
    pub raw: &'a [u8],
    /// The bytes of its text.
    pub size: u64,
    pub score: u64,
    /// What stands before its subject.
    pub tree: &'a Line,
    /// When it was received: seconds since 1970 in UTC.
    pub received: i64,
    /// The characters that tell what a message is to its reader.
    pub to_chars: &'a [u8],
    /// The reader's offset from UTC in seconds.
    pub offset: i32,
}
