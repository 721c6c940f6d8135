//! The listed messages with their letters and headers.

ghost use Rattle.std.specs.Prelude.{◌≡◌, ◌<◌, length, map, IfOk};
ghost use Rattle.folder_letters.specs.Letters.{plain_letter};
ghost use Rattle.headers.specs.Header.{plain_header};
ghost use Rattle.index_listed.specs.Heads.{AreHeads, AreWithin};
ghost use Rattle.index_listed.specs.Listed as spec;
ghost use Rattle.index_listed.specs.Places.{numbers};

use folder_letters::Letter;
use headers::Header;
use mail_base::{Id, NoMemory};
use std::alloc::Global;

/// A listed message, with its letter and the header of that.
#[derive(Clone, Copy)]
pub struct Listed<'a> {
    pub id: Id,
    pub letter: &'a Letter,
    pub header: &'a Header,
}

/// The text of a letter.
pub fn text_of(letter: &Letter) -> &[u8]
    ensures { result.now ≡ spec.text_of (plain_letter letter.now) }
{
    let (_, text) = letter.core.as_slice().split_at(letter.text_at);
    text
}

impl<'a> Listed<'a> {
    ghost use Rattle.std.specs.Prelude.{◌≡◌, length};
    ghost use Rattle.index_listed.specs.Listed.{plain_listed, text_of};

    /// The bytes of its text.
    pub fn text(&self) -> &'a [u8]
        ensures { result.now ≡ text_of (plain_listed self.now).mail }
    {
        text_of(self.letter)
    }
}

// A message with the letter of its id.
fn listed_with<'a>(letters: &'a [Letter], heads: &'a [Header], id: Id) -> Listed<'a>
    requires letter { id.0 < length letters.now }
    requires head { id.0 < length heads.now }
    requires heads { AreHeads (map plain_header heads.now) (map plain_letter letters.now) }
    ensures { spec.plain_listed result ≡ spec.listed_with (map plain_letter letters.now) id }
{
    let number = id.0 as usize;
    Listed {
        id,
        letter: &letters[number],
        header: &heads[number],
    }
}

/// The messages with the letters of their ids.
pub fn all_listed<'a>(
    alloc: Global,
    letters: &'a [Letter],
    heads: &'a [Header],
    ids: &[Id],
) -> Result<Vec<Listed<'a>>, NoMemory>
    requires heads { AreHeads (map plain_header heads.now) (map plain_letter letters.now) }
    requires within { AreWithin (length heads.now) (numbers ids.now) }
    ensures { IfOk result (λ all. map spec.plain_listed all.items
        ≡ spec.all_listed (map plain_letter letters.now) ids.now) }
{
    let mut all = Vec::with_capacity(alloc, ids.len())?;
    let mut left = ids;
    while let [first, rest @ ..] = left {
        all.push(listed_with(letters, heads, *first))?;
        left = rest;
    }
    Ok(all)
}
