//! Pagers of messages and of their parts.

ghost use Rattle.std.specs.Prelude.{◌≡◌, ◌≤◌, ◌↔◌, IfOk, IsNone, length};
ghost use Rattle.folder_letters.specs.Letters.{plain_letter};
ghost use Rattle.message_text.specs.Message.{listed_parts};
ghost use Rattle.message_text.specs.Weeding.{plain_weeding};
ghost use Rattle.pager.specs.Opening as spec;

use crate::Pager;
use folder_letters::Letter;
use mail_base::NoMemory;
use message_text::{MessageText, Weeding, message_text, part_text};
use std::alloc::Global;

// The text of a letter.
fn text_of(letter: &Letter) -> &[u8]
    ensures { result.now ≡ spec.text_of (plain_letter letter.now) }
{
    let (_, text) = letter.core.as_slice().split_at(letter.text_at);
    text
}

impl Pager {
    /// A pager of a message: the fields that weeding leaves, and its body.
    pub fn open_message(
        alloc: Global,
        letter: &Letter,
        weed: &Weeding,
        cols: u16,
    ) -> Result<Pager, NoMemory>
        requires { 2 ≤ cols }
        ensures { IfOk result (λ pager. pager
            ≡ spec.opened_message cols (plain_weeding weed.now) (plain_letter letter.now)) }
    {
        let raw = text_of(letter);
        let MessageText { lines, rows } = message_text(alloc, raw, weed)?;
        Ok(Pager::over(alloc, &lines, rows, usize::from(cols))?)
    }

    /// A pager of one part alone, numbered from 0 in the order of reading. There is none exactly
    /// where there is no such part.
    pub fn open_part(
        alloc: Global,
        letter: &Letter,
        number: usize,
        cols: u16,
    ) -> Result<Option<Pager>, NoMemory>
        requires { 2 ≤ cols }
        ensures value { IfOk result (λ pager. pager
            ≡ spec.opened_part cols number (plain_letter letter.now)) }
        ensures none { IfOk result (λ pager. IsNone pager
            ↔ (length (listed_parts (spec.text_of (plain_letter letter.now))) ≤ number)) }
    {
        let raw = text_of(letter);
        match part_text(alloc, raw, number)? {
            Some(MessageText { lines, rows }) => {
                Ok(Some(Pager::over(alloc, &lines, rows, usize::from(cols))?))
            }
            None => Ok(None),
        }
    }
}
