//! The letters of messages, and the pagers that are opened of them.

ghost use Rattle.std.specs.Prelude.{◌≡◌, ◌≤◌, false, map, option_and_then, option_map, IfOk};
ghost use Rattle.std.specs.Prelude.{OnSome, IfSome};
ghost use Rattle.folder_letters.specs.Letters.{plain_letter};
ghost use Rattle.message_text.specs.Weeding.{plain_weeding};
ghost use Rattle.pager.specs.Opening.{opened_message, opened_part, text_of};
ghost use Rattle.session_pager.specs.Opening as spec;

use folder_letters::{Archive, Letter};
use mail_base::{Id, NoMemory};
use message_text::Weeding;
use pager::Pager;
use std::alloc::Global;

/// The letter of an id.
pub fn letter_at(archive: &Archive, id: Id) -> Option<&Letter>
    ensures { option_map (λ l. plain_letter l.now) result
        ≡ spec.mail_at (map plain_letter archive.now.items) id }
{
    archive.get(id.0 as usize)
}

/// The text of a letter.
pub fn text_of(letter: &Letter) -> &[u8]
    ensures { result.now ≡ text_of (plain_letter letter.now) }
{
    let (_, text) = letter.core.as_slice().split_at(letter.text_at);
    text
}

/// The pager of a message.
pub fn open_message(
    alloc: Global,
    archive: &Archive,
    id: Id,
    weeding: &Weeding,
    cols: u16,
) -> Result<Option<Pager>, NoMemory>
    requires { 2 ≤ cols }
    ensures value { IfOk result (λ pager. pager
        ≡ option_map (opened_message cols (plain_weeding weeding.now))
        (spec.mail_at (map plain_letter archive.now.items) id)) }
    ensures shown { IfOk result (λ pager. IfSome pager (λ p. p.hidden ≡ false)) }
{
    match letter_at(archive, id) {
        Some(letter) => Ok(Some(Pager::open_message(alloc, letter, weeding, cols)?)),
        None => Ok(None),
    }
}

/// The pager of a part of a message; none where there is no such part.
pub fn open_part(
    alloc: Global,
    archive: &Archive,
    id: Id,
    number: usize,
    cols: u16,
) -> Result<Option<Pager>, NoMemory>
    requires { 2 ≤ cols }
    ensures value { IfOk result (λ pager. pager ≡ option_and_then (opened_part cols number)
        (spec.mail_at (map plain_letter archive.now.items) id)) }
    ensures shown { IfOk result (λ pager. IfSome pager (λ p. p.hidden ≡ false)) }
{
    match letter_at(archive, id) {
        Some(letter) => Pager::open_part(alloc, letter, number, cols),
        None => Ok(None),
    }
}

/// The pager of a message, or of one of its parts.
pub fn open_pager(
    alloc: Global,
    archive: &Archive,
    id: Id,
    part: Option<usize>,
    weeding: &Weeding,
    cols: u16,
) -> Result<Option<Pager>, NoMemory>
    requires { 2 ≤ cols }
    ensures value { IfOk result (λ pager. pager
        ≡ spec.opened_at (map plain_letter archive.now.items) cols (plain_weeding weeding.now)
        id part) }
    ensures shown { IfOk result (λ pager. IfSome pager (λ p. p.hidden ≡ false)) }
{
    match part {
        Some(number) => open_part(alloc, archive, id, number, cols),
        None => open_message(alloc, archive, id, weeding, cols),
    }
}
