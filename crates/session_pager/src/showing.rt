//! What is shown in place of the index.

ghost use Rattle.std.specs.Prelude.{◌≡◌};
ghost use Rattle.session_pager.specs.Reads as spec;

use crate::lines::empty_lines;
use crate::parts::Parts;
use crate::stepped::Stepped;
use crate::text::Text;
use crate::turn::Turn;
use folder_letters::Archive;
use keymap::Menu;
use mail_base::{Id, Lines, NoMemory};
use message_text::Weeding;
use people::Expr;
use std::alloc::Global;

/// What is shown: the index, a message or one of its parts on pages, or the list of its parts.
#[derive(Drop)]
pub enum Showing {
    Index,
    Text(Text),
    Parts(Parts),
}

impl Showing {
    ghost use Rattle.std.specs.Prelude.{◌≡◌, ◌≤◌, ◌<◌, is_some, length, map, option_and_then};
    ghost use Rattle.std.specs.Prelude.{IfOk, OnErr, OnOk};
    ghost use Rattle.folder_letters.specs.Letters.{plain_letter};
    ghost use Rattle.mail_base.specs.Series.{plain_texts};
    ghost use Rattle.message_text.specs.Weeding.{plain_weeding};
    ghost use Rattle.session_pager.specs.Lines.{page_of};
    ghost use Rattle.session_pager.specs.Opening.{shown_again};
    ghost use Rattle.session_pager.specs.Reader.{menu_for, text_id};
    ghost use Rattle.session_pager.specs.Reads as spec;
    ghost use Rattle.session_pager.specs.Searching.{at_found, line_found};
    ghost use Rattle.session_pager.specs.Turning.{turned_pager};

    /// The menu in which keys are read.
    pub fn menu(&self) -> Menu
        ensures { result ≡ menu_for (spec.plain_showing self.now) }
    {
        match self {
            Showing::Index => Menu::Index,
            Showing::Text(_) => Menu::Pager,
            Showing::Parts(_) => Menu::Attach,
        }
    }

    /// The message of which a text is shown.
    pub fn shown_id(&self) -> Option<Id>
        ensures { result ≡ text_id (spec.plain_showing self.now) }
    {
        match self {
            Showing::Text(text) => Some(text.id()),
            _ => None,
        }
    }

    /// The same made anew; the index where there is nothing to show.
    pub fn remake(
        &self,
        alloc: Global,
        archive: &Archive,
        weeding: &Weeding,
        cols: u16,
    ) -> Result<Showing, NoMemory>
        requires { 2 ≤ cols }
        ensures { IfOk result (spec.Shows (map plain_letter archive.now.items) cols
            (plain_weeding weeding.now)
            (shown_again (map plain_letter archive.now.items) cols (plain_weeding weeding.now)
            (spec.plain_showing self.now))) }
    {
        match self {
            Showing::Index => Ok(Showing::Index),
            Showing::Text(text) => Ok(text_or_index(text.remake(alloc, archive, weeding, cols)?)),
            Showing::Parts(parts) => Ok(parts_or_index(parts.remake(alloc, archive)?)),
        }
    }

    /// The part on which the cursor stands, where parts are shown and there is such a part.
    pub fn open_part(
        &self,
        alloc: Global,
        archive: &Archive,
        cols: u16,
    ) -> Result<Option<Text>, NoMemory>
        requires { 2 ≤ cols }
        ensures { IfOk result (λ text. text
            ≡ spec.part_in (map plain_letter archive.now.items) cols self.now) }
    {
        match self {
            Showing::Parts(parts) => parts.open(alloc, archive, cols),
            _ => Ok(None),
        }
    }

    /// Turns the page of a text.
    pub fn turn(&mut self, turn: Turn, page: usize)
        ensures { self.new ≡ spec.paged_in (turned_pager turn page) self.old }
    {
        if let Showing::Text(text) = self {
            text.turn(turn, page);
        }
    }

    /// Goes to the first line behind the top of a text in which the expression is found, and tells
    /// whether there is one.
    pub fn search(&mut self, expr: &mut Expr) -> Result<bool, NoMemory>
        ensures found { IfOk result
            (λ found. found ≡ is_some (line_found expr.old (spec.pager_in self.old))) }
        ensures moved { OnOk result (self.new ≡ spec.paged_in (at_found expr.old) self.old) }
        ensures err { OnErr result (self.new ≡ self.old) }
        ensures same { expr.new ≡ expr.old }
    {
        match self {
            Showing::Text(text) => text.search(expr),
            _ => Ok(false),
        }
    }

    /// The cursor of a list of parts steps down or up, and stays at the ends.
    pub fn step(&mut self, down: bool) -> Stepped
        ensures met { result ≡ spec.step_in down self.old }
        ensures moved { self.new ≡ spec.stepped_in down self.old }
    {
        match self {
            Showing::Parts(parts) => parts.step(down),
            _ => Stepped::Moved,
        }
    }

    /// So many lines of a text, and of anything else empty ones.
    pub fn page_lines(&self, alloc: Global, rows: u16) -> Result<Lines, NoMemory>
        ensures { IfOk result
            (λ lines. plain_texts lines ≡ page_of rows (spec.pager_in self.now)) }
    {
        match self {
            Showing::Text(text) => text.lines(alloc, rows),
            _ => empty_lines(alloc, rows),
        }
    }

    /// So many lines of a list of parts, and of anything else empty ones.
    pub fn part_lines(&self, alloc: Global, rows: u16, cols: u16) -> Result<Lines, NoMemory>
        requires { 0 < rows }
        ensures { IfOk result (λ lines. plain_texts lines ≡ spec.rows_in rows cols self.now) }
    {
        match self {
            Showing::Parts(parts) => parts.lines(alloc, usize::from(rows), usize::from(cols)),
            _ => empty_lines(alloc, rows),
        }
    }
}

// A text, if there is one.
fn text_or_index(text: Option<Text>) -> Showing
    ensures { result ≡ spec.text_or_index text }
{
    match text {
        Some(text) => Showing::Text(text),
        None => Showing::Index,
    }
}

// A list of parts, if there is one.
fn parts_or_index(parts: Option<Parts>) -> Showing
    ensures { result ≡ spec.parts_or_index parts }
{
    match parts {
        Some(parts) => Showing::Parts(parts),
        None => Showing::Index,
    }
}
