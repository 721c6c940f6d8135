//! A message or one of its parts, on pages.

ghost use Rattle.std.specs.Prelude.{◌≡◌, ◌≤◌, false, is_some, map, IfOk, OnErr, OnOk, Some};
ghost use Rattle.std.specs.Prelude.{length, if◌then◌else◌};
ghost use Rattle.folder_letters.specs.Letters.{plain_letter};
ghost use Rattle.mail_base.specs.Series.{plain_texts};
ghost use Rattle.message_text.specs.Weeding.{plain_weeding};
ghost use Rattle.pager.specs.Pager.{page, scrolled, toggled};
ghost use Rattle.session_pager.specs.Reads.{text_remade};
ghost use Rattle.session_pager.specs.Searching.{at_found, at_line, line_found};
ghost use Rattle.session_pager.specs.Turning as spec;

use crate::letters::open_pager;
use crate::turn::Turn;
use folder_letters::Archive;
use mail_base::{Id, Lines, NoMemory};
use message_text::Weeding;
use pager::Pager;
use people::Expr;
use std::alloc::Global;
use std::marker::Model;

/// A message or one of its parts, on pages.
#[derive(Drop)]
pub struct Text {
    id: Id,
    part: Option<usize>,
    pager: Pager,
    // Whether the pager hides quoted lines.
    hidden: bool,
}

impl Model for Text {
    ghost use Rattle.std.specs.Prelude.{◌≡◌};
    ghost use Rattle.session_pager.specs.Kept.{KeptText};

    ghost Value = { KeptText };

    ghost view = { λ t. record { id = t.id; part = t.part; pager = t.pager } };

    ghost invariant = { λ t. t.hidden ≡ t.pager.hidden };
}

impl Text {
    /// A text with a pager that was opened.
    pub fn new(id: Id, part: Option<usize>, pager: Pager) -> Self
        requires { pager.hidden ≡ false }
        ensures { result ≡ record { id = id; part = part; pager = pager } }
    {
        Text {
            id,
            part,
            pager,
            hidden: false,
        }
    }

    /// The message.
    pub fn id(&self) -> Id
        ensures { result ≡ self.now.id }
    {
        self.id
    }

    // Hides the quoted lines, or shows them again.
    fn toggle_quoted(&mut self)
        ensures { self.new ≡ record self.old { pager = toggled self.old.pager } }
    {
        self.pager.toggle_quoted();
        self.hidden = !self.hidden;
    }

    // Goes so many lines on.
    fn scroll_on(&mut self, count: usize)
        ensures { self.new ≡ record self.old { pager = spec.scrolled_on count self.old.pager } }
    {
        self.pager.scroll(self.pager.top().saturating_add(count));
    }

    // Goes so many lines back.
    fn scroll_back(&mut self, count: usize)
        ensures { self.new ≡ record self.old { pager = spec.scrolled_back count self.old.pager } }
    {
        self.pager.scroll(self.pager.top().saturating_sub(count));
    }

    // Goes to a line, or to the last.
    fn scroll_to(&mut self, line: usize)
        ensures { self.new ≡ record self.old { pager = scrolled line self.old.pager } }
    {
        self.pager.scroll(line);
    }

    // Goes to the last page.
    fn scroll_to_end(&mut self, size: usize)
        ensures { self.new ≡ record self.old {
          pager = scrolled (spec.last_page size self.old.pager) self.old.pager;
        } }
    {
        self.scroll_to(usize::MAX);
        let last = self.pager.top();
        self.scroll_to(last.saturating_sub(size.saturating_sub(1)));
    }

    /// Turns the page, which has so many lines.
    pub fn turn(&mut self, turn: Turn, page: usize)
        ensures { self.new ≡ record self.old {
          pager = spec.turned_pager turn page self.old.pager;
        } }
    {
        match turn {
            Turn::NextLine => self.scroll_on(1),
            Turn::PreviousLine => self.scroll_back(1),
            Turn::NextPage => self.scroll_on(page),
            Turn::PreviousPage => self.scroll_back(page),
            Turn::Top => self.scroll_to(0),
            Turn::Bottom => self.scroll_to_end(page),
            Turn::ToggleQuoted => self.toggle_quoted(),
        }
    }

    // Goes to a line, if there is one.
    fn go(&mut self, line: Option<usize>)
        ensures { self.new ≡ record self.old { pager = at_line line self.old.pager } }
    {
        if let Some(line) = line {
            self.scroll_to(line);
        }
    }

    /// Goes to the first line behind the top in which the expression is found, and tells whether
    /// there is one.
    pub fn search(&mut self, expr: &mut Expr) -> Result<bool, NoMemory>
        ensures found { IfOk result
            (λ found. found ≡ is_some (line_found expr.old (Some self.old.pager))) }
        ensures moved { OnOk result
            (self.new ≡ record self.old { pager = at_found expr.old self.old.pager }) }
        ensures err { OnErr result (self.new ≡ self.old) }
        ensures same { expr.new ≡ expr.old }
    {
        let top = self.pager.top();
        let line = self.pager.find(expr, top)?;
        self.go(line);
        Ok(line.is_some())
    }

    /// So many lines from the top on.
    pub fn lines(&self, alloc: Global, rows: u16) -> Result<Lines, NoMemory>
        ensures value { IfOk result (λ lines. plain_texts lines ≡ page rows self.now.pager) }
        ensures count { IfOk result (λ lines. length lines.items ≡ rows) }
    {
        self.pager.lines(alloc, rows)
    }

    // Hides quoted lines that are shown, if they are to be hidden.
    fn hide(&mut self, hidden: bool)
        ensures { self.new ≡ record self.old {
          pager = (if hidden then toggled self.old.pager else self.old.pager);
        } }
    {
        if hidden {
            self.toggle_quoted();
        }
    }

    // The text with a pager that was opened anew: its top is cut to the last line.
    fn with_pager(&self, pager: Pager) -> Text
        requires { pager.hidden ≡ false }
        ensures { result ≡ record self.now {
          pager = scrolled self.now.pager.top
              (record pager { hidden = self.now.pager.hidden });
        } }
    {
        let mut text = Text::new(self.id, self.part, pager);
        text.hide(self.hidden);
        text.scroll_to(self.pager.top());
        text
    }

    /// The text made anew; none where there is no such letter or part.
    pub fn remake(
        &self,
        alloc: Global,
        archive: &Archive,
        weeding: &Weeding,
        cols: u16,
    ) -> Result<Option<Text>, NoMemory>
        requires { 2 ≤ cols }
        ensures { IfOk result (λ text. text ≡ text_remade (map plain_letter archive.now.items) cols
            (plain_weeding weeding.now) self.now) }
    {
        match open_pager(alloc, archive, self.id, self.part, weeding, cols)? {
            Some(pager) => Ok(Some(self.with_pager(pager))),
            None => Ok(None),
        }
    }
}
