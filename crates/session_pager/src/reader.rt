//! What is shown in place of the index, and what was searched for.

use crate::letters::open_message;
use crate::parts::Parts;
use crate::showing::Showing;
use crate::stepped::Stepped;
use crate::text::Text;
use crate::turn::Turn;
use folder_letters::Archive;
use keymap::Menu;
use mail_base::{Id, Lines, NoMemory};
use message_text::Weeding;
use people::Expr;
use std::alloc::Global;
use std::marker::Model;

/// What is shown in place of the index, the expression that was searched for, and the message that
/// waits for files of commands before it is shown.
pub struct Reader {
    alloc: Global,
    showing: Showing,
    search: Option<Expr>,
    awaited: Option<Id>,
}

impl Model for Reader {
    ghost use Rattle.session_pager.specs.Reads.{FullReader};

    ghost Value = { FullReader };

    ghost view = { λ r. record {
      showing = r.showing;
      search = r.search;
      awaited = r.awaited;
    } };
}

impl Drop for Reader {
    fn drop(self) {
        let Reader {
            alloc: _,
            showing: _,
            search: _,
            awaited: _,
        } = self;
    }
}

impl Reader {
    ghost use Rattle.std.specs.Prelude.{◌≡◌, ◌≤◌, ◌<◌, ℕ, List, Some, length, map};
    ghost use Rattle.std.specs.Prelude.{IfOk, OnErr, OnOk, None};
    ghost use Rattle.folder_letters.specs.Letters.{Mail, plain_letter};
    ghost use Rattle.mail_base.specs.Series.{plain_texts};
    ghost use Rattle.message_text.specs.Weeding.{PlainWeeding, plain_weeding};
    ghost use Rattle.session_pager.specs.Lines as lines;
    ghost use Rattle.session_pager.specs.Opening as opening;
    ghost use Rattle.session_pager.specs.Reader as spec;
    ghost use Rattle.session_pager.specs.Reads.{Becomes, IsRead, Reads, ReadsOn, Tells};
    ghost use Rattle.session_pager.specs.Reads.{plain_reader};
    ghost use Rattle.session_pager.specs.Searching as searching;
    ghost use Rattle.session_pager.specs.Stepping as stepping;
    ghost use Rattle.session_pager.specs.Turning as turning;

    /// A reader that shows the index.
    pub fn new(alloc: Global) -> Self
        ensures plain { plain_reader result ≡ spec.no_reader }
        ensures read { (mails : List Mail) (cols : ℕ) (weeding : PlainWeeding)
            → IsRead mails cols weeding result }
    {
        Reader {
            alloc,
            showing: Showing::Index,
            search: None,
            awaited: None,
        }
    }

    /// The menu in which keys are read.
    pub fn menu(&self) -> Menu
        ensures { result ≡ spec.menu_of (plain_reader self.now) }
    {
        self.showing.menu()
    }

    /// The message of which a text is shown.
    pub fn shown_id(&self) -> Option<Id>
        ensures { result ≡ spec.shown_id (plain_reader self.now) }
    {
        self.showing.shown_id()
    }

    /// The index comes back.
    pub fn close(&mut self)
        ensures { (mails : List Mail) (cols : ℕ) (weeding : PlainWeeding)
            → Reads mails cols weeding (spec.index_shown (plain_reader self.old)) self.new }
    {
        self.showing = Showing::Index;
    }

    /// A message is to be shown when files of commands were read.
    pub fn await_message(&mut self, id: Id)
        ensures { Becomes (λ mails cols weeding. spec.with_awaited (Some id)) self.old self.new }
    {
        self.awaited = Some(id);
    }

    /// The message that waits, which then waits no more.
    pub fn take_awaited(&mut self) -> Option<Id>
        ensures awaited { result ≡ (plain_reader self.old).awaited }
        ensures none { Becomes (λ mails cols weeding. spec.with_awaited None) self.old self.new }
    {
        self.awaited.take()
    }

    /// Shows a message from its first line on; where there is no such letter nothing changes.
    pub fn open(
        &mut self,
        archive: &Archive,
        id: Id,
        weeding: &Weeding,
        cols: u16,
    ) -> Result<(), NoMemory>
        requires { 2 ≤ cols }
        ensures ok { OnOk result
            (ReadsOn (map plain_letter archive.now.items) cols (plain_weeding weeding.now)
            (opening.message_opened (map plain_letter archive.now.items) id)
            self.old self.new) }
        ensures err { OnErr result (self.new ≡ self.old) }
    {
        if let Some(pager) = open_message(self.alloc, archive, id, weeding, cols)? {
            self.showing = Showing::Text(Text::new(id, None, pager));
        }
        Ok(())
    }

    /// Shows the list of the parts of a message; where there is no such letter nothing changes.
    pub fn list(&mut self, archive: &Archive, id: Id) -> Result<(), NoMemory>
        ensures ok { OnOk result ((cols : ℕ) (weeding : PlainWeeding)
            → ReadsOn (map plain_letter archive.now.items) cols weeding
            (opening.parts_listed (map plain_letter archive.now.items) id) self.old self.new) }
        ensures err { OnErr result (self.new ≡ self.old) }
    {
        if let Some(parts) = Parts::list(self.alloc, archive, id, 0)? {
            self.showing = Showing::Parts(parts);
        }
        Ok(())
    }

    /// Shows the part on which the cursor stands from its first line on; where there is no such
    /// part nothing changes.
    pub fn open_part(&mut self, archive: &Archive, cols: u16) -> Result<(), NoMemory>
        requires { 2 ≤ cols }
        ensures ok { OnOk result ((weeding : PlainWeeding)
            → ReadsOn (map plain_letter archive.now.items) cols weeding
            (opening.part_opened (map plain_letter archive.now.items)) self.old self.new) }
        ensures err { OnErr result (self.new ≡ self.old) }
    {
        if let Some(text) = self.showing.open_part(self.alloc, archive, cols)? {
            self.showing = Showing::Text(text);
        }
        Ok(())
    }

    /// Makes what is shown anew, behind changes of the weeding or of the columns; whether quoted
    /// lines are hidden stays.
    pub fn refresh(
        &mut self,
        archive: &Archive,
        weeding: &Weeding,
        cols: u16,
    ) -> Result<(), NoMemory>
        requires { 2 ≤ cols }
        ensures ok { OnOk result
            (Reads (map plain_letter archive.now.items) cols (plain_weeding weeding.now)
            (opening.reader_again (map plain_letter archive.now.items) cols
            (plain_weeding weeding.now) (plain_reader self.old)) self.new) }
        ensures err { OnErr result (self.new ≡ self.old) }
    {
        self.showing = self.showing.remake(self.alloc, archive, weeding, cols)?;
        Ok(())
    }

    /// Turns the page of a text, where a page has so many lines.
    pub fn turn(&mut self, turn: Turn, page: usize)
        ensures { Becomes (turning.page_turned turn page) self.old self.new }
    {
        self.showing.turn(turn, page);
    }

    /// The cursor of the list of parts steps down or up, and stays at the ends.
    pub fn step(&mut self, down: bool) -> Stepped
        ensures met { Tells (stepping.step_of down) self.old result }
        ensures moved { Becomes (stepping.cursor_stepped down) self.old self.new }
    {
        self.showing.step(down)
    }

    /// Keeps an expression, goes to the first line behind the top of a text in which it is found,
    /// and tells whether there is one.
    pub fn search_for(&mut self, expr: Expr) -> Result<bool, NoMemory>
        ensures found { IfOk result (Tells (searching.is_found expr) self.old) }
        ensures moved { OnOk result (Becomes (searching.searched_for expr) self.old self.new) }
        ensures err { OnErr result (self.new ≡ record self.old { search = Some expr }) }
    {
        self.search = Some(expr);
        Ok(self.search_again()?.unwrap_or(false))
    }

    /// The same with the expression that is kept, if there is one.
    pub fn search_again(&mut self) -> Result<Option<bool>, NoMemory>
        ensures found { IfOk result (Tells searching.is_found_again self.old) }
        ensures moved { OnOk result (Becomes searching.searched_again self.old self.new) }
        ensures err { OnErr result (self.new ≡ self.old) }
    {
        match &mut self.search {
            Some(expr) => Ok(Some(self.showing.search(expr)?)),
            None => Ok(None),
        }
    }

    /// So many lines of a text from its top on, and of anything else empty ones.
    pub fn page_lines(&self, alloc: Global, rows: u16) -> Result<Lines, NoMemory>
        ensures value { IfOk result
            (λ found. Tells (lines.page_lines rows) self.now (plain_texts found)) }
        ensures count { IfOk result (λ found. length found.items ≡ rows) }
    {
        self.showing.page_lines(alloc, rows)
    }

    /// The page of so many rows of the list of parts that holds the cursor, and of anything else
    /// empty lines.
    pub fn part_lines(&self, alloc: Global, rows: u16, cols: u16) -> Result<Lines, NoMemory>
        requires { 0 < rows }
        ensures value { IfOk result
            (λ found. Tells (lines.part_lines rows cols) self.now (plain_texts found)) }
        ensures count { IfOk result (λ found. length found.items ≡ rows) }
    {
        self.showing.part_lines(alloc, rows, cols)
    }
}
