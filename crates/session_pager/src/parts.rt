//! The parts of a message, with a cursor.

ghost use Rattle.std.specs.Prelude.{◌≡◌, ◌-◌, ◌<◌, ◌≤◌, length, map, min, option_and_then, IfOk};
ghost use Rattle.std.specs.Prelude.{option_map, Some};
ghost use Rattle.folder_letters.specs.Letters.{plain_letter};
ghost use Rattle.mail_base.specs.Series.{plain_texts};
ghost use Rattle.session_pager.specs.Lines.{rows_page};
ghost use Rattle.session_pager.specs.Reads as kept;
ghost use Rattle.session_pager.specs.Stepping as spec;

use crate::letters::{letter_at, open_part, text_of};
use crate::lines::{behind, put_rows};
use crate::stepped::Stepped;
use crate::text::Text;
use folder_letters::Archive;
use mail_base::{Id, Lines, NoMemory};
use message_text::attachment_rows;
use std::alloc::Global;
use std::marker::Model;

/// The parts of a message, with a cursor.
#[derive(Drop)]
pub struct Parts {
    id: Id,
    cursor: usize,
    rows: Lines,
}

impl Model for Parts {
    ghost use Rattle.mail_base.specs.Series.{plain_texts};
    ghost use Rattle.session_pager.specs.Kept.{KeptParts};

    ghost Value = { KeptParts };

    ghost view = { λ p. record { id = p.id; cursor = p.cursor; rows = plain_texts p.rows } };
}

impl Parts {
    /// The parts of a message, if there is such a letter; the cursor is cut to the last row.
    pub fn list(
        alloc: Global,
        archive: &Archive,
        id: Id,
        cursor: usize,
    ) -> Result<Option<Parts>, NoMemory>
        ensures { IfOk result (λ parts. parts
            ≡ kept.parts_at (map plain_letter archive.now.items) id cursor) }
    {
        let Some(letter) = letter_at(archive, id) else {
            return Ok(None);
        };
        let rows = attachment_rows(alloc, text_of(letter))?;
        let cursor = cursor.min(rows.len().saturating_sub(1));
        Ok(Some(Parts { id, cursor, rows }))
    }

    /// The parts made anew.
    pub fn remake(&self, alloc: Global, archive: &Archive) -> Result<Option<Parts>, NoMemory>
        ensures { IfOk result (λ parts. parts
            ≡ kept.parts_at (map plain_letter archive.now.items) self.now.id self.now.cursor) }
    {
        Parts::list(alloc, archive, self.id, self.cursor)
    }

    /// The part on which the cursor stands, if there is such a part.
    pub fn open(
        &self,
        alloc: Global,
        archive: &Archive,
        cols: u16,
    ) -> Result<Option<Text>, NoMemory>
        requires { 2 ≤ cols }
        ensures { IfOk result (λ text. text
            ≡ kept.part_of (map plain_letter archive.now.items) cols self.now) }
    {
        match open_part(alloc, archive, self.id, self.cursor, cols)? {
            Some(pager) => Ok(Some(Text::new(self.id, Some(self.cursor), pager))),
            None => Ok(None),
        }
    }

    // Steps down; on the last part the cursor stays.
    fn step_down(&mut self) -> Stepped
        ensures met { result ≡ spec.met_below (length self.old.rows) self.old.cursor }
        ensures moved { self.new ≡ record self.old {
          cursor = spec.place_below (length self.old.rows) self.old.cursor;
        } }
    {
        if self.cursor < self.rows.len().saturating_sub(1) {
            self.cursor += 1;
            Stepped::Moved
        } else {
            Stepped::Last
        }
    }

    // Steps up; on the first part the cursor stays.
    fn step_up(&mut self) -> Stepped
        ensures met { result ≡ spec.met_above self.old.cursor }
        ensures moved { self.new ≡ record self.old { cursor = self.old.cursor - 1 } }
    {
        if self.cursor == 0 {
            return Stepped::First;
        }
        self.cursor -= 1;
        Stepped::Moved
    }

    /// The cursor steps down or up, and stays at the ends.
    pub fn step(&mut self, down: bool) -> Stepped
        ensures met { result ≡ spec.step_met down (length self.old.rows) self.old.cursor }
        ensures moved { self.new ≡ record self.old {
          cursor = spec.step_place down (length self.old.rows) self.old.cursor;
        } }
    {
        if self.rows.len() == 0 {
            return Stepped::Moved;
        }
        if down {
            self.step_down()
        } else {
            self.step_up()
        }
    }

    /// The page of so many rows that holds the cursor.
    pub fn lines(&self, alloc: Global, size: usize, cols: usize) -> Result<Lines, NoMemory>
        requires { 0 < size }
        ensures { IfOk result (λ lines. plain_texts lines
            ≡ rows_page size cols self.now.cursor self.now.rows) }
    {
        let rows = behind(self.rows.as_slice(), self.cursor / size * size);
        let mut lines = Lines::new(alloc);
        put_rows(alloc, &mut lines, rows, self.cursor % size, size, cols)?;
        Ok(lines)
    }
}
