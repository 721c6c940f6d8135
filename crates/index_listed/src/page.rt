//! The page of what is seen that holds the cursor.

ghost use Rattle.std.specs.Prelude.{◌≡◌, ◌++◌, [], replicate, OnOk};
ghost use Rattle.mail_base.specs.Series.{plain_texts};
ghost use Rattle.index_listed.specs.Page as spec;

use crate::sight::Sight;
use mail_base::{Id, Line, Lines, NoMemory};
use std::alloc::Global;

/// What stands before the line of a message: the mark of the cursor, or blanks.
pub fn cursor_mark(cursor: Option<Id>, id: Id) -> &'static str
    ensures { result.now ≡ spec.mark cursor id }
{
    if cursor == Some(id) { "->" } else { "  " }
}

/// Adds the empty lines behind the messages of a page.
pub fn put_blanks(alloc: Global, lines: &mut Lines, count: usize) -> Result<(), NoMemory>
    ensures { OnOk result (plain_texts lines.new ≡ plain_texts lines.old ++ replicate count []) }
{
    for _turn in 0..count {
        lines.push(Line::new(alloc))?;
    }
    Ok(())
}

impl Sight {
    ghost use Rattle.std.specs.Prelude.{◌≡◌, ◌≤◌, ◌<◌, length};
    ghost use Rattle.index_listed.specs.Page as spec;
    ghost use Rattle.index_listed.specs.Seen.{visible_ids};

    /// Where a cursor stands among what is seen; at its front where it stands nowhere.
    pub fn cursor_place(&self, cursor: Option<Id>) -> usize
        ensures { result ≡ spec.cursor_place (visible_ids self.now) cursor }
    {
        match cursor {
            Some(id) => self.visible_place(id).unwrap_or(0),
            None => 0,
        }
    }

    // Where the page begins.
    fn page_start(&self, rows: usize, cursor: Option<Id>) -> usize
        requires { 0 < rows }
        ensures { result ≡ spec.page_start rows (visible_ids self.now) cursor }
    {
        self.cursor_place(cursor) / rows * rows
    }

    /// The messages of the page of so many rows that holds the cursor.
    pub fn page(&self, rows: usize, cursor: Option<Id>) -> &[Id]
        requires { 0 < rows }
        ensures page { result.now ≡ spec.page rows (visible_ids self.now) cursor }
        ensures fits { length result.now ≤ rows }
    {
        let visible = self.visible().as_slice();
        let rest = visible.get(self.page_start(rows, cursor)..).unwrap_or(&[]);
        &rest[..rest.len().min(rows)]
    }
}
