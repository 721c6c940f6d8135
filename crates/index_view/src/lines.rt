//! The lines of the index.

use crate::view::View;
use expando::Format;
use folder_letters::Archive;
use index_listed::{cursor_mark, put_blanks, text_of};
use index_rows::{Entry, index_row};
use mail_base::{Id, Line, Lines, NoMemory};
use std::alloc::Global;

/// By what rows are made.
#[derive(Clone, Copy)]
pub struct Style<'a> {
    pub format: &'a Format,
    pub to_chars: &'a [u8],
    /// The reader's offset from UTC in seconds.
    pub offset: i32,
}

impl View {
    ghost use Rattle.std.specs.Prelude.{◌≡◌, ◌≤◌, ◌<◌, ◌++◌, is_some, length, map, option_map};
    ghost use Rattle.std.specs.Prelude.{IfOk, OnOk};
    ghost use Rattle.folder_letters.specs.Letters.{plain_letter};
    ghost use Rattle.index_rows.specs.Entry.{plain_entry};
    ghost use Rattle.index_view.specs.Lines as spec;
    ghost use Rattle.index_view.specs.View.{IsOf, is_listed};
    ghost use Rattle.mail_base.specs.Series.{plain_texts};

    // What a row shows of a message.
    fn entry<'a>(
        &'a self,
        style: Style<'a>,
        tree: &'a Line,
        raw: &'a [u8],
        id: Id,
        place: usize,
    ) -> Entry<'a>
        requires listed { place < length self.now.answers.rows }
        requires head { id.0 < length self.now.heads }
        ensures { plain_entry result ≡ spec.entry_with (spec.head_at self.now.heads id) raw.now
            tree.now.items self.now (spec.plain_style style.entry) id place }
    {
        let row = self.answers.rows()[place];
        Entry {
            number: row.number,
            count: self.answers.rows().len() as u64,
            flags: row.flags,
            deleted: row.deleted,
            tagged: row.tagged,
            shut: self.answers.shut_of(id),
            ties: self.answers.ties_at(place),
            header: &self.heads[id.0 as usize],
            raw,
            size: row.size,
            score: row.score,
            tree,
            received: row.received,
            to_chars: style.to_chars,
            offset: style.offset,
        }
    }

    // The row of a message in so many columns, where it is listed.
    fn styled(
        &self,
        alloc: Global,
        archive: &Archive,
        style: Style<'_>,
        cols: u16,
        id: Id,
    ) -> Result<Option<Line>, NoMemory>
        requires { IsOf (map plain_letter archive.now.items) self.now }
        ensures { IfOk result (λ line. option_map (λ l. l.items) line
            ≡ spec.line (map plain_letter archive.now.items) self.now (spec.plain_style style.entry)
            cols id) }
    {
        let Some(place) = self.answers.place(id) else {
            return Ok(None);
        };
        let tree = self.answers.sight().tree_line(alloc, id)?;
        let raw = text_of(&archive.as_slice()[id.0 as usize]);
        let entry = self.entry(style, &tree, raw, id, place);
        Ok(Some(index_row(alloc, style.format, &entry, cols)?))
    }

    /// The row of a message by a format, in so many columns; nothing where the id is not listed.
    /// `to_chars` are six characters, `offset` is seconds.
    pub fn line(
        &self,
        alloc: Global,
        archive: &Archive,
        id: Id,
        format: &Format,
        to_chars: &[u8],
        offset: i32,
        cols: u16,
    ) -> Result<Option<Line>, NoMemory>
        requires { IsOf (map plain_letter archive.now.items) self.now }
        ensures value { IfOk result (λ line. option_map (λ l. l.items) line
            ≡ spec.line (map plain_letter archive.now.items) self.now
            (record { format = format.now; to_chars = to_chars.now; offset = offset }) cols id) }
        ensures listed { IfOk result (λ line. is_some line ≡ is_listed self.now id) }
    {
        let style = Style {
            format,
            to_chars,
            offset,
        };
        self.styled(alloc, archive, style, cols, id)
    }

    // A message of the page with its mark.
    fn marked(
        &self,
        alloc: Global,
        archive: &Archive,
        style: Style<'_>,
        cols: u16,
        id: Id,
    ) -> Result<Line, NoMemory>
        requires cols { 2 ≤ cols }
        requires is_of { IsOf (map plain_letter archive.now.items) self.now }
        ensures { IfOk result (λ line. line.items
            ≡ spec.marked_line (map plain_letter archive.now.items) self.now
            (spec.plain_style style.entry) cols id) }
    {
        let mut line = Line::new(alloc);
        line.append(cursor_mark(self.cursor, id))?;
        if let Some(row) = self.styled(alloc, archive, style, cols - 2, id)? {
            line.append_bytes(row.as_slice())?;
        }
        Ok(line)
    }

    /// Where the cursor stands among the ids that are seen; at their front where it stands nowhere.
    pub fn cursor_place(&self) -> usize
        ensures { result ≡ spec.cursor_place self.now }
    {
        self.answers.sight().cursor_place(self.cursor)
    }

    /// The lines of the page that holds the cursor, exactly `rows` of them: each message with its
    /// mark, and then empty ones. `to_chars` are six characters, `offset` is seconds.
    pub fn lines(
        &self,
        alloc: Global,
        archive: &Archive,
        index_format: &Format,
        to_chars: &[u8],
        offset: i32,
        rows: u16,
        cols: u16,
    ) -> Result<Lines, NoMemory>
        requires cols { 2 ≤ cols }
        requires is_of { IsOf (map plain_letter archive.now.items) self.now }
        ensures { IfOk result (λ lines. plain_texts lines
            ≡ spec.lines (map plain_letter archive.now.items) self.now
            (record { format = index_format.now; to_chars = to_chars.now; offset = offset })
            rows cols) }
    {
        let mut lines = Lines::new(alloc);
        if rows == 0 {
            return Ok(lines);
        }
        let style = Style {
            format: index_format,
            to_chars,
            offset,
        };
        let page = self.answers.sight().page(rows as usize, self.cursor);
        self.put_rows(alloc, &mut lines, archive, style, cols, page)?;
        put_blanks(alloc, &mut lines, rows as usize - page.len())?;
        Ok(lines)
    }

    // Adds the messages of a page.
    fn put_rows(
        &self,
        alloc: Global,
        lines: &mut Lines,
        archive: &Archive,
        style: Style<'_>,
        cols: u16,
        page: &[Id],
    ) -> Result<(), NoMemory>
        requires cols { 2 ≤ cols }
        requires is_of { IsOf (map plain_letter archive.now.items) self.now }
        ensures { OnOk result (plain_texts lines.new ≡ plain_texts lines.old
            ++ map (spec.marked_line (map plain_letter archive.now.items) self.now
            (spec.plain_style style.entry) cols) page.now) }
    {
        let mut left = page;
        while let [first, rest @ ..] = left {
            lines.push(self.marked(alloc, archive, style, cols, *first)?)?;
            left = rest;
        }
        Ok(())
    }
}
