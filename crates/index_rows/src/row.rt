//! The rows of the index and its status line.

ghost use Rattle.std.specs.Prelude.{◌≡◌, IfOk};
ghost use Rattle.index_rows.specs.Entry.{plain_entry};
ghost use Rattle.index_rows.specs.Summary as summaries;
ghost use Rattle.index_rows.specs.Summary.{plain_summary};
ghost use Rattle.index_rows.specs.Texts as spec;

use crate::entry::Entry;
use crate::summary::Summary;
use crate::summary_texts::summary_text;
use crate::texts::letter_text;
use expando::{Format, Values, render};
use mail_base::{Line, NoMemory};
use std::alloc::Global;

impl Values for Entry<'_> {
    ghost use Rattle.index_rows.specs.Entry.{plain_entry};
    ghost use Rattle.index_rows.specs.Texts.{index_text};

    ghost texts = { λ e. index_text (plain_entry e) };

    fn text(&self, alloc: Global, letter: u8, inner: &[u8]) -> Result<Line, NoMemory> {
        letter_text(alloc, self, letter, inner)
    }
}

impl Values for Summary<'_> {
    ghost use Rattle.index_rows.specs.Summary.{plain_summary, summary_text};

    ghost texts = { λ s letter _. summary_text (plain_summary s) letter };

    fn text(&self, alloc: Global, letter: u8, _inner: &[u8]) -> Result<Line, NoMemory> {
        summary_text(alloc, self, letter)
    }
}

/// A message's row by a format, in so many columns.
pub fn index_row(
    alloc: Global,
    format: &Format,
    entry: &Entry<'_>,
    cols: u16,
) -> Result<Line, NoMemory>
    ensures { IfOk result
        (λ row. row.items ≡ spec.index_row cols (plain_entry entry.now) format.now) }
{
    render(alloc, format, entry, cols)
}

/// The status line by a format, in so many columns.
pub fn status_line(
    alloc: Global,
    format: &Format,
    summary: &Summary<'_>,
    cols: u16,
) -> Result<Line, NoMemory>
    ensures { IfOk result
        (λ row. row.items ≡ summaries.status_line cols (plain_summary summary.now) format.now) }
{
    render(alloc, format, summary, cols)
}
