//! Characters in display columns (Unicode Standard Annex 11).

ghost use Rattle.std.specs.Prelude.{◌≡◌, ◌++◌, OnOk, map, replicate};
ghost use Rattle.expando.specs.Columns as spec;
ghost use Rattle.expando.specs.declared.cell.Cell.TheVariants.{Shown};

use crate::cell::{Cell, Cells};
use mail_base::NoMemory;
use unicode_width::UnicodeWidthChar;

/// A control character shows as a question mark.
pub fn shown_char(c: char) -> char
    ensures { result ≡ spec.shown_char c }
{
    if c.is_ascii_control() { '?' } else { c }
}

/// How many columns a character takes.
pub fn columns_of(c: char) -> usize
    ensures { result ≡ spec.columns_of c }
{
    c.width().unwrap_or(1)
}

// How many columns the characters at the front take that take no more than the limit.
fn kept_columns(text: &str, limit: usize) -> usize
    ensures { result ≡ spec.columns_in (spec.kept limit (spec.shown_text text.now)) }
{
    let mut left = limit;
    for c in text.chars() {
        let columns = columns_of(shown_char(c));
        if left < columns {
            return limit - left;
        }
        left -= columns;
    }
    limit - left
}

// Adds the characters at the front that take no more than the limit.
fn push_kept(cells: &mut Cells, text: &str, limit: usize) -> Result<(), NoMemory>
    ensures { OnOk result (cells.new.items
        ≡ cells.old.items ++ map Shown (spec.kept limit (spec.shown_text text.now))) }
{
    let mut left = limit;
    for c in text.chars() {
        let shown = shown_char(c);
        let columns = columns_of(shown);
        if left < columns {
            return Ok(());
        }
        cells.push(Cell::Shown(shown))?;
        left -= columns;
    }
    Ok(())
}

fn push_blanks(cells: &mut Cells, count: usize) -> Result<(), NoMemory>
    ensures { OnOk result (cells.new.items ≡ cells.old.items ++ map Shown (spec.blanks count)) }
{
    for _i in 0..count {
        cells.push(Cell::Shown(' '))?;
    }
    Ok(())
}

/// Adds a text that is cut at a limit and padded to a width, to the left or to the right.
pub fn push_padded(
    cells: &mut Cells,
    text: &str,
    left: bool,
    width: usize,
    limit: usize,
) -> Result<(), NoMemory>
    ensures { OnOk result (cells.new.items ≡ cells.old.items
        ++ map Shown (spec.padded left width (spec.kept limit (spec.shown_text text.now)))) }
{
    let blanks = width.saturating_sub(kept_columns(text, limit));
    if left {
        push_kept(cells, text, limit)?;
        push_blanks(cells, blanks)
    } else {
        push_blanks(cells, blanks)?;
        push_kept(cells, text, limit)
    }
}
