//! Lines of rows with a mark before the cursor's, and empty lines.

ghost use Rattle.std.specs.Prelude.{◌≡◌, ◌-◌, ◌==◌, ◌++◌, drop, length, map, IfOk, OnOk};
ghost use Rattle.std.specs.List.{range_with_len};
ghost use Rattle.mail_base.specs.Series.{plain_texts};
ghost use Rattle.session_pager.specs.Lines as spec;

use expando::cut;
use mail_base::{Line, Lines, NoMemory};
use std::alloc::Global;

/// The rows from a place on.
pub fn behind(rows: &[Line], start: usize) -> &[Line]
    ensures { result.now ≡ drop start rows.now }
{
    if start <= rows.len() {
        &rows[start..]
    } else {
        &[]
    }
}

// What stands before a row.
fn mark(at_cursor: bool) -> &'static str
    ensures { result.now ≡ spec.mark at_cursor }
{
    if at_cursor { "->" } else { "  " }
}

// A row in so many columns, behind its mark.
fn marked_row(alloc: Global, row: &Line, at_cursor: bool, cols: usize) -> Result<Line, NoMemory>
    ensures { IfOk result
        (λ line. line.items ≡ spec.marked_row cols at_cursor row.now.items) }
{
    let mut line = Line::new(alloc);
    line.append(mark(at_cursor))?;
    let text = cut(alloc, row.as_str(), cols.saturating_sub(2))?;
    line.append(text.as_str())?;
    Ok(line)
}

// A line of a page of rows; past the last row it is empty.
fn row_line(
    alloc: Global,
    rows: &[Line],
    cursor: usize,
    line: usize,
    cols: usize,
) -> Result<Line, NoMemory>
    ensures { IfOk result (λ text. text.items
        ≡ spec.row_line cols cursor (map (λ row. row.items) rows.now) line) }
{
    match rows.get(line) {
        Some(row) => marked_row(alloc, row, line == cursor, cols),
        None => Ok(Line::new(alloc)),
    }
}

/// Adds so many lines of a page of rows.
pub fn put_rows(
    alloc: Global,
    lines: &mut Lines,
    rows: &[Line],
    cursor: usize,
    size: usize,
    cols: usize,
) -> Result<(), NoMemory>
    ensures { OnOk result (plain_texts lines.new ≡ plain_texts lines.old
        ++ map (spec.row_line cols cursor (map (λ row. row.items) rows.now))
        (range_with_len 0 size)) }
{
    for line in 0..size {
        lines.push(row_line(alloc, rows, cursor, line, cols)?)?;
    }
    Ok(())
}

// Adds empty lines.
fn put_empty(alloc: Global, lines: &mut Lines, count: usize) -> Result<(), NoMemory>
    ensures { OnOk result
        (plain_texts lines.new ≡ plain_texts lines.old ++ spec.empty_lines count) }
{
    for _turn in 0..count {
        lines.push(Line::new(alloc))?;
    }
    Ok(())
}

/// So many empty lines.
pub fn empty_lines(alloc: Global, count: u16) -> Result<Lines, NoMemory>
    ensures { IfOk result (λ lines. plain_texts lines ≡ spec.empty_lines count) }
{
    let mut lines = Lines::new(alloc);
    put_empty(alloc, &mut lines, usize::from(count))?;
    Ok(lines)
}
