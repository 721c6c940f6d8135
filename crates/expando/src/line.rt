//! Lines that are filled and cut at their columns.

ghost use Rattle.std.specs.Prelude.{◌≡◌, ◌<◌, ◌++◌, replicate, OnOk};
ghost use Rattle.std.specs.Str.{encode_utf8_all};
ghost use Rattle.expando.specs.Columns.{columns_of};
ghost use Rattle.expando.specs.Lines as spec;

use crate::cell::Cell;
use crate::columns::columns_of;
use mail_base::{Line, NoMemory};

#[tactic(auto, using(crate::proofs::LineLemmas::times_next))]
fn push_times(line: &mut Line, c: char, count: usize) -> Result<(), NoMemory>
    ensures { OnOk result (line.new.items
        ≡ line.old.items ++ encode_utf8_all (replicate count c)) }
{
    for _i in 0..count {
        line.push_char(c)?;
    }
    Ok(())
}

// The character that fills: a blank for one that takes no column.
#[tactic(auto, using(crate::proofs::LineLemmas::blank_width))]
fn filler(c: char) -> char
    ensures value { result ≡ spec.filler c }
    ensures some { 0 < columns_of result }
{
    if columns_of(c) == 0 { ' ' } else { c }
}

// Fills columns with a character as often as it fits, and then with blanks.
#[tactic(auto, using(crate::proofs::LineLemmas::added_twice))]
fn push_filled(line: &mut Line, c: char, count: usize) -> Result<(), NoMemory>
    ensures { OnOk result (line.new.items
        ≡ line.old.items ++ encode_utf8_all (spec.filled c count)) }
{
    let c = filler(c);
    let columns = columns_of(c);
    push_times(line, c, count / columns)?;
    push_times(line, ' ', count % columns)
}

/// Adds a blank where a column is left.
pub fn push_blank(line: &mut Line, left: usize) -> Result<(), NoMemory>
    ensures { OnOk result (line.new.items
        ≡ line.old.items ++ encode_utf8_all (spec.blank_in left)) }
{
    push_times(line, ' ', left.min(1))
}

// How many columns are left for a gap.
fn spare(cells: &[Cell], cols: usize) -> usize
    ensures { result ≡ spec.spare cols cells.now }
{
    let mut left = cols;
    let mut rest = cells;
    while let [cell, behind @ ..] = rest {
        match *cell {
            Cell::Shown(c) => left = left.saturating_sub(columns_of(c)),
            Cell::Gap(_) => {}
            Cell::Rest(_) => return 0,
        }
        rest = behind;
    }
    left
}

// Adds the characters of a line of so many columns, of which the first gap takes so many.
#[tactic(auto, using(crate::proofs::LineLemmas::added_twice))]
fn push_laid(line: &mut Line, cells: &[Cell], cols: usize, gap: usize) -> Result<(), NoMemory>
    ensures { OnOk result (line.new.items
        ≡ line.old.items ++ encode_utf8_all (spec.laid gap cols cells.now)) }
{
    let mut left = cols;
    let mut gap = gap;
    let mut rest = cells;
    while let [cell, behind @ ..] = rest {
        match *cell {
            Cell::Shown(c) => {
                let columns = columns_of(c);
                if left < columns {
                    return push_blank(line, left);
                }
                line.push_char(c)?;
                left -= columns;
            }
            Cell::Gap(c) => {
                let columns = gap.min(left);
                push_filled(line, c, columns)?;
                left -= columns;
                gap = 0;
            }
            Cell::Rest(c) => {
                push_filled(line, c, left)?;
                left = 0;
            }
        }
        rest = behind;
    }
    Ok(())
}

/// Adds the characters of a line of so many columns.
pub fn push_line(line: &mut Line, cells: &[Cell], cols: usize) -> Result<(), NoMemory>
    ensures { OnOk result (line.new.items
        ≡ line.old.items ++ encode_utf8_all (spec.line_chars cols cells.now)) }
{
    push_laid(line, cells, cols, spare(cells, cols))
}
