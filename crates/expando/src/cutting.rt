//! Texts cut at display columns (Unicode Standard Annex 11).

ghost use Rattle.std.specs.Prelude.{◌≡◌, ◌≤◌, ◌++◌, not, true, IfOk, OnOk};
ghost use Rattle.std.specs.List.{list_all};
ghost use Rattle.expando.specs.Columns.{columns_in, is_control};
ghost use Rattle.expando.specs.Cut as spec;

use crate::columns::{columns_of, shown_char};
use crate::line::push_blank;
use mail_base::{Line, NoMemory};
use std::alloc::Global;

/// A text as a line of the screen shows it: a control character shows as a question mark, and the
/// line is cut at the columns, where a blank stands for a wide character that does not fit.
#[tactic(auto, using(crate::proofs::Fitting::text_fits, crate::proofs::Fitting::text_plain))]
pub fn cut(alloc: Global, text: &str, cols: usize) -> Result<Line, NoMemory>
    ensures line { IfOk result (λ line. line.items ≡ spec.cut cols text.now) }
    ensures fits { columns_in (spec.shown cols text.now) ≤ cols }
    ensures plain { list_all (λ c. not (is_control c)) (spec.shown cols text.now) ≡ true }
{
    let mut line = Line::new(alloc);
    append_fitting(&mut line, text, cols)?;
    Ok(line)
}

// Adds the characters at the front that fit the columns.
fn append_fitting(line: &mut Line, text: &str, cols: usize) -> Result<(), NoMemory>
    ensures { OnOk result (line.new.items ≡ line.old.items ++ spec.cut cols text.now) }
{
    let mut left = cols;
    for c in text.chars() {
        let shown = shown_char(c);
        let columns = columns_of(shown);
        if left < columns {
            return push_blank(line, left);
        }
        line.push_char(shown)?;
        left -= columns;
    }
    Ok(())
}
