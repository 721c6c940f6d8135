//! What decides how the listed messages are seen.

ghost use Rattle.std.specs.Prelude.{◌≡◌, ◌<◌, length, IfOk};
ghost use Rattle.index_view.specs.Marks as spec;

use index_listed::Mark;
use mail_base::NoMemory;
use patterns_match::Row;
use std::alloc::Global;

fn mark_of(rows: &[Row], within: &[bool], place: usize) -> Mark
    requires { place < length rows.now }
    ensures { result ≡ spec.mark_of rows.now within.now place }
{
    let row = rows[place];
    Mark {
        satisfies: within.get(place).copied().unwrap_or(false),
        is_shut: row.collapsed,
        is_new: row.flags.is_new(),
        is_old: row.flags.is_old(),
    }
}

/// The marks of the messages, by their rows and by which of them satisfy the limit.
pub fn marks(alloc: Global, rows: &[Row], within: &[bool]) -> Result<Vec<Mark>, NoMemory>
    ensures { IfOk result (λ marks. marks.items ≡ spec.marks_of rows.now within.now) }
{
    let mut marks = Vec::with_capacity(alloc, rows.len())?;
    for place in 0..rows.len() {
        marks.push(mark_of(rows, within, place))?;
    }
    Ok(marks)
}
