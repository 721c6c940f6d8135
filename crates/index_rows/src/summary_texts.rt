//! The texts of the letters of the status line.

ghost use Rattle.std.specs.Prelude.{◌≡◌, IfOk};
ghost use Rattle.index_rows.specs.Summary.{plain_summary};
ghost use Rattle.index_rows.specs.Summary as spec;

use crate::summary::Summary;
use crate::text::{number_text, shown};
use mail_base::{Line, NoMemory};
use std::alloc::Global;

// Read only, changed, or as it is stored.
fn state_text(alloc: Global, summary: &Summary<'_>) -> Result<Line, NoMemory>
    ensures { IfOk result (λ line. line.items ≡ spec.state_text (plain_summary summary.now)) }
{
    let mut line = Line::new(alloc);
    match (summary.read_only, summary.changed) {
        (true, _) => line.push(b'%')?,
        (false, true) => line.push(b'*')?,
        (false, false) => line.push(b'-')?,
    }
    Ok(line)
}

// The text of the limit.
fn limit_text(alloc: Global, summary: &Summary<'_>) -> Result<Line, NoMemory>
    ensures { IfOk result (λ line. line.items ≡ spec.limit_text (plain_summary summary.now)) }
{
    match summary.limit {
        Some(text) => shown(alloc, text),
        None => shown(alloc, b""),
    }
}

// How many messages are visible, where there is a limit.
fn visible_text(alloc: Global, summary: &Summary<'_>) -> Result<Line, NoMemory>
    ensures { IfOk result (λ line. line.items ≡ spec.visible_text (plain_summary summary.now)) }
{
    match summary.limit {
        Some(_) => number_text(alloc, summary.visible),
        None => Ok(Line::new(alloc)),
    }
}

// Where the page stands among the visible messages.
fn page_text(alloc: Global, summary: &Summary<'_>) -> Result<Line, NoMemory>
    ensures { IfOk result (λ line. line.items ≡ spec.page_text (plain_summary summary.now)) }
{
    let Summary {
        visible,
        before,
        last,
        ..
    } = *summary;
    let mut line = Line::new(alloc);
    match (before == 0, last >= visible) {
        (true, true) => line.append("all")?,
        (true, false) => line.append("top")?,
        (false, true) => line.append("end")?,
        (false, false) => {
            let part = 100 * u128::from(last) / u128::from(visible);
            let digits = part.to_string(alloc)?;
            line.append(&digits)?;
            line.push(b'%')?;
        }
    }
    Ok(line)
}

/// The text of a letter.
#[tactic(auto, unfolding(crate::specs::Summary::summary_text))]
pub fn summary_text(alloc: Global, summary: &Summary<'_>, letter: u8) -> Result<Line, NoMemory>
    ensures { IfOk result
        (λ line. line.items ≡ spec.summary_text (plain_summary summary.now) letter) }
{
    match letter {
        b'f' => shown(alloc, summary.path),
        b'r' => state_text(alloc, summary),
        b'm' => number_text(alloc, summary.count),
        b'M' => visible_text(alloc, summary),
        b'n' => number_text(alloc, summary.new),
        b'o' => number_text(alloc, summary.old),
        b'u' => number_text(alloc, summary.unread),
        b'd' => number_text(alloc, summary.deleted),
        b'F' => number_text(alloc, summary.flagged),
        b't' => number_text(alloc, summary.tagged),
        b'V' => limit_text(alloc, summary),
        b's' => shown(alloc, summary.sort),
        b'S' => shown(alloc, summary.sort_aux),
        b'P' => page_text(alloc, summary),
        _ => Ok(Line::new(alloc)),
    }
}
