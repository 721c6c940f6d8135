//! The lines of a text, broken, and where the pieces of those stand that quote nothing.

ghost use Rattle.std.specs.Prelude.{◌≡◌, ◌++◌, length, map, true, OnOk};
ghost use Rattle.std.specs.List.{list_all};
ghost use Rattle.pager.specs.Broken.{broken, is_shown};
ghost use Rattle.pager.specs.Inner.{fresh, size_in, unquoted_at, unquoted_places};
ghost use Rattle.pager.specs.Pager.{broken_lines};

use crate::breaker::Breaker;
use crate::quotes::{is_quoted, push_places};
use mail_base::{Line, NoMemory, Series};

// Breaks a line, and notes where its pieces stand if it quotes nothing.
fn break_line(
    breaker: &mut Breaker,
    unquoted: &mut Series<usize>,
    line: &Line,
) -> Result<(), NoMemory>
    requires { breaker.old ≡ fresh breaker.old.cols breaker.old.done }
    ensures pieces { OnOk result (breaker.new ≡ fresh breaker.old.cols
        (breaker.old.done ++ broken breaker.old.cols line.now.items)) }
    ensures shown { list_all (is_shown breaker.old.cols)
        (broken breaker.old.cols line.now.items) ≡ true }
    ensures places { OnOk result (unquoted.new.items ≡ unquoted.old.items
        ++ unquoted_at breaker.old.cols (length breaker.old.done) line.now.items) }
{
    let from = breaker.len();
    breaker.break_line(line.as_str())?;
    if is_quoted(line.as_slice()) {
        return Ok(());
    }
    push_places(unquoted, from, breaker.len())?;
    Ok(())
}

// How many bytes lines have in all, as far as a number goes.
fn size_of(lines: &[Line]) -> usize
    ensures { result ≡ size_in (map (λ line. line.items) lines.now) }
{
    let mut size: usize = 0;
    for line in lines {
        size = size.saturating_add(line.len());
    }
    size
}

/// Makes room for a piece of each line, and for all their bytes.
pub fn make_room(
    breaker: &mut Breaker,
    unquoted: &mut Series<usize>,
    lines: &[Line],
) -> Result<(), NoMemory>
    ensures breaker { breaker.new ≡ breaker.old }
    ensures unquoted { unquoted.new.items ≡ unquoted.old.items }
{
    breaker.reserve(lines.len(), size_of(lines))?;
    unquoted.reserve(lines.len())
}

/// Breaks lines, and notes where the pieces of those stand that quote nothing.
pub fn break_lines(
    breaker: &mut Breaker,
    unquoted: &mut Series<usize>,
    lines: &[Line],
) -> Result<(), NoMemory>
    requires fresh { breaker.old ≡ fresh breaker.old.cols breaker.old.done }
    requires shown { list_all (is_shown breaker.old.cols) breaker.old.done ≡ true }
    ensures pieces { OnOk result (breaker.new ≡ fresh breaker.old.cols (breaker.old.done
        ++ broken_lines breaker.old.cols (map (λ line. line.items) lines.now))) }
    ensures shown { OnOk result
        (list_all (is_shown breaker.old.cols) breaker.new.done ≡ true) }
    ensures places { OnOk result (unquoted.new.items ≡ unquoted.old.items
        ++ unquoted_places breaker.old.cols (length breaker.old.done)
        (map (λ line. line.items) lines.now)) }
{
    for line in lines {
        break_line(breaker, unquoted, line)?;
    }
    Ok(())
}
