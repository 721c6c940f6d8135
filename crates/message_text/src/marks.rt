//! Lines that stand for what is not shown, or before it.

ghost use Rattle.std.specs.Prelude.{◌≡◌, ◌+◌, ◌<◌, ◌^◌, ◌++◌, IfOk, OnOk};
ghost use Rattle.std.specs.Fmt.{decimal};
ghost use Rattle.mail_base.specs.Series.{plain_texts};
ghost use Rattle.message_text.specs.Branch.{mark_before};
ghost use Rattle.message_text.specs.Marks as spec;

use mail_base::{Line, Lines, NoMemory, append_utf8};
use std::alloc::Global;

/// Adds a number in decimal digits.
pub fn append_number(alloc: Global, line: &mut Line, number: usize) -> Result<(), NoMemory>
    ensures { OnOk result (line.new.items ≡ line.old.items ++ decimal number) }
{
    let digits = number.to_string(alloc)?;
    line.append(&digits)
}

/// The line in place of a part of the type.
pub fn unsupported_mark(alloc: Global, content: &[u8]) -> Result<Line, NoMemory>
    ensures { IfOk result (λ l. l.items ≡ spec.unsupported_mark content.now) }
{
    let mut line = Line::new(alloc);
    line.append("[-- ")?;
    append_utf8(&mut line, content)?;
    line.append(" is unsupported --]")?;
    Ok(line)
}

// The line before the part of the number.
fn part_mark(alloc: Global, number: usize, content: &[u8]) -> Result<Line, NoMemory>
    ensures { IfOk result (λ l. l.items ≡ spec.part_mark number content.now) }
{
    let mut line = Line::new(alloc);
    line.append("[-- Part ")?;
    append_number(alloc, &mut line, number)?;
    line.append(": ")?;
    append_utf8(&mut line, content)?;
    line.append(" --]")?;
    Ok(line)
}

/// Adds the line before a part, before which so many siblings stand; the first has none.
pub fn add_mark_before(
    alloc: Global,
    lines: &mut Lines,
    before: usize,
    content: &[u8],
) -> Result<(), NoMemory>
    requires { before + 1 < 2 ^ 64 }
    ensures { OnOk result (plain_texts lines.new
        ≡ plain_texts lines.old ++ mark_before before content.now) }
{
    if before == 0 {
        return Ok(());
    }
    lines.push(part_mark(alloc, before + 1, content)?)
}

/// The line before a body whose parts nest too deep.
pub fn deep_mark(alloc: Global) -> Result<Line, NoMemory>
    ensures { IfOk result (λ l. l.items ≡ spec.deep_mark) }
{
    let mut line = Line::new(alloc);
    line.append("[-- Nesting too deep --]")?;
    Ok(line)
}
