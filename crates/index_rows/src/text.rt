//! Numbers and bytes as text.

ghost use Rattle.std.specs.Prelude.{◌≡◌, IfOk};
ghost use Rattle.std.specs.Fmt.{decimal};
ghost use Rattle.mail_base.specs.Shown.{utf8_text};

use mail_base::{Line, NoMemory, append_utf8};
use std::alloc::Global;

/// A number in decimal digits.
pub fn number_text(alloc: Global, number: u64) -> Result<Line, NoMemory>
    ensures { IfOk result (λ line. line.items ≡ decimal number) }
{
    let digits = number.to_string(alloc)?;
    let mut line = Line::new(alloc);
    line.append(&digits)?;
    Ok(line)
}

/// Bytes as UTF-8.
pub fn shown(alloc: Global, bytes: &[u8]) -> Result<Line, NoMemory>
    ensures { IfOk result (λ line. line.items ≡ utf8_text bytes.now) }
{
    let mut line = Line::new(alloc);
    append_utf8(&mut line, bytes)?;
    Ok(line)
}
