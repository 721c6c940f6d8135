//! Bytes as text on one line.

ghost use Rattle.std.specs.Prelude.{◌≡◌, ◌++◌, map, IfOk, OnOk};
ghost use Rattle.drafts.specs.Clean as spec;

use crate::line_state::is_line_byte;
use mail_base::{Line, NoMemory, append_utf8};
use std::alloc::Global;

// A blank in place of LF and CR.
fn on_line(byte: u8) -> u8
    ensures { result ≡ spec.on_line byte }
{
    if is_line_byte(byte) { byte } else { b' ' }
}

fn without_line_ends(alloc: Global, bytes: &[u8]) -> Result<Vec<u8>, NoMemory>
    ensures { IfOk result (λ v. v.items ≡ map spec.on_line bytes.now) }
{
    Ok(bytes.iter().map(|b| on_line(*b)).collect(alloc)?)
}

/// Adds the bytes at the end of the line, as UTF-8 with a blank in place of each LF and CR and a
/// `?` in place of each malformed byte. For want of memory their front may stand there.
pub fn append_clean(alloc: Global, line: &mut Line, bytes: &[u8]) -> Result<(), NoMemory>
    ensures { OnOk result (line.new.items ≡ line.old.items ++ spec.clean bytes.now) }
{
    let text = without_line_ends(alloc, bytes)?;
    append_utf8(line, text.as_slice())
}

/// The bytes as a text that a draft may hold.
pub fn cleaned(alloc: Global, bytes: &[u8]) -> Result<Line, NoMemory>
    ensures { IfOk result (λ line. line.items ≡ spec.clean bytes.now) }
{
    let mut line = Line::new(alloc);
    append_clean(alloc, &mut line, bytes)?;
    Ok(line)
}
