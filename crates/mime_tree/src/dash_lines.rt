//! The lines of a message that begin with two dashes, by the places where they start.

ghost use Rattle.std.specs.Prelude.{◌≡◌, ◌≤◌, ◌<◌, nat_le, length, position, is_some, IfOk, IfSome};
ghost use Rattle.bstr.specs.Text.{lines_of};
ghost use Rattle.mime_tree.specs.DashLines as spec;

use bstr::ByteSlice;
use mail_base::{NoMemory, behind_text, without_line_end};
use std::alloc::Global;

// Whether the line begins with two dashes.
fn is_dashed(line: &[u8]) -> bool
    ensures { result ≡ is_some (spec.behind_dashes line.now) }
{
    behind_text(b"--", without_line_end(line)).is_some()
}

/// Where the lines of a message start that begin with two dashes.
pub fn read_dash_starts(alloc: Global, raw: &[u8]) -> Result<Vec<usize>, NoMemory>
    ensures { IfOk result (λ v. v.items ≡ spec.dash_starts 0 (lines_of raw.now)) }
{
    let mut found = Vec::new(alloc);
    let mut start = 0;
    for line in raw.lines_with_terminator() {
        if is_dashed(line) {
            found.push(start)?;
        }
        start += line.len();
    }
    Ok(found)
}

fn first_from(place: usize, starts: &[usize]) -> Option<usize>
    ensures value { result ≡ position (λ at. nat_le place at) starts.now }
    ensures within { IfSome result (λ index. index < length starts.now) }
{
    starts.iter().position(|at| place <= *at)
}

/// The places from the first on that is a place or behind it.
pub fn starts_from(place: usize, starts: &[usize]) -> &[usize]
    ensures { result.now ≡ spec.starts_from place starts.now }
{
    match first_from(place, starts) {
        Some(index) => &starts[index..],
        None => &[],
    }
}
