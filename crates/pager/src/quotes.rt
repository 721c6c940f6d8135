//! Lines that quote another message, and where the pieces of the others stand.

ghost use Rattle.std.specs.Prelude.{◌≡◌, ◌++◌, ◌-◌, OnOk};
ghost use Rattle.std.specs.List.{range_with_len};
ghost use Rattle.pager.specs.Quoted as spec;

use mail_base::{NoMemory, Series, without_blanks};

/// Whether the first non-blank of a line is `>`.
pub fn is_quoted(line: &[u8]) -> bool
    ensures { result ≡ spec.is_quoted line.now }
{
    matches!(without_blanks(line), [b'>', ..])
}

/// Adds the places from one up to another.
pub fn push_places(places: &mut Series<usize>, from: usize, to: usize) -> Result<(), NoMemory>
    ensures { OnOk result (places.new.items ≡ places.old.items ++ range_with_len from (to - from)) }
{
    for place in from..to {
        places.push(place)?;
    }
    Ok(())
}
