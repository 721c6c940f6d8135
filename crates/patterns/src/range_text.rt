//! Texts of ranges of numbers in a pattern.

ghost use Rattle.std.specs.Prelude.{◌≡◌};
ghost use Rattle.patterns.specs.RangeTexts as spec;

use crate::number::{number_of, size_of};
use mail_base::split_once;
use patterns_match::Range;

/// How the numbers of a range are written.
#[derive(Clone, Copy, Debug, PartialEq, Eq)]
pub enum Measure {
    /// As digits.
    Count,
    /// With units for many bytes.
    Size,
}

fn measured(measure: Measure, text: &[u8]) -> Option<u64>
    ensures { result ≡ spec.measured measure text.now }
{
    match measure {
        Measure::Count => number_of(text),
        Measure::Size => size_of(text),
    }
}

// The range between two texts of which one may be empty.
fn between(measure: Measure, low: &[u8], high: &[u8]) -> Option<Range<u64>>
    ensures { result ≡ spec.between measure (low.now, high.now) }
{
    match (low, high) {
        ([], []) => None,
        ([], _) => Some(Range::UpTo(measured(measure, high)?)),
        (_, []) => Some(Range::From(measured(measure, low)?)),
        _ => Some(Range::Between(measured(measure, low)?, measured(measure, high)?)),
    }
}

/// The range that an argument writes.
pub fn read_range(measure: Measure, text: &[u8]) -> Option<Range<u64>>
    ensures { result ≡ spec.range_of measure text.now }
{
    match text {
        [] => None,
        [b'<', rest @ ..] => Some(Range::Below(measured(measure, rest)?)),
        [b'>', rest @ ..] => Some(Range::Above(measured(measure, rest)?)),
        _ => match split_once(b'-', text) {
            Some((low, high)) => between(measure, low, high),
            None => Some(Range::Exactly(measured(measure, text)?)),
        },
    }
}
