//! Ranges of numbers or days in a pattern.

ghost use Rattle.std.specs.Prelude.{◌≡◌};
ghost use Rattle.patterns_match.specs.Ranges as spec;

/// A range of numbers or days, which holds its ends but those of `Below` and `Above`.
#[derive(Clone, Copy, Debug, PartialEq, Eq)]
pub enum Range<T> {
    Exactly(T),
    Between(T, T),
    UpTo(T),
    From(T),
    Below(T),
    Above(T),
}

impl Range<u64> {
    /// Whether the number lies in the range.
    pub fn holds(self, number: u64) -> bool
        ensures { result ≡ spec.holds self number }
    {
        match self {
            Range::Exactly(n) => number == n,
            Range::Between(low, high) => low <= number && number <= high,
            Range::UpTo(high) => number <= high,
            Range::From(low) => low <= number,
            Range::Below(n) => number < n,
            Range::Above(n) => n < number,
        }
    }
}
