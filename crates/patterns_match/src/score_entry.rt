//! Entries of scores.

ghost use Rattle.std.specs.Prelude.{◌≤ℤ◌, neg_ℤ, pos};

use crate::pattern::Pattern;

/// What the messages that satisfy a pattern score.
#[derive(Drop)]
pub struct ScoreEntry {
    pub pattern: Pattern,
    pub value: i64,
    /// Whether the value stands in place of the sum, and no further entry counts.
    pub last: bool,
    ghost low: { neg_ℤ (pos 1_000_000) ≤ℤ value },
    ghost high: { value ≤ℤ pos 1_000_000 },
}
