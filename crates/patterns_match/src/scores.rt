//! Scores of messages.

ghost use Rattle.std.specs.Prelude.{◌≡◌, ◌+◌, ◌≤◌, ◌<◌, ◌+ℤ◌, ◌≤ℤ◌, ◌++◌, ◌∷◌, [], length, neg_ℤ};
ghost use Rattle.std.specs.Prelude.{pos, IfOk, OnOk, OnErr};
ghost use Rattle.patterns_match.specs.Pattern.{pattern_tree};
ghost use Rattle.patterns_match.specs.ScoreEntries.{held_entries};
ghost use Rattle.patterns_match.specs.Scores as spec;

use crate::asking::is_matched;
use crate::may_score::may_score;
use crate::pattern::Pattern;
use crate::score_entry::ScoreEntry;
use crate::score_error::ScoreError;
use crate::table::Table;
use mail_base::NoMemory;
use people::People;
use std::alloc::Global;

/// How many entries there may be.
pub const MOST_SCORES: usize = 4_096;

/// The greatest value of an entry; the least is its negative.
pub const GREATEST_SCORE: u32 = 1_000_000;

/// What messages score by the patterns that they satisfy.
#[derive(Drop)]
pub struct Scores {
    pub entries: Vec<ScoreEntry>,
    ghost few: { length entries.items ≤ 4_096 },
}

fn sum_with(sum: i64, entry: &ScoreEntry) -> i64
    requires low { neg_ℤ (pos 8_000_000_000) ≤ℤ sum }
    requires high { sum ≤ℤ pos 8_000_000_000 }
    ensures { result ≡ sum +ℤ entry.now.value }
{
    sum + entry.value
}

// The sum of the entries that count for the message at a place.
fn total<T: Table>(
    alloc: Global,
    entries: &[ScoreEntry],
    place: usize,
    table: &T,
    people: &mut People,
) -> Result<i64, NoMemory>
    requires { length entries.now ≤ 4_096 }
    ensures value { IfOk result (λ sum. sum ≡ spec.total
        (spec.counts people.old (T.messages table.now) place) (pos 0) (held_entries entries.now)) }
    ensures same { people.new ≡ people.old }
{
    let mut sum = 0;
    let mut left = entries;
    while let Some((first, rest)) = left.split_first() {
        left = rest;
        if !is_matched(alloc, &first.pattern, place, table, people)? {
            continue;
        }
        if first.last {
            return Ok(first.value);
        }
        sum = sum_with(sum, first);
    }
    Ok(sum)
}

impl Scores {
    pub fn new(alloc: Global) -> Self
        ensures { result.entries.items ≡ [] }
    {
        Scores {
            entries: Vec::new(alloc),
        }
    }

    /// Adds what the messages that satisfy a pattern score; where `last`, the value stands in place
    /// of the sum and no further entry counts.
    pub fn add(&mut self, pattern: Pattern, value: i64, last: bool) -> Result<(), ScoreError>
        ensures ok { OnOk result (held_entries self.new.entries.items
            ≡ held_entries self.old.entries.items ++ spec.plain_entry pattern value last ∷ []) }
        ensures err { OnErr result (self.new.entries.items ≡ self.old.entries.items) }
        ensures cause { spec.Answers result
            (spec.refusal (pattern_tree pattern) value (length self.old.entries.items)) }
    {
        if !may_score(&pattern) {
            return Err(ScoreError::NotHere);
        }
        let greatest = i64::from(GREATEST_SCORE);
        if value < -greatest || value > greatest {
            return Err(ScoreError::OutOfRange);
        }
        if self.entries.len() >= MOST_SCORES {
            return Err(ScoreError::TooMany);
        }
        push(&mut self.entries, pattern, value, last)?;
        Ok(())
    }

    /// The score of the message at a place.
    pub fn score<T: Table>(
        &mut self,
        alloc: Global,
        place: usize,
        table: &T,
        people: &mut People,
    ) -> Result<u64, NoMemory>
        requires { place < length (T.messages table.now) }
        ensures value { IfOk result (λ score. score
            ≡ spec.score people.old (T.messages table.now) (held_entries self.old.entries.items)
            place) }
        ensures same { (self.new ≡ self.old) × (people.new ≡ people.old) }
    {
        let total = total(alloc, self.entries.as_slice(), place, table, people)?;
        Ok(not_negative(total))
    }
}

fn not_negative(number: i64) -> u64
    ensures { result ≡ spec.not_negative number }
{
    if number < 0 { 0 } else { number as u64 }
}

// Adds an entry at the end.
fn push(
    entries: &mut Vec<ScoreEntry>,
    pattern: Pattern,
    value: i64,
    last: bool,
) -> Result<(), NoMemory>
    requires low { neg_ℤ (pos 1_000_000) ≤ℤ value }
    requires high { value ≤ℤ pos 1_000_000 }
    ensures ok { OnOk result (held_entries entries.new.items
        ≡ held_entries entries.old.items ++ spec.plain_entry pattern value last ∷ []) }
    ensures len { OnOk result (length entries.new.items ≡ length entries.old.items + 1) }
    ensures err { OnErr result (entries.new.items ≡ entries.old.items) }
{
    let entry = ScoreEntry {
        pattern,
        value,
        last,
    };
    entries.push(entry)?;
    Ok(())
}
