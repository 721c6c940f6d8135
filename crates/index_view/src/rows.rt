//! What is shown of the listed messages.

ghost use Rattle.std.specs.Prelude.{◌≡◌, ◌<◌, length, map, true, IfOk};
ghost use Rattle.index_items.specs.Items.{plain_items};
ghost use Rattle.index_listed.specs.Listed.{plain_listed};
ghost use Rattle.index_view.specs.Tables as spec;
ghost use Rattle.patterns_match.specs.ScoreEntries.{held_entries};

use crate::messages::Messages;
use index_items::Item;
use index_listed::{Links, Listed};
use mail_base::NoMemory;
use patterns_match::{Row, Scores};
use people::People;
use std::alloc::Global;

// What is shown of the message at a place but for its number and score.
fn first_row_at(listed: &[Listed<'_>], items: &[Item], links: &[Links], place: usize) -> Row
    requires listed { place < length listed.now }
    requires items { place < length items.now }
    requires links { place < length links.now }
    ensures { result ≡ spec.first_row_at (map plain_listed listed.now) (plain_items items.now)
        links.now place }
{
    let root = links[place].root;
    let item = items[place];
    let message = &listed[place];
    Row {
        id: message.id,
        number: 0,
        flags: item.shown(),
        deleted: item.pending.deleted,
        tagged: item.tagged,
        collapsed: root < items.len() && items[root].shut,
        score: 0,
        received: message.letter.received,
        size: message.text().len() as u64,
    }
}

/// What is shown of the messages but for numbers and scores.
pub fn first_rows(
    alloc: Global,
    listed: &[Listed<'_>],
    items: &[Item],
    links: &[Links],
) -> Result<Vec<Row>, NoMemory>
    requires items { length items.now ≡ length listed.now }
    requires links { length links.now ≡ length listed.now }
    ensures { IfOk result (λ rows. rows.items ≡ spec.first_rows (map plain_listed listed.now)
        (plain_items items.now) links.now) }
{
    let mut rows = Vec::with_capacity(alloc, listed.len())?;
    for place in 0..listed.len() {
        rows.push(first_row_at(listed, items, links, place))?;
    }
    Ok(rows)
}

// The message at a place with its score.
fn scored_at(
    alloc: Global,
    scores: &mut Scores,
    people: &mut People,
    messages: &Messages<'_>,
    rows: &[Row],
    place: usize,
) -> Result<Row, NoMemory>
    requires rows { place < length rows.now }
    requires messages { place < length (spec.seen_of messages.now) }
    ensures value { IfOk result (λ row. row ≡ spec.scored_at people.old
        (held_entries scores.old.entries.items) (spec.seen_of messages.now)
        rows.now place) }
    ensures same { (scores.new ≡ scores.old) × (people.new ≡ people.old) }
{
    let score = scores.score(alloc, place, messages, people)?;
    Ok(Row {
        score,
        ..rows[place]
    })
}

/// The messages with what each scores.
pub fn scored_rows(
    alloc: Global,
    scores: &mut Scores,
    people: &mut People,
    messages: &Messages<'_>,
    rows: &[Row],
) -> Result<Vec<Row>, NoMemory>
    requires { length (spec.seen_of messages.now) ≡ length rows.now }
    ensures value { IfOk result (λ all. all.items ≡ spec.scored_rows people.old
        (held_entries scores.old.entries.items) (spec.seen_of messages.now)
        rows.now) }
    ensures same { (scores.new ≡ scores.old) × (people.new ≡ people.old) }
{
    let mut all = Vec::with_capacity(alloc, rows.len())?;
    for place in 0..rows.len() {
        all.push(scored_at(alloc, scores, people, messages, rows, place)?)?;
    }
    Ok(all)
}

/// Whether messages score what they did.
pub fn score_alike(rows: &[Row], scored: &[Row]) -> bool
    requires { length rows.now ≡ length scored.now }
    ensures { result ≡ true → spec.ScoreAlike rows.now scored.now }
{
    for place in 0..rows.len() {
        if rows[place].score != scored[place].score {
            return false;
        }
    }
    true
}

/// The messages with their scores and with the numbers that they had.
pub fn renumbered(alloc: Global, rows: &[Row], scored: &[Row]) -> Result<Vec<Row>, NoMemory>
    requires { length rows.now ≡ length scored.now }
    ensures { IfOk result (λ all. all.items ≡ spec.renumbered rows.now scored.now) }
{
    let mut all = Vec::with_capacity(alloc, scored.len())?;
    for place in 0..scored.len() {
        let mut row = scored[place];
        row.number = rows[place].number;
        all.push(row)?;
    }
    Ok(all)
}
