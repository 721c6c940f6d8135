//! The order of the index, and the numbers that the messages have by it.

ghost use Rattle.std.specs.Prelude.{◌≡◌, ◌<◌, List, length, map, IfOk};
ghost use Rattle.index_listed.specs.Listed.{plain_listed};
ghost use Rattle.index_listed.specs.Places.{numbers};
ghost use Rattle.index_view.specs.Ordering as spec;
ghost use Rattle.mail_base.specs.declared.kind.Id as id;

use index_listed::{Listed, Places};
use index_order::SortKeys;
use mail_base::NoMemory;
use patterns_match::Row;
use std::alloc::Global;

fn keys_at(
    alloc: Global,
    listed: &[Listed<'_>],
    rows: &[Row],
    place: usize,
) -> Result<SortKeys, NoMemory>
    requires listed { place < length listed.now }
    requires rows { place < length rows.now }
    ensures { IfOk result (λ k. k ≡ spec.key_at (map plain_listed listed.now) rows.now place) }
{
    let message = &listed[place];
    let size = message.text().len() as u64;
    let received = message.letter.received;
    let score = rows[place].score;
    SortKeys::of(alloc, message.id, received, score, size, message.header)
}

/// What the messages are sorted by.
pub fn keys(alloc: Global, listed: &[Listed<'_>], rows: &[Row]) -> Result<Vec<SortKeys>, NoMemory>
    requires { length rows.now ≡ length listed.now }
    ensures { IfOk result (λ k. k.items ≡ spec.keys (map plain_listed listed.now) rows.now) }
{
    let mut keys = Vec::with_capacity(alloc, listed.len())?;
    for place in 0..listed.len() {
        keys.push(keys_at(alloc, listed, rows, place)?)?;
    }
    Ok(keys)
}

// A message with its number.
fn with_number(places: &Places, row: Row) -> Row
    ensures { (order : List id.Id) → places.now ≡ numbers order
        → result ≡ spec.with_number order row }
{
    let number = match places.find(row.id) {
        Some(place) => place as u64 + 1,
        None => 0,
    };
    Row { number, ..row }
}

/// The messages with their numbers, by their places in the order.
pub fn numbered(alloc: Global, rows: &[Row], places: &Places) -> Result<Vec<Row>, NoMemory>
    ensures { (order : List id.Id) → places.now ≡ numbers order
        → IfOk result (λ all. all.items ≡ spec.numbered order rows.now) }
{
    let mut all = Vec::with_capacity(alloc, rows.len())?;
    let mut left = rows;
    while let [first, rest @ ..] = left {
        all.push(with_number(places, *first))?;
        left = rest;
    }
    Ok(all)
}
