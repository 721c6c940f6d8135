//! What a term asks of a message.

ghost use Rattle.std.specs.Prelude.{◌≡◌, true, false, IfOk, IsOk};
ghost use Rattle.patterns_match.specs.Asked.{plain_asked};
ghost use Rattle.patterns_match.specs.Entries.{plain_entry};
ghost use Rattle.patterns_match.specs.Kept.{IsKept, IsKeptAt};
ghost use Rattle.patterns_match.specs.Leaves as leaves;
ghost use Rattle.patterns_match.specs.Satisfies as spec;

use crate::asked::Asked;
use crate::body::attachments;
use crate::dates::is_dated;
use crate::entry::{Entry, entry_at};
use crate::kept::Kept;
use crate::letter::Number;
use crate::searched::is_searched;
use crate::table::Table;
use crate::tells::tells;
use mail_base::NoMemory;
use people::People;

fn number_of(kept: &mut Kept, number: Number, entry: &Entry<'_>) -> Result<u64, NoMemory>
    requires { IsKept (plain_entry entry.now).raw kept.old }
    ensures value { IfOk result (λ n. n ≡ spec.number_of (plain_entry entry.now) number) }
    ensures kept { IfOk result (λ _. IsKept (plain_entry entry.now).raw kept.new) }
    ensures memory { leaves.counts_parts number ≡ false → IsOk result }
{
    match number {
        Number::Place => Ok(entry.row.number),
        Number::Score => Ok(entry.row.score),
        Number::Attachments => attachments(kept, entry.raw),
        Number::Bytes => Ok(entry.row.size),
    }
}

fn asks_entry<T: Table>(
    kept: &mut Kept,
    asked: &Asked,
    offset: i32,
    place: usize,
    entry: &Entry<'_>,
    table: &T,
    people: &mut People,
) -> Result<bool, NoMemory>
    requires { IsKept (plain_entry entry.now).raw kept.old }
    ensures value { IfOk result (λ held. held ≡ spec.asks people.old offset (T.messages table.now)
        place (plain_entry entry.now) (plain_asked asked.now)) }
    ensures kept { IfOk result (λ _. IsKept (plain_entry entry.now).raw kept.new) }
    ensures same { people.new ≡ people.old }
    ensures memory { leaves.takes_none (plain_asked asked.now) ≡ true → IsOk result }
{
    match asked {
        Asked::Tells(mark) => tells(*mark, place, entry, table, people),
        Asked::Searches(field, sought) => is_searched(kept, *field, sought, entry),
        Asked::Dated(day, days) => Ok(is_dated(*day, *days, offset, entry)),
        Asked::Counts(number, range) => Ok(range.holds(number_of(kept, *number, entry)?)),
    }
}

/// What a term asks of the message at a place, where days are counted by an offset from UTC.
pub fn asks<T: Table>(
    kept: &mut Kept,
    asked: &Asked,
    offset: i32,
    place: usize,
    table: &T,
    people: &mut People,
) -> Result<bool, NoMemory>
    requires { IsKeptAt (T.messages table.now) place kept.old }
    ensures value { IfOk result (λ held. held ≡ spec.asks_at people.old offset
        (T.messages table.now) place (plain_asked asked.now)) }
    ensures kept { IfOk result (λ _. IsKeptAt (T.messages table.now) place kept.new) }
    ensures same { people.new ≡ people.old }
    ensures memory { leaves.takes_none (plain_asked asked.now) ≡ true → IsOk result }
{
    let Some(entry) = entry_at(place, table) else {
        return Ok(false);
    };
    asks_entry(kept, asked, offset, place, &entry, table, people)
}
