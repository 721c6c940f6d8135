//! The letters without an argument.

ghost use Rattle.std.specs.Prelude.{◌≡◌, ◌++◌, ◌<◌, false, length, map, slice_get, IfOk, IsOk};
ghost use Rattle.headers.specs.Person.{plain_person, plain_persons};
ghost use Rattle.people.specs.People as tables;
ghost use Rattle.patterns_match.specs.Entries.{plain_entry};
ghost use Rattle.patterns_match.specs.Leaves.{asks_people};
ghost use Rattle.patterns_match.specs.Satisfies as spec;

use crate::entry::Entry;
use crate::letter::Mark;
use crate::table::Table;
use headers::{Header, Person};
use mail_base::NoMemory;
use people::{People, PeopleTable};

// Whether a table holds the address of one of the persons.
fn any_in(table: PeopleTable, persons: &[Person], people: &mut People) -> Result<bool, NoMemory>
    ensures value { IfOk result
        (λ found. found ≡ tables.any_in people.old table (map plain_person persons.now)) }
    ensures same { people.new ≡ people.old }
{
    let mut left = persons;
    while let [first, rest @ ..] = left {
        if people.is_in(table, first.address.as_slice())? {
            return Ok(true);
        }
        left = rest;
    }
    Ok(false)
}

// The same of those to whom a message goes.
fn any_to(table: PeopleTable, header: &Header, people: &mut People) -> Result<bool, NoMemory>
    ensures value { IfOk result (λ found. found ≡ tables.any_in people.old table
        (plain_persons header.now.to ++ plain_persons header.now.cc)) }
    ensures same { people.new ≡ people.old }
{
    if any_in(table, header.to.as_slice(), people)? {
        return Ok(true);
    }
    any_in(table, header.cc.as_slice(), people)
}

// Whether the other message, of those in the table, is a child of the one at the place.
#[tactic(auto, using(crate::proofs::ListingLemmas::parent_passes))]
pub fn is_child<T: Table>(place: usize, other: usize, table: &T) -> bool
    requires { other < length (T.messages table.now) }
    ensures { result ≡ spec.passes (λ m. spec.is_place place m.parent)
        (slice_get (T.messages table.now) other) }
{
    match table.parent(other) {
        Some(parent) => place == parent,
        None => false,
    }
}

// Whether some message is a child of the one at the place.
fn has_child<T: Table>(place: usize, table: &T) -> bool
    ensures { result ≡ spec.has_child (T.messages table.now) place }
{
    for other in 0..table.len() {
        if is_child(place, other, table) {
            return true;
        }
    }
    false
}

/// What a letter without an argument tells of the message at a place. Whether it has no child is
/// asked of each message.
pub fn tells<T: Table>(
    mark: Mark,
    place: usize,
    entry: &Entry<'_>,
    table: &T,
    people: &mut People,
) -> Result<bool, NoMemory>
    ensures value { IfOk result (λ held. held ≡ spec.tells people.old (T.messages table.now) place
        (plain_entry entry.now) mark) }
    ensures same { people.new ≡ people.old }
    ensures memory { asks_people mark ≡ false → IsOk result }
{
    let flags = entry.row.flags;
    match mark {
        Mark::All => Ok(true),
        Mark::Deleted => Ok(entry.row.deleted),
        Mark::Flagged => Ok(flags.flagged),
        Mark::New => Ok(flags.is_new()),
        Mark::Old => Ok(flags.is_old()),
        Mark::Replied => Ok(flags.replied),
        Mark::Read => Ok(flags.seen),
        Mark::Tagged => Ok(entry.row.tagged),
        Mark::Unread => Ok(!flags.seen),
        Mark::KnownList => any_to(PeopleTable::Lists, entry.header, people),
        Mark::Subscribed => any_to(PeopleTable::Subscribed, entry.header, people),
        Mark::ToMe => any_to(PeopleTable::Mine, entry.header, people),
        Mark::FromMe => any_in(PeopleTable::Mine, entry.header.authors.as_slice(), people),
        Mark::Collapsed => Ok(entry.row.collapsed),
        Mark::Duplicate => Ok(entry.duplicate),
        Mark::Childless => Ok(!has_child(place, table)),
    }
}
