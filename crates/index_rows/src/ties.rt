//! What a message is to its reader.

ghost use Rattle.std.specs.Prelude.{◌≡◌, map, option_map, IfOk};
ghost use Rattle.headers.specs.Header.{plain_header};
ghost use Rattle.headers.specs.Person.{plain_person};
ghost use Rattle.index_rows.specs.Ties as spec;

use headers::{Header, Person};
use mail_base::{Bytes, NoMemory};
use people::{People, PeopleTable};
use std::alloc::Global;

/// What the tables of people tell of a message, which is kept so that making rows asks nobody.
#[derive(Drop)]
pub struct Ties {
    /// Its place in `to_chars`.
    pub place: u8,
    /// Whether the first author is the reader.
    pub from_reader: bool,
    /// The first address to which it was sent that is a list to which the reader subscribes.
    pub list: Option<Bytes>,
}

impl Ties {
    /// What the tables tell of a message with this header.
    pub fn of(alloc: Global, people: &mut People, header: &Header) -> Result<Ties, NoMemory>
        ensures value { IfOk result
            (λ ties. spec.plain_ties ties ≡ spec.ties_of people.old (plain_header header.now)) }
        ensures same { people.new ≡ people.old }
    {
        let place = people.to_char(header)?;
        let from_reader = is_author(people, header)?;
        let list = list_of(alloc, people, header)?;
        Ok(Ties {
            place,
            from_reader,
            list,
        })
    }
}

// Whether the first author is the reader.
fn is_author(people: &mut People, header: &Header) -> Result<bool, NoMemory>
    ensures value { IfOk result (λ found. found
        ≡ spec.is_from_reader people.old (plain_header header.now)) }
    ensures same { people.new ≡ people.old }
{
    match header.authors.as_slice() {
        [author, ..] => people.is_in(PeopleTable::Mine, author.address.as_slice()),
        [] => Ok(false),
    }
}

// The first address to which the message was sent that is a list to which the reader subscribes.
#[tactic(auto, using(crate::proofs::TiesLemmas::among_both))]
fn list_of(alloc: Global, people: &mut People, header: &Header) -> Result<Option<Bytes>, NoMemory>
    ensures value { IfOk result (λ list. option_map (λ address. address.items) list
        ≡ spec.list_of people.old (plain_header header.now)) }
    ensures same { people.new ≡ people.old }
{
    if let Some(list) = list_among(alloc, people, header.to.as_slice())? {
        return Ok(Some(list));
    }
    list_among(alloc, people, header.cc.as_slice())
}

// The same among some persons.
fn list_among(
    alloc: Global,
    people: &mut People,
    persons: &[Person],
) -> Result<Option<Bytes>, NoMemory>
    ensures value { IfOk result (λ list. option_map (λ address. address.items) list
        ≡ spec.list_among people.old (map plain_person persons.now)) }
    ensures same { people.new ≡ people.old }
{
    let mut left = persons;
    while let [first, rest @ ..] = left {
        let address = first.address.as_slice();
        if people.is_in(PeopleTable::Subscribed, address)? {
            return Ok(Some(Bytes::copy_of(alloc, address)?));
        }
        left = rest;
    }
    Ok(None)
}
