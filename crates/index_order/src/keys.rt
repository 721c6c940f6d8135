//! What a message is sorted by.

ghost use Rattle.std.specs.Prelude.{◌≡◌, map, IfOk};
ghost use Rattle.std.specs.Str.{str_to_ascii_lowercase};
ghost use Rattle.headers.specs.Header.{plain_header};
ghost use Rattle.headers.specs.Person.{plain_persons, plain_person};
ghost use Rattle.index_order.specs.Inner.{plain_placed};
ghost use Rattle.index_order.specs.Keys as spec;

use crate::options::Sort;
use headers::{Header, Person};
use mail_base::{Bytes, Id, NoMemory};
use std::alloc::Global;
use std::cmp::Ordering;
use std::marker::Model;

/// What a message is sorted by, which contracts see without the rooms of its texts.
#[derive(Drop)]
pub struct SortKeys {
    id: Id,
    sent: i64,
    received: i64,
    score: u64,
    size: u64,
    author: Bytes,
    recipient: Bytes,
    subject: Bytes,
}

impl Model for SortKeys {
    ghost use Rattle.index_order.specs.Keys.{PlainKeys};

    ghost Value = { PlainKeys };

    ghost view = { λ k. record {
      id = k.id;
      sent = k.sent;
      received = k.received;
      score = k.score;
      size = k.size;
      author = k.author.items;
      recipient = k.recipient.items;
      subject = k.subject.items;
    } };
}

fn lowered(alloc: Global, text: &[u8]) -> Result<Bytes, NoMemory>
    ensures { IfOk result (λ b. b.items ≡ str_to_ascii_lowercase text.now) }
{
    Ok(Bytes::from_vec(text.to_ascii_lowercase(alloc)?))
}

fn first_address(alloc: Global, persons: &[Person]) -> Result<Bytes, NoMemory>
    ensures { IfOk result (λ b. b.items ≡ spec.first_address (map plain_person persons.now)) }
{
    match persons {
        [person, ..] => lowered(alloc, person.address.as_slice()),
        [] => Ok(Bytes::new(alloc)),
    }
}

impl SortKeys {
    /// What the message with a header is sorted by. `received` is seconds since 1970 in UTC.
    pub fn of(
        alloc: Global,
        id: Id,
        received: i64,
        score: u64,
        size: u64,
        header: &Header,
    ) -> Result<SortKeys, NoMemory>
        ensures { IfOk result
            (λ k. k ≡ spec.keys_of id received score size (plain_header header.now)) }
    {
        Ok(SortKeys {
            id,
            sent: match header.sent {
                Some(date) => date.seconds,
                None => received,
            },
            received,
            score,
            size,
            author: first_address(alloc, header.authors.as_slice())?,
            recipient: first_address(alloc, header.to.as_slice())?,
            subject: lowered(alloc, header.base_subject.as_slice())?,
        })
    }

    /// The id of the message.
    pub fn id(&self) -> Id
        ensures { result ≡ self.now.id }
    {
        self.id
    }
}

/// A message at its place in the listing.
#[derive(Clone, Copy)]
pub struct Placed<'a> {
    pub place: usize,
    pub keys: &'a SortKeys,
}

/// How the keys of two messages compare.
pub fn compare_keys(sort: Sort, a: &Placed, b: &Placed) -> Ordering
    ensures { result ≡ spec.key_cmp sort (plain_placed a.now) (plain_placed b.now) }
{
    let one = a.keys;
    let other = b.keys;
    match sort {
        Sort::DateSent | Sort::Threads => one.sent.cmp(&other.sent),
        Sort::DateReceived => one.received.cmp(&other.received),
        Sort::From => one.author.as_slice().cmp(other.author.as_slice()),
        Sort::MailboxOrder => a.place.cmp(&b.place),
        Sort::Score => one.score.cmp(&other.score),
        Sort::Size => one.size.cmp(&other.size),
        Sort::Subject => one.subject.as_slice().cmp(other.subject.as_slice()),
        Sort::To => one.recipient.as_slice().cmp(other.recipient.as_slice()),
    }
}
