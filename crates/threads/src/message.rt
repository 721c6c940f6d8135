//! What is kept of a message, and which of two comes first.

ghost use Rattle.std.specs.Prelude.{◌≡◌, ◌<◌, length, option_map, IfOk};
ghost use Rattle.mail_base.specs.Series.{plain_texts};
ghost use Rattle.headers.specs.Header.{plain_header};
ghost use Rattle.threads.specs.Message as spec;

use headers::Header;
use mail_base::{Bytes, Id, Names, NoMemory};
use std::alloc::Global;
use std::cmp::Ordering;

/// A message, with its place in the listing and what its header says of others.
#[derive(Drop)]
pub struct Message {
    pub id: Id,
    pub order: u64,
    pub key: Bytes,
    /// When it was sent, or received where its date cannot be read: seconds since 1970 in UTC.
    pub sent: i64,
    pub message_id: Option<Bytes>,
    pub candidates: Names,
    pub base_subject: Bytes,
    pub reply_prefix: bool,
}

fn copy_id(alloc: Global, id: &Option<Bytes>) -> Result<Option<Bytes>, NoMemory>
    ensures { IfOk result (λ i. option_map (λ b. b.items) i
        ≡ option_map (λ b. b.items) id.now) }
{
    match id {
        Some(id) => Ok(Some(Bytes::copy_of(alloc, id.as_slice())?)),
        None => Ok(None),
    }
}

fn copy_names(alloc: Global, names: &Names) -> Result<Names, NoMemory>
    ensures { IfOk result (λ n. plain_texts n ≡ plain_texts names.now) }
{
    let mut copies = Names::new(alloc);
    copies.reserve(names.len())?;
    for name in names.as_slice() {
        copies.push(Bytes::copy_of(alloc, name.as_slice())?)?;
    }
    Ok(copies)
}

/// What is kept of a message with this header.
pub fn kept_of(
    alloc: Global,
    id: Id,
    order: u64,
    key: &[u8],
    received: i64,
    header: &Header,
) -> Result<Message, NoMemory>
    ensures { IfOk result (λ m. spec.plain_message m
        ≡ spec.message id order key.now received (plain_header header.now)) }
{
    Ok(Message {
        id,
        order,
        key: Bytes::copy_of(alloc, key)?,
        sent: match header.sent {
            Some(date) => date.seconds,
            None => received,
        },
        message_id: copy_id(alloc, &header.message_id)?,
        candidates: copy_names(alloc, &header.candidates)?,
        base_subject: Bytes::copy_of(alloc, header.base_subject.as_slice())?,
        reply_prefix: header.reply_prefix,
    })
}

fn listing_order(a: &Message, b: &Message) -> Ordering
    ensures { result ≡ spec.listing_cmp (spec.plain_message a.now) (spec.plain_message b.now) }
{
    let keys = a.key.as_slice().cmp(&b.key.as_slice());
    a.order.cmp(&b.order).then(keys).then(a.id.0.cmp(&b.id.0))
}

fn sent_order(a: &Message, b: &Message) -> Ordering
    ensures { result ≡ spec.sent_cmp (spec.plain_message a.now) (spec.plain_message b.now) }
{
    a.sent.cmp(&b.sent).then(listing_order(a, b))
}

/// Whether the message at one place is listed before that at another.
pub fn is_listed_before(messages: &[Message], a: usize, b: usize) -> bool
    requires one { a < length messages.now }
    requires other { b < length messages.now }
    ensures { result ≡ spec.is_listed_before (spec.plain_messages messages.now) a b }
{
    listing_order(&messages[a], &messages[b]).is_lt()
}

// Whether the message at one place was sent before that at another.
fn is_sent_before(messages: &[Message], a: usize, b: usize) -> bool
    requires one { a < length messages.now }
    requires other { b < length messages.now }
    ensures { result ≡ spec.is_sent_before (spec.plain_messages messages.now) a b }
{
    sent_order(&messages[a], &messages[b]).is_lt()
}

/// In which order the first of messages is looked for.
#[derive(Clone, Copy)]
pub enum Order {
    Listed,
    /// By the date sent, and then in listing order.
    Sent,
}

impl Order {
    ghost use Rattle.threads.specs.Inner.{is_before};

    /// Whether the message at one place comes before that at another.
    pub fn is_before(self, messages: &[Message], a: usize, b: usize) -> bool
        requires one { a < length messages.now }
        requires other { b < length messages.now }
        ensures { result ≡ is_before self (spec.plain_messages messages.now) a b }
    {
        match self {
            Order::Listed => is_listed_before(messages, a, b),
            Order::Sent => is_sent_before(messages, a, b),
        }
    }
}
