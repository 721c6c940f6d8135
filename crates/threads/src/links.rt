//! Whom each message answers by the ids of headers, through a table of holders.

ghost use Rattle.std.specs.Prelude.{◌≡◌, ◌+◌, ◌<◌, ◌≤◌, length, map, option_map, IfOk, OnOk};
ghost use Rattle.std.specs.Prelude.{IfSome, Some, None, false};
ghost use Rattle.mail_base.specs.Series.{plain_texts};
ghost use Rattle.threads.specs.Firsts.{place_in};
ghost use Rattle.threads.specs.Links as spec;
ghost use Rattle.threads.specs.Message.{at, plain_messages};
ghost use Rattle.threads.specs.Inner.{HoldOwn, HoldersBelow};

use crate::firsts::{Firsts, add_first};
use crate::message::{Message, Order};
use crate::options::{Link, ThreadOptions};
use crate::step::Step;
use mail_base::{Bytes, NoMemory};
use std::alloc::Global;

// Takes in the next message, and tells whether another holds its id.
fn add_holder<'a>(
    messages: &'a [Message],
    holders: &mut Firsts<'a>,
    place: usize,
) -> Result<bool, NoMemory>
    requires within { place < length messages.now }
    requires before { HoldersBelow messages.now holders.old place }
    ensures below { OnOk result (HoldersBelow messages.now holders.new (place + 1)) }
    ensures own { IfOk result (λ again. again ≡ false → HoldOwn messages.now holders.old place
        → HoldOwn messages.now holders.new (place + 1)) }
{
    match &messages[place].message_id {
        Some(id) => add_first(Order::Listed, messages, holders, id.as_slice(), place),
        None => Ok(false),
    }
}

// The table of holders, and whether some id has several.
fn holders_of<'a>(alloc: Global, messages: &'a [Message]) -> Result<(Firsts<'a>, bool), NoMemory>
    ensures table { IfOk result (λ h. place_in h.0 ≡ spec.holder (plain_messages messages.now)) }
    ensures own { IfOk result (λ h. h.1 ≡ false → HoldOwn messages.now h.0 (length messages.now)) }
{
    let mut holders = Firsts::with_room(alloc, messages.len())?;
    let mut shared = false;
    for place in 0..messages.len() {
        shared |= add_holder(messages, &mut holders, place)?;
    }
    Ok((holders, shared))
}

// Another place that holds the id.
fn other_holder(holders: &Firsts, place: usize, id: &Bytes) -> Option<usize>
    ensures { result ≡ spec.other_than place (place_in holders.now id.now.items) }
{
    match holders.find(id.as_slice()) {
        Some(other) if other != place => Some(other),
        _ => None,
    }
}

// The message before a place, where it has the id.
fn previous_with(messages: &[Message], place: usize, id: &[u8]) -> Option<usize>
    requires { place < length messages.now }
    ensures { IfSome result (λ p. (p + 1 ≡ place)
        × ((at (plain_messages messages.now) p).message_id ≡ Some id.now)) }
{
    if place == 0 {
        return None;
    }
    let previous = place - 1;
    match &messages[previous].message_id {
        Some(own) if own.as_slice() == id => Some(previous),
        _ => None,
    }
}

// Another place that holds the id. Where no id has several holders, nothing is looked up if it is
// the one before: a reply often stands right behind what it answers.
fn referred_holder(
    holders: &Firsts,
    shared: bool,
    messages: &[Message],
    place: usize,
    id: &Bytes,
) -> Option<usize>
    requires within { place < length messages.now }
    requires own { shared ≡ false → HoldOwn messages.now holders.now (length messages.now) }
    ensures { result ≡ spec.other_than place (place_in holders.now id.now.items) }
{
    if !shared {
        if let Some(previous) = previous_with(messages, place, id.as_slice()) {
            return Some(previous);
        }
    }
    other_holder(holders, place, id)
}

fn referred(
    holders: &Firsts,
    shared: bool,
    messages: &[Message],
    place: usize,
    candidates: &[Bytes],
) -> Option<usize>
    requires within { place < length messages.now }
    requires own { shared ≡ false → HoldOwn messages.now holders.now (length messages.now) }
    ensures { result
        ≡ spec.referred (place_in holders.now) place (map (λ c. c.items) candidates.now) }
{
    let mut left = candidates;
    while let [first, rest @ ..] = left {
        if let Some(other) = referred_holder(holders, shared, messages, place, first) {
            return Some(other);
        }
        left = rest;
    }
    None
}

// Where no id has several holders, each stands by itself, and none is looked for.
fn duplicated(holders: &Firsts, shared: bool, place: usize, own: &Option<Bytes>) -> Option<usize>
    requires { shared ≡ false → spec.duplicated (place_in holders.now) place
        (option_map (λ id. id.items) own.now) ≡ None }
    ensures { result ≡ spec.duplicated (place_in holders.now) place
        (option_map (λ id. id.items) own.now) }
{
    match own {
        Some(id) if shared => other_holder(holders, place, id),
        _ => None,
    }
}

fn link_of(
    options: ThreadOptions,
    holders: &Firsts,
    shared: bool,
    messages: &[Message],
    place: usize,
) -> Option<Step>
    requires within { place < length messages.now }
    requires own { shared ≡ false → HoldOwn messages.now holders.now (length messages.now) }
    ensures { result
        ≡ spec.link_by (place_in holders.now) options (at (plain_messages messages.now) place)
        place }
{
    let message = &messages[place];
    if options.duplicates {
        if let Some(place) = duplicated(holders, shared, place, &message.message_id) {
            return Some(Step {
                place,
                link: Link::Duplicate,
            });
        }
    }
    match referred(
        holders,
        shared,
        messages,
        place,
        message.candidates.as_slice(),
    ) {
        Some(place) => Some(Step {
            place,
            link: Link::Reference,
        }),
        None => None,
    }
}

/// Whom each message answers.
pub fn links_of(
    alloc: Global,
    options: ThreadOptions,
    messages: &[Message],
) -> Result<Vec<Option<Step>>, NoMemory>
    ensures { IfOk result (λ l. l.items ≡ spec.links options (plain_messages messages.now)) }
{
    let (holders, shared) = holders_of(alloc, messages)?;
    let mut links = Vec::with_capacity(alloc, messages.len())?;
    for place in 0..messages.len() {
        links.push(link_of(options, &holders, shared, messages, place))?;
    }
    Ok(links)
}
