//! What each listed message follows.

ghost use Rattle.std.specs.Prelude.{◌≡◌, ◌<◌, length, map, option_map, IfOk, IfSome, OnOk, true};
ghost use Rattle.index_listed.specs.Known.{is_in};
ghost use Rattle.index_listed.specs.Listed.{ids, plain_listed};
ghost use Rattle.index_listed.specs.Threading as spec;

use crate::known::Known;
use crate::listed::Listed;
use crate::places::Places;
use mail_base::{Bytes, Id, NoMemory};
use std::alloc::Global;
use threads::Threads;

/// Where the parent and the root of a message stand in the listing, and whether it has the
/// Message-ID of an earlier one.
#[derive(Clone, Copy)]
pub struct Links {
    pub parent: Option<usize>,
    pub root: usize,
    pub duplicate: bool,
}

fn parent_place(threads: &Threads, places: &Places, id: Id) -> Option<usize>
    requires { threads.now.is_finished ≡ true }
    ensures place { result ≡ spec.parent_place threads.now places.now id }
    ensures within { IfSome result (λ p. p < length places.now) }
{
    if !threads.holds(id) {
        return None;
    }
    places.find(threads.parent(id)?.id)
}

pub fn root_place(threads: &Threads, places: &Places, id: Id) -> usize
    requires { threads.now.is_finished ≡ true }
    ensures place { result ≡ spec.root_place threads.now places.now id }
    ensures within { 0 < length places.now → result < length places.now }
{
    if !threads.holds(id) {
        return 0;
    }
    places.find(threads.thread_of(id)).unwrap_or(0)
}

fn is_known(known: &Known<'_>, id: &Option<Bytes>) -> bool
    ensures { result ≡ spec.is_known (is_in known.now) (option_map (λ b. b.items) id.now) }
{
    match id {
        Some(id) => known.holds(id.as_slice()),
        None => false,
    }
}

fn note_id<'a>(known: &mut Known<'a>, id: &'a Option<Bytes>) -> Result<(), NoMemory>
    ensures { OnOk result (is_in known.new
        ≡ spec.known_with (is_in known.old) (option_map (λ b. b.items) id.now)) }
{
    match id {
        Some(id) => known.add(id.as_slice()),
        None => Ok(()),
    }
}

// What the next message follows.
fn next_links<'a>(
    threads: &Threads,
    places: &Places,
    known: &mut Known<'a>,
    listed: &Listed<'a>,
) -> Result<Links, NoMemory>
    requires { threads.now.is_finished ≡ true }
    ensures links { IfOk result (λ links. links ≡ spec.links_of threads.now places.now
        (is_in known.old) (plain_listed listed.now)) }
    ensures within { 0 < length places.now
        → IfOk result (spec.LeadWithin (length places.now)) }
    ensures known { OnOk result (is_in known.new ≡ spec.known_with (is_in known.old)
        (plain_listed listed.now).header.message_id) }
{
    let id = listed.id;
    let message_id = &listed.header.message_id;
    let links = Links {
        parent: parent_place(threads, places, id),
        root: root_place(threads, places, id),
        duplicate: is_known(known, message_id),
    };
    note_id(known, message_id)?;
    Ok(links)
}

/// What each message follows.
pub fn all_links<'a>(
    alloc: Global,
    threads: &Threads,
    places: &Places,
    listed: &[Listed<'a>],
) -> Result<Vec<Links>, NoMemory>
    requires finished { threads.now.is_finished ≡ true }
    requires places { places.now ≡ ids (map plain_listed listed.now) }
    ensures links { IfOk result (λ all. all.items
        ≡ spec.all_links threads.now (map plain_listed listed.now)) }
    ensures within { IfOk result (λ all. spec.AllWithin (length listed.now) all.items) }
{
    let mut known = Known::new(alloc);
    let mut all = Vec::with_capacity(alloc, listed.len())?;
    let mut left = listed;
    while let [first, rest @ ..] = left {
        all.push(next_links(threads, places, &mut known, first)?)?;
        left = rest;
    }
    Ok(all)
}
