//! How the messages stand in the order of the index.

ghost use Rattle.std.specs.Prelude.{◌≡◌, ◌<◌, length, option_map, true, IfOk};
ghost use Rattle.index_listed.specs.Places.{numbers};
ghost use Rattle.index_listed.specs.Sight as spec;
ghost use Rattle.threads.specs.Order.{ParentsFirst};

use crate::entry::{Above, Entry};
use crate::links::root_place;
use crate::mark::{Mark, mark_at};
use crate::places::Places;
use mail_base::{Id, NoMemory};
use std::alloc::Global;
use threads::{Parent, Threads};

/// How a message stands in the order of the index: below which other, under which root, and where
/// it stands in the listing.
#[derive(Clone, Copy)]
pub struct Stance {
    pub parent: Option<Above>,
    pub root: usize,
    pub place: usize,
}

fn found_place(places: &Places, id: Id) -> usize
    ensures { result ≡ spec.found_place places.now id }
{
    places.find(id).unwrap_or(0)
}

fn above(order: &Places, parent: Option<Parent>) -> Option<Above>
    ensures { result ≡ option_map (spec.above order.now) parent }
{
    let Parent { id, link } = parent?;
    Some(Above {
        place: found_place(order, id),
        link,
    })
}

fn parent_in(threaded: bool, threads: &Threads, order: &Places, id: Id) -> Option<Above>
    requires { threads.now.is_finished ≡ true }
    ensures { result ≡ spec.parent_in threaded threads.now order.now id }
{
    if !threaded || !threads.holds(id) {
        return None;
    }
    above(order, threads.parent(id))
}

fn stance_of(threaded: bool, threads: &Threads, listed: &Places, order: &Places, id: Id) -> Stance
    requires { threads.now.is_finished ≡ true }
    ensures value { result ≡ spec.stance_of threaded threads.now listed.now order.now id }
    ensures root { 0 < length order.now → result.root < length order.now }
{
    Stance {
        parent: parent_in(threaded, threads, order, id),
        root: root_place(threads, order, id),
        place: found_place(listed, id),
    }
}

/// How the messages stand in an order, which is one of threads or not.
pub fn stances(
    alloc: Global,
    threaded: bool,
    threads: &Threads,
    listed: &Places,
    places: &Places,
    order: &[Id],
) -> Result<Vec<Stance>, NoMemory>
    requires finished { threads.now.is_finished ≡ true }
    requires places { places.now ≡ numbers order.now }
    ensures value { IfOk result
        (λ all. all.items ≡ spec.stances threaded threads.now listed.now order.now) }
    ensures first { (threaded ≡ true → ParentsFirst threads.now order.now)
        → IfOk result (λ all. spec.AreFirst all.items) }
{
    let mut all = Vec::with_capacity(alloc, order.len())?;
    let mut left = order;
    while let [first, rest @ ..] = left {
        all.push(stance_of(threaded, threads, listed, places, *first))?;
        left = rest;
    }
    Ok(all)
}

fn entry_of(marks: &[Mark], stance: Stance) -> Entry
    ensures { result ≡ spec.entry_of marks.now stance }
{
    let Stance {
        parent,
        root,
        place,
    } = stance;
    let mark = mark_at(marks, place);
    Entry {
        parent,
        root,
        satisfies: mark.satisfies,
        is_shut: mark.is_shut,
    }
}

/// The messages in the order, by their marks.
pub fn entries(alloc: Global, marks: &[Mark], stances: &[Stance]) -> Result<Vec<Entry>, NoMemory>
    ensures { IfOk result (λ all. all.items ≡ spec.entries marks.now stances.now) }
{
    let mut all = Vec::with_capacity(alloc, stances.len())?;
    let mut left = stances;
    while let [first, rest @ ..] = left {
        all.push(entry_of(marks, *first))?;
        left = rest;
    }
    Ok(all)
}
