//! Where links lead, each followed once.

ghost use Rattle.std.specs.Prelude.{◌≡◌, ◌+◌, ◌<◌, ◌≤◌, ℕ, Some, None, [], ◌∷◌, ◌++◌, length, map};
ghost use Rattle.std.specs.Prelude.{reverse, slice_get, slice_set, option_map, take, drop, not};
ghost use Rattle.std.specs.Prelude.{slice_index, Bool, List, Option, IfOk, OnOk, IfSome, false};
ghost use Rattle.threads.specs.declared.step.Step as step;
ghost use Rattle.threads.specs.Links.{target};
ghost use Rattle.threads.specs.Message.{is_listed_before as before, plain_messages};
ghost use Rattle.threads.specs.Walk as spec;

use crate::message::{Message, is_listed_before};
use crate::step::Step;
use mail_base::NoMemory;
use std::alloc::Global;

/// What is known of a place while links are followed.
#[derive(Clone, Copy)]
pub enum Mark {
    Unseen,
    /// It is on the way that is followed, and bears this number there.
    OnWay(usize),
    /// Its links end at this root.
    Ended(usize),
}

// Takes a place into the way, and tells where it leads.
fn enter(
    links: &[Option<Step>],
    marks: &mut [Mark],
    way: &mut Vec<usize>,
    place: usize,
) -> Result<Option<usize>, NoMemory>
    requires within { place < length links.now }
    requires long { length marks.old ≡ length links.now }
    ensures next { IfOk result (λ next. next ≡ target links.now place) }
    ensures way { OnOk result (way.new.items ≡ way.old.items ++ place ∷ []) }
    ensures marks { OnOk result (marks.new
        ≡ slice_set marks.old place (spec.on_way (length way.old.items))) }
{
    let number = way.len();
    way.push(place)?;
    marks[place] = Mark::OnWay(number);
    match links[place] {
        Some(step) => Ok(Some(step.place)),
        None => Ok(None),
    }
}

fn is_seen(marks: &[Mark], place: usize) -> bool
    requires { place < length marks.now }
    ensures { result ≡ not (spec.is_unseen (spec.mark_at marks.now place)) }
{
    match marks[place] {
        Mark::Unseen => false,
        Mark::OnWay(_) => true,
        Mark::Ended(_) => true,
    }
}

fn mark_of(marks: &[Mark], place: usize) -> Mark
    requires { place < length marks.now }
    ensures { result ≡ spec.mark_at marks.now place }
{
    marks[place]
}

// Follows links from a place to one that was seen, if they come to one.
fn follow(
    links: &[Option<Step>],
    marks: &mut [Mark],
    way: &mut Vec<usize>,
    start: usize,
) -> Result<Option<usize>, NoMemory>
    requires within { start < length links.now }
    requires inside { spec.LeadsWithin links.now }
    requires long { length marks.old ≡ length links.now }
    requires empty { way.old.items ≡ [] }
    ensures walk { (is_before : ℕ → ℕ → Bool) → spec.IsWalk is_before links.now marks.old []
        → OnOk result (spec.IsWalk is_before links.now marks.new way.new.items) }
    ensures met { IfOk result (spec.IsMet links.now marks.new way.new.items start) }
    ensures keeps { OnOk result (spec.KeepsSeen marks.old marks.new) }
{
    let mut next = Some(start);
    while let Some(place) = next {
        if is_seen(marks, place) {
            return Ok(Some(place));
        }
        next = enter(links, marks, way, place)?;
    }
    Ok(None)
}

// Leaves the way, whose last place ends at a root.
fn settle(marks: &mut [Mark], way: &mut Vec<usize>, root: usize)
    requires within { spec.Each (λ p. p < length marks.old) (reverse way.old.items) }
    ensures walk { (is_before : ℕ → ℕ → Bool) → (links : List (Option step.Step))
        → spec.IsClosed is_before links marks.old way.old.items root
        → spec.IsWalk is_before links marks.new [] }
    ensures keeps { spec.KeepsSeen marks.old marks.new }
    ensures left { way.new.items ≡ [] }
{
    while let Some(place) = way.pop() {
        marks[place] = Mark::Ended(root);
    }
}

// The first listed of some places.
fn first_listed(messages: &[Message], places: &[usize]) -> usize
    requires some { 0 < length places.now }
    requires within { spec.Each (λ p. p < length messages.now) places.now }
    ensures among { (i : ℕ) × (slice_get places.now i ≡ Some result) }
    ensures least { (i : ℕ) → i < length places.now
        → before (plain_messages messages.now) (slice_index places.now i) result ≡ false }
{
    let mut first = places[0];
    for place in places {
        if is_listed_before(messages, *place, first) {
            first = *place;
        }
    }
    first
}

fn end_all(marks: &mut [Mark], places: &[usize], root: usize)
    requires { spec.Each (λ p. p < length marks.old) places.now }
    ensures { marks.new ≡ spec.all_ended root marks.old places.now }
{
    let mut left = places;
    while let [place, rest @ ..] = left {
        marks[*place] = Mark::Ended(root);
        left = rest;
    }
}

// Leaves the way from a number on, which is a cycle: it ends at its first listed place.
fn close_cycle(
    messages: &[Message],
    marks: &mut [Mark],
    way: &mut Vec<usize>,
    number: usize,
) -> usize
    requires number { number < length way.old.items }
    requires within { spec.Each (λ p. p < length messages.now) way.old.items }
    requires long { length marks.old ≡ length messages.now }
    ensures { spec.ClosesCycle (before (plain_messages messages.now)) number
        (record { marks = marks.old; way = way.old.items })
        (record { marks = marks.new; way = way.new.items }) result }
{
    let cycle = &way[number..];
    let head = first_listed(messages, cycle);
    end_all(marks, cycle, head);
    way.truncate(number);
    head
}

// The root at which the last place of a way ends, where a cycle that it makes is closed.
fn close(
    messages: &[Message],
    marks: &mut [Mark],
    way: &mut Vec<usize>,
    met: Option<usize>,
) -> usize
    requires within { spec.Each (λ p. p < length messages.now) way.old.items }
    requires long { length marks.old ≡ length messages.now }
    requires only { spec.OnlyOnWay marks.old way.old.items }
    requires met { spec.IsSeen marks.old met }
    ensures { spec.Closes (before (plain_messages messages.now)) (length messages.now)
        (record { marks = marks.old; way = way.old.items })
        (record { marks = marks.new; way = way.new.items }) met result }
{
    let Some(place) = met else {
        return way.last().copied().unwrap_or(0);
    };
    match mark_of(marks, place) {
        Mark::Ended(root) => root,
        Mark::OnWay(number) => close_cycle(messages, marks, way, number),
        Mark::Unseen => 0,
    }
}

// Follows links from a place to their end.
fn end_from(
    messages: &[Message],
    links: &[Option<Step>],
    marks: &mut [Mark],
    start: usize,
    way: &mut Vec<usize>,
) -> Result<(), NoMemory>
    requires start { start < length links.now }
    requires links { spec.FitsMessages (plain_messages messages.now) links.now }
    requires before { spec.AreFollowed (before (plain_messages messages.now)) links.now marks.old
        start }
    requires empty { way.old.items ≡ [] }
    ensures ended { OnOk result
        (spec.AreFollowed (before (plain_messages messages.now)) links.now marks.new (start + 1)) }
    ensures left { OnOk result (way.new.items ≡ []) }
{
    let met = follow(links, marks, way, start)?;
    let root = close(messages, marks, way, met);
    settle(marks, way, root);
    Ok(())
}

fn roots_in(alloc: Global, marks: &[Mark]) -> Result<Vec<usize>, NoMemory>
    ensures { IfOk result (λ r. r.items ≡ map spec.root_in marks.now) }
{
    let mut roots = Vec::with_capacity(alloc, marks.len())?;
    for mark in marks {
        roots.push(match *mark {
            Mark::Ended(root) => root,
            _ => 0,
        })?;
    }
    Ok(roots)
}

/// Where the links of each place end, once each cycle is cut at its first listed place.
pub fn ends_of(
    alloc: Global,
    messages: &[Message],
    links: &[Option<Step>],
) -> Result<Vec<usize>, NoMemory>
    requires { spec.FitsMessages (plain_messages messages.now) links.now }
    ensures { IfOk result
        (λ r. spec.AreEnds (before (plain_messages messages.now)) links.now r.items) }
{
    let mut marks = vec![in alloc; Mark::Unseen; messages.len()]?;
    let mut way = Vec::new(alloc);
    for start in 0..messages.len() {
        end_from(messages, links, &mut marks, start, &mut way)?;
    }
    roots_in(alloc, &marks)
}
