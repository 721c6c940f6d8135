//! Which messages are visible under a limit and shut threads, and which of them hide others.

ghost use Rattle.std.specs.Prelude.{◌≡◌, ◌<◌, ◌&&◌, ◌||◌, not, false, length, map, slice_index_or};
ghost use Rattle.std.specs.Prelude.{slice_set, IfOk, OnOk, ◌++◌, ◌∷◌, [], if◌then◌else◌};
ghost use Rattle.std.specs.List.{range_with_len};
ghost use Rattle.index_listed.specs.Entries.{RootsWithin, Tells};
ghost use Rattle.index_listed.specs.Visibility as spec;

use crate::entry::Entry;
use mail_base::NoMemory;
use std::alloc::Global;

/// Marks the thread with a root where a message passed a test.
pub fn mark_where(marks: &mut Vec<bool>, root: usize, passes: bool)
    requires within { root < length marks.old.items }
    ensures { marks.new.items
        ≡ slice_set marks.old.items root (slice_index_or marks.old.items root false || passes) }
{
    let is_marked = marks[root];
    marks[root] = is_marked || passes;
}

// Whether the next message is visible, given the threads in which one satisfied the limit.
fn next_is_visible(met: &mut Vec<bool>, entry: Entry) -> bool
    requires within { entry.root < length met.old.items }
    ensures value { result ≡ entry.satisfies
        && (not entry.is_shut || not (slice_index_or met.old.items entry.root false)) }
    ensures met { met.new.items ≡ slice_set met.old.items entry.root
        (slice_index_or met.old.items entry.root false || entry.satisfies) }
{
    let is_met = met[entry.root];
    mark_where(met, entry.root, entry.satisfies);
    entry.satisfies && (!entry.is_shut || !is_met)
}

/// Whether each message is visible.
pub fn visible_flags(alloc: Global, entries: &[Entry]) -> Result<Vec<bool>, NoMemory>
    requires { RootsWithin entries.now }
    ensures { IfOk result
        (λ v. Tells false (spec.is_visible entries.now) (length entries.now) v.items) }
{
    let mut met = vec![in alloc; false; entries.len()]?;
    let mut flags = Vec::with_capacity(alloc, entries.len())?;
    for place in 0..entries.len() {
        flags.push(next_is_visible(&mut met, entries[place]))?;
    }
    Ok(flags)
}

fn put_where(places: &mut Vec<usize>, wanted: bool, place: usize) -> Result<(), NoMemory>
    ensures { OnOk result
        (places.new.items ≡ places.old.items ++ (if wanted then place ∷ [] else [])) }
{
    if wanted {
        places.push(place)?;
    }
    Ok(())
}

/// Where the visible messages stand in the order of the index.
pub fn visible(alloc: Global, entries: &[Entry]) -> Result<Vec<usize>, NoMemory>
    requires { RootsWithin entries.now }
    ensures { IfOk result (λ v. v.items ≡ spec.visible entries.now) }
{
    let flags = visible_flags(alloc, entries)?;
    let mut places = Vec::with_capacity(alloc, entries.len())?;
    for place in 0..entries.len() {
        put_where(&mut places, flags[place], place)?;
    }
    Ok(places)
}

fn is_hidden(entry: Entry, is_visible: bool) -> bool
    ensures { result ≡ entry.satisfies && not is_visible }
{
    entry.satisfies && !is_visible
}

// The threads, by their roots, of which a message satisfies the limit and is not visible.
fn threads_with_hidden(
    alloc: Global,
    entries: &[Entry],
    flags: &[bool],
) -> Result<Vec<bool>, NoMemory>
    requires within { RootsWithin entries.now }
    requires flags { Tells false (spec.is_visible entries.now) (length entries.now) flags.now }
    ensures { IfOk result (λ h. spec.AreThreadsWith (spec.is_hidden entries.now) entries.now
        (length entries.now) h.items) }
{
    let mut hidden = vec![in alloc; false; entries.len()]?;
    for place in 0..entries.len() {
        let entry = entries[place];
        mark_where(&mut hidden, entry.root, is_hidden(entry, flags[place]));
    }
    Ok(hidden)
}

/// The threads, by their roots, in which a message passes a test; `passed` tells which do.
pub fn threads_with(
    alloc: Global,
    entries: &[Entry],
    passed: &[bool],
) -> Result<Vec<bool>, NoMemory>
    requires within { RootsWithin entries.now }
    requires long { length passed.now ≡ length entries.now }
    ensures { IfOk result (λ marks. spec.AreThreadsWith (λ p. slice_index_or passed.now p false)
        entries.now (length entries.now) marks.items) }
{
    let mut marks = vec![in alloc; false; entries.len()]?;
    for place in 0..entries.len() {
        mark_where(&mut marks, entries[place].root, passed[place]);
    }
    Ok(marks)
}

fn hides(entry: Entry, is_visible: bool, has_hidden: bool) -> bool
    ensures { result ≡ is_visible && (entry.is_shut && has_hidden) }
{
    is_visible && entry.is_shut && has_hidden
}

/// Whether each message is the visible one of a shut thread that hides others.
pub fn hiding(alloc: Global, entries: &[Entry]) -> Result<Vec<bool>, NoMemory>
    requires { RootsWithin entries.now }
    ensures { IfOk result (λ h. h.items
        ≡ map (spec.hides entries.now) (range_with_len 0 (length entries.now))) }
{
    let flags = visible_flags(alloc, entries)?;
    let hidden = threads_with_hidden(alloc, entries, &flags)?;
    let mut hiding = Vec::with_capacity(alloc, entries.len())?;
    for place in 0..entries.len() {
        let entry = entries[place];
        hiding.push(hides(entry, flags[place], hidden[entry.root]))?;
    }
    Ok(hiding)
}
