//! A plain program that puts few messages into threads, by going through the list at each look.

use threads::{Link, ThreadOptions};

/// A message of a list, in which it stands in the order of the listing: the later it stands, the
/// earlier it was sent.
#[derive(Clone, Copy)]
pub struct Sketch {
    pub id: u32,
    pub reference: Option<u32>,
    pub is_reply: bool,
}

/// The place of a message's parent, and by what it follows it.
#[derive(Clone, Copy, PartialEq, Eq)]
pub struct Above {
    pub place: usize,
    pub link: Link,
}

fn holder(list: &[Sketch], id: u32) -> Option<usize> {
    list.iter().position(|m| m.id == id)
}

// A place, unless it is this one, with the link by which it was found.
fn other_than(place: usize, found: Option<usize>, link: Link) -> Option<Above> {
    match found {
        Some(other) if other != place => Some(Above { place: other, link }),
        _ => None,
    }
}

fn referred(list: &[Sketch], place: usize, m: Sketch) -> Option<Above> {
    let found = holder(list, m.reference?);
    other_than(place, found, Link::Reference)
}

fn link(options: ThreadOptions, list: &[Sketch], place: usize) -> Option<Above> {
    let m = *list.get(place)?;
    if options.duplicates
        && let Some(above) = other_than(place, holder(list, m.id), Link::Duplicate)
    {
        return Some(above);
    }
    referred(list, place, m)
}

// Whether links lead from a place to itself again, by none that stands before it.
fn is_head_of_cycle(options: ThreadOptions, list: &[Sketch], place: usize) -> bool {
    let mut at = place;
    for _step in 0..list.len() {
        match link(options, list, at) {
            Some(above) if above.place == place => return true,
            Some(above) if above.place > place => at = above.place,
            _ => return false,
        }
    }
    false
}

fn reference_parent(options: ThreadOptions, list: &[Sketch], place: usize) -> Option<Above> {
    if is_head_of_cycle(options, list, place) {
        return None;
    }
    link(options, list, place)
}

// All have one base subject, so the first sent is the last of the list that has no parent so far.
fn subject_parent(options: ThreadOptions, list: &[Sketch], place: usize) -> Option<Above> {
    let m = *list.get(place)?;
    if options.strict || (options.reply_only && !m.is_reply) {
        return None;
    }
    let mut first = None;
    for other in 0..list.len() {
        if reference_parent(options, list, other).is_none() {
            first = Some(other);
        }
    }
    other_than(place, first, Link::Subject)
}

/// Whom the message at a place follows.
pub fn parent(options: ThreadOptions, list: &[Sketch], place: usize) -> Option<Above> {
    match reference_parent(options, list, place) {
        Some(above) => Some(above),
        None => subject_parent(options, list, place),
    }
}

/// Where parents end from a place.
pub fn root(options: ThreadOptions, list: &[Sketch], place: usize) -> usize {
    let mut at = place;
    for _step in 0..list.len() {
        if let Some(above) = parent(options, list, at) {
            at = above.place;
        }
    }
    at
}
