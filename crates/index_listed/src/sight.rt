//! What of the index is seen.

ghost use Rattle.std.specs.Prelude.{◌≡◌, length, map, IfOk};
ghost use Rattle.index_listed.specs.Entries.{RootsWithin};
ghost use Rattle.index_listed.specs.Marks as marking;
ghost use Rattle.index_listed.specs.Seen as spec;
ghost use Rattle.index_listed.specs.Sight.{id_at, visible as seen_of};

use crate::entry::Entry;
use crate::mark::{Mark, mark_at};
use crate::places::{Places, places_of};
use crate::stance::{Stance, entries};
use crate::tree::Tree;
use crate::visibility::{hiding, mark_where, threads_with, visible};
use mail_base::{Bytes, Id, Ids, Line, NoMemory, append_utf8};
use std::alloc::Global;
use std::marker::Model;

/// The messages in the order of the index, and what of them is seen.
pub struct Sight {
    order: Ids,
    places: Places,
    tree: Tree,
    visible: Ids,
    visible_places: Places,
    hiding: Vec<bool>,
    // Of each thread, by where its root stands, whether a message of it is new, or old and unread.
    new_threads: Vec<bool>,
    old_threads: Vec<bool>,
}

impl Drop for Sight {
    fn drop(self) {
        let Sight {
            order: _,
            places: _,
            tree: _,
            visible: _,
            visible_places: _,
            hiding: _,
            new_threads: _,
            old_threads: _,
        } = self;
    }
}

impl Model for Sight {
    ghost use Rattle.index_listed.specs.Seen.{IsSight, PlainSight};

    ghost Value = { PlainSight };

    ghost view = { λ s. record {
      order = s.order.items;
      entries = s.tree;
      new_threads = s.new_threads.items;
      old_threads = s.old_threads.items;
    } };

    ghost invariant = { λ s. IsSight s.order.items s.tree s.places s.visible_places
        s.visible.items s.hiding.items s.new_threads.items s.old_threads.items };
}

// The ids at places of an order.
fn ids_at(alloc: Global, order: &[Id], places: &[usize]) -> Result<Ids, NoMemory>
    ensures { IfOk result (λ ids. ids.items ≡ map (id_at order.now) places.now) }
{
    let mut ids = Ids::new(alloc);
    let mut left = places;
    while let [first, rest @ ..] = left {
        ids.push(order.get(*first).copied().unwrap_or(Id(0)))?;
        left = rest;
    }
    Ok(ids)
}

// The ids that are seen of an order.
fn visible_ids(alloc: Global, order: &[Id], entries: &[Entry]) -> Result<Ids, NoMemory>
    requires { RootsWithin entries.now }
    ensures { IfOk result (λ ids. ids.items ≡ seen_of order.now entries.now) }
{
    let places = visible(alloc, entries)?;
    ids_at(alloc, order, &places)
}

// Whether a message is unread, and old or not.
fn is_unread(old: bool, marks: &[Mark], place: usize) -> bool
    ensures { result ≡ marking.is_unread old (marking.mark_at marks.now place) }
{
    let mark = mark_at(marks, place);
    if old { mark.is_old } else { mark.is_new }
}

// Which messages of an order are unread, and old or not.
fn unread(
    alloc: Global,
    old: bool,
    marks: &[Mark],
    stances: &[Stance],
) -> Result<Vec<bool>, NoMemory>
    ensures { IfOk result (λ all. all.items ≡ spec.unread old marks.now stances.now) }
{
    let mut all = Vec::with_capacity(alloc, stances.len())?;
    let mut left = stances;
    while let [first, rest @ ..] = left {
        all.push(is_unread(old, marks, first.place))?;
        left = rest;
    }
    Ok(all)
}

// The threads in which a message is unread, and old or not.
fn unread_threads(
    alloc: Global,
    old: bool,
    marks: &[Mark],
    stances: &[Stance],
    entries: &[Entry],
) -> Result<Vec<bool>, NoMemory>
    requires within { RootsWithin entries.now }
    requires long { length stances.now ≡ length entries.now }
    ensures { IfOk result (λ threads. threads.items
        ≡ spec.marked_threads entries.now (spec.unread old marks.now stances.now)) }
{
    let unread = unread(alloc, old, marks, stances)?;
    threads_with(alloc, entries, &unread)
}

impl Sight {
    ghost use Rattle.std.specs.Prelude.{◌≡◌, ◌<◌, [], length, nat_eq, IfOk, IfSome};
    ghost use Rattle.std.specs.List.{IsDistinct};
    ghost use Rattle.index_listed.specs.Cursor.{root_in, same_thread};
    ghost use Rattle.index_listed.specs.Entries.{ParentsFirst, at};
    ghost use Rattle.index_listed.specs.Places.{numbers, place_in};
    ghost use Rattle.index_listed.specs.Seen as spec;
    ghost use Rattle.index_listed.specs.Sight.{AreFirst};
    ghost use Rattle.index_listed.specs.Visibility.{hides};

    /// Nothing is listed.
    pub fn none(alloc: Global) -> Sight
        ensures { result
            ≡ record { order = []; entries = []; new_threads = []; old_threads = [] } }
    {
        Sight {
            order: Ids::new(alloc),
            places: Places::new(alloc),
            tree: Tree::none(alloc),
            visible: Ids::new(alloc),
            visible_places: Places::new(alloc),
            hiding: Vec::new(alloc),
            new_threads: Vec::new(alloc),
            old_threads: Vec::new(alloc),
        }
    }

    /// What is seen of an order, in which the messages stand so.
    pub fn new(
        alloc: Global,
        marks: &[Mark],
        order: Ids,
        stances: &[Stance],
    ) -> Result<Sight, NoMemory>
        requires apart { IsDistinct nat_eq (numbers order.items) }
        requires long { length stances.now ≡ length order.items }
        requires first { AreFirst stances.now }
        ensures { IfOk result (λ s. s ≡ spec.sight marks.now order.items stances.now) }
    {
        let entries = entries(alloc, marks, stances)?;
        let new_threads = unread_threads(alloc, false, marks, stances, &entries)?;
        let old_threads = unread_threads(alloc, true, marks, stances, &entries)?;
        Sight::of(alloc, order, entries, new_threads, old_threads)
    }

    // What is seen of entries, where new messages and old ones are in these threads.
    fn of(
        alloc: Global,
        order: Ids,
        entries: Vec<Entry>,
        new_threads: Vec<bool>,
        old_threads: Vec<bool>,
    ) -> Result<Sight, NoMemory>
        requires apart { IsDistinct nat_eq (numbers order.items) }
        requires long { length entries.items ≡ length order.items }
        requires roots { RootsWithin entries.items }
        requires parents { ParentsFirst entries.items }
        requires new_long { length new_threads.items ≡ length entries.items }
        requires old_long { length old_threads.items ≡ length entries.items }
        ensures { IfOk result (λ s. s ≡ record {
          order = order.items;
          entries = entries.items;
          new_threads = new_threads.items;
          old_threads = old_threads.items;
        }) }
    {
        let visible = visible_ids(alloc, order.as_slice(), &entries)?;
        let places = places_of(alloc, order.as_slice())?;
        let visible_places = places_of(alloc, visible.as_slice())?;
        let hiding = hiding(alloc, &entries)?;
        let tree = Tree::new(alloc, entries)?;
        Ok(Sight {
            order,
            places,
            tree,
            visible,
            visible_places,
            hiding,
            new_threads,
            old_threads,
        })
    }

    /// How many messages there are, hidden ones counted.
    pub fn len(&self) -> usize
        ensures value { result ≡ length self.now.entries }
    {
        self.order.len()
    }

    /// No thread has a new message or an old one any more.
    pub fn clear_unread(&mut self)
        ensures { self.new ≡ spec.without_unread self.old }
    {
        self.new_threads.fill(false);
        self.old_threads.fill(false);
    }

    /// Marks the thread of the message at a place of the order where that is new, or old and
    /// unread.
    pub fn put_unread(&mut self, place: usize, is_new: bool, is_old: bool)
        requires { place < length self.old.entries }
        ensures marked { self.new ≡ spec.with_unread place is_new is_old self.old }
        ensures root { (at self.old.entries place).root < length self.old.entries }
    {
        let root = self.tree.root(place);
        mark_where(&mut self.new_threads, root, is_new);
        mark_where(&mut self.old_threads, root, is_old);
    }

    /// All ids, in order.
    pub fn order(&self) -> &Ids
        ensures { result.now.items ≡ self.now.order }
    {
        &self.order
    }

    /// The ids that are seen, in order.
    pub fn visible(&self) -> &Ids
        ensures { result.now.items ≡ spec.visible_ids self.now }
    {
        &self.visible
    }

    /// Where an id stands among those that are seen.
    pub fn visible_place(&self, id: Id) -> Option<usize>
        ensures place { result ≡ place_in (spec.visible_ids self.now) id }
        ensures within { IfSome result (λ p. p < length (spec.visible_ids self.now)) }
    {
        self.visible_places.find(id)
    }

    /// Where an id stands in the order.
    pub fn place(&self, id: Id) -> Option<usize>
        ensures place { result ≡ place_in self.now.order id }
        ensures within { IfSome result (λ p. p < length self.now.entries) }
    {
        self.places.find(id)
    }

    // Where the root of the message with an id stands in the order.
    fn root(&self, id: Id) -> Option<usize>
        ensures { result ≡ root_in self.now.order self.now.entries id }
    {
        Some(self.tree.root(self.place(id)?))
    }

    /// Whether both messages are in the same thread.
    pub fn are_of_one_thread(&self, one: Id, other: Id) -> bool
        ensures { result ≡ same_thread self.now one other }
    {
        match (self.root(one), self.root(other)) {
            (Some(one), Some(other)) => one == other,
            _ => false,
        }
    }

    fn thread_has(&self, threads: &[bool], place: usize) -> bool
        requires { place < length self.now.entries }
        ensures { result ≡ spec.thread_has self.now.entries threads.now place }
    {
        let root = self.tree.root(place);
        threads.get(root).copied().unwrap_or(false)
    }

    /// Whether the message at a place of the order is the one that is seen of a shut thread in
    /// which others are hidden.
    pub fn hides(&self, place: usize) -> bool
        requires { place < length self.now.entries }
        ensures { result ≡ hides self.now.entries place }
    {
        self.hiding[place]
    }

    /// Whether the thread of the message at a place of the order has a new message.
    pub fn has_new(&self, place: usize) -> bool
        requires { place < length self.now.entries }
        ensures { result ≡ spec.thread_has self.now.entries self.now.new_threads place }
    {
        self.thread_has(&self.new_threads, place)
    }

    /// Whether the thread of the message at a place of the order has an old and unread message.
    pub fn has_old(&self, place: usize) -> bool
        requires { place < length self.now.entries }
        ensures { result ≡ spec.thread_has self.now.entries self.now.old_threads place }
    {
        self.thread_has(&self.old_threads, place)
    }

    // The tree text of the message with an id, where it stands in the order.
    fn tree_of(&self, alloc: Global, id: Id) -> Result<Bytes, NoMemory>
        ensures { IfOk result (λ text. text.items ≡ spec.tree_of self.now id) }
    {
        match self.place(id) {
            Some(place) => self.tree.text(alloc, place),
            None => Ok(Bytes::new(alloc)),
        }
    }

    /// What stands before the subject of the message with an id: its tree text.
    pub fn tree_line(&self, alloc: Global, id: Id) -> Result<Line, NoMemory>
        ensures { IfOk result (λ line. line.items ≡ spec.tree_line self.now id) }
    {
        let text = self.tree_of(alloc, id)?;
        let mut line = Line::new(alloc);
        append_utf8(&mut line, text.as_slice())?;
        Ok(line)
    }
}
