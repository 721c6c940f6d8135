//! The tree before the subjects of visible messages.

ghost use Rattle.std.specs.Prelude.{◌≡◌, ◌<◌, ◌++◌, [], ℕ, Some, None, false, length, reverse};
ghost use Rattle.std.specs.Prelude.{slice_index_or, IfOk, OnOk};
ghost use Rattle.index_listed.specs.Entries.{ParentsFirst, RootsWithin, Tells, at, link};
ghost use Rattle.index_listed.specs.Tree as spec;
ghost use Rattle.index_listed.specs.Visibility.{is_visible};
ghost use Rattle.index_listed.specs.declared.entry.Above as above;

use crate::entry::{Above, Entry};
use crate::visibility::visible_flags;
use mail_base::{Bytes, NoMemory};
use std::alloc::Global;
use std::marker::Model;
use threads::Link;

/// Messages in the order of the index, and how the visible ones hang below each other.
pub struct Tree {
    entries: Vec<Entry>,
    // The nearest visible ancestor of each message.
    nearest: Vec<Option<usize>>,
    // The last visible message that hangs below each one.
    last: Vec<usize>,
}

impl Drop for Tree {
    fn drop(self) {
        let Tree {
            entries: _,
            nearest: _,
            last: _,
        } = self;
    }
}

impl Model for Tree {
    ghost use Rattle.std.specs.Prelude.{List};
    ghost use Rattle.index_listed.specs.Tree.{IsTree};
    ghost use Rattle.index_listed.specs.declared.entry.Entry.{Entry};

    ghost Value = { List Entry };

    ghost view = { λ t. t.entries.items };

    ghost invariant = { λ t. IsTree t.entries.items t.nearest.items t.last.items };
}

// The nearest visible ancestor of a message, given those of the messages before it.
fn next_nearest(flags: &[bool], nearest: &[Option<usize>], parent: Option<Above>) -> Option<usize>
    requires flags { (a : above.Above) → parent ≡ Some a → a.place < length flags.now }
    requires nearest { (a : above.Above) → parent ≡ Some a → a.place < length nearest.now }
    ensures { result ≡ spec.visible_or (λ p. slice_index_or flags.now p false)
        (λ p. slice_index_or nearest.now p None) (spec.place_of parent) }
{
    let above = parent?.place;
    if flags[above] {
        Some(above)
    } else {
        nearest[above]
    }
}

fn nearest_of(
    alloc: Global,
    entries: &[Entry],
    flags: &[bool],
) -> Result<Vec<Option<usize>>, NoMemory>
    requires parents { ParentsFirst entries.now }
    requires flags { Tells false (is_visible entries.now) (length entries.now) flags.now }
    ensures { IfOk result
        (λ n. Tells None (spec.nearest entries.now) (length entries.now) n.items) }
{
    let mut nearest = Vec::with_capacity(alloc, entries.len())?;
    for place in 0..entries.len() {
        let next = next_nearest(flags, &nearest, entries[place].parent);
        nearest.push(next)?;
    }
    Ok(nearest)
}

// Takes in the next message, where it is visible and hangs below another.
fn put_last(last: &mut Vec<usize>, nearest: Option<usize>, is_visible: bool, place: usize)
    requires { (a : ℕ) → nearest ≡ Some a → a < length last.old.items }
    ensures { last.new.items ≡ spec.with_last last.old.items nearest is_visible place }
{
    if let Some(above) = nearest {
        if is_visible {
            last[above] = place;
        }
    }
}

fn last_of(
    alloc: Global,
    entries: &[Entry],
    flags: &[bool],
    nearest: &[Option<usize>],
) -> Result<Vec<usize>, NoMemory>
    requires parents { ParentsFirst entries.now }
    requires flags { Tells false (is_visible entries.now) (length entries.now) flags.now }
    requires nearest { Tells None (spec.nearest entries.now) (length entries.now) nearest.now }
    ensures { IfOk result (λ l. spec.AreLast entries.now (length entries.now) l.items) }
{
    let mut last = vec![in alloc; 0; entries.len()]?;
    for place in 0..entries.len() {
        put_last(&mut last, nearest[place], flags[place], place);
    }
    Ok(last)
}

fn put_column(bytes: &mut Vec<u8>, later: bool) -> Result<(), NoMemory>
    ensures { OnOk result (bytes.new.items ≡ bytes.old.items ++ reverse (spec.column later)) }
{
    bytes.push(b' ')?;
    bytes.push(if later { b'|' } else { b' ' })?;
    Ok(())
}

fn sign(link: Link) -> u8
    ensures { result ≡ spec.sign link }
{
    match link {
        Link::Reference => b'-',
        Link::Duplicate => b'=',
        Link::Subject => b'*',
    }
}

fn put_branch(bytes: &mut Vec<u8>, later: bool, link: Link) -> Result<(), NoMemory>
    ensures { OnOk result (bytes.new.items ≡ bytes.old.items ++ reverse (spec.branch later link)) }
{
    bytes.push(b' ')?;
    bytes.push(b'>')?;
    bytes.push(sign(link))?;
    bytes.push(if later { b'|' } else { b'`' })?;
    Ok(())
}

impl Tree {
    /// Nothing is listed.
    pub fn none(alloc: Global) -> Tree
        ensures { result ≡ [] }
    {
        Tree {
            entries: Vec::new(alloc),
            nearest: Vec::new(alloc),
            last: Vec::new(alloc),
        }
    }

    /// Needs each root among the messages, and each message behind its parent.
    pub fn new(alloc: Global, entries: Vec<Entry>) -> Result<Tree, NoMemory>
        requires roots { RootsWithin entries.items }
        requires parents { ParentsFirst entries.items }
        ensures { IfOk result (λ t. t ≡ entries.items) }
    {
        let flags = visible_flags(alloc, &entries)?;
        let nearest = nearest_of(alloc, &entries, &flags)?;
        let last = last_of(alloc, &entries, &flags, &nearest)?;
        Ok(Tree {
            entries,
            nearest,
            last,
        })
    }

    /// Where the root of the message at a place stands.
    pub fn root(&self, place: usize) -> usize
        requires { place < length self.now }
        ensures { result ≡ (at self.now place).root }
    {
        self.entries[place].root
    }

    // Whether a message behind a place hangs below this one.
    fn has_later(&self, above: usize, place: usize) -> bool
        requires { above < length self.now }
        ensures { result ≡ spec.has_later self.now above place }
    {
        place < self.last[above]
    }

    // Puts the columns of a message and of its visible ancestors, from the last byte on.
    fn put_columns(&self, bytes: &mut Vec<u8>, start: usize) -> Result<(), NoMemory>
        requires { start < length self.now }
        ensures { OnOk result
            (bytes.new.items ≡ bytes.old.items ++ reverse (spec.columns self.now start)) }
    {
        let mut place = start;
        while let Some(above) = self.nearest[place] {
            put_column(bytes, self.has_later(above, place))?;
            place = above;
        }
        Ok(())
    }

    fn link(&self, place: usize) -> Link
        requires { place < length self.now }
        ensures { result ≡ link self.now place }
    {
        match self.entries[place].parent {
            Some(above) => above.link,
            None => Link::Reference,
        }
    }

    /// The tree text of the message at a place of the order; it has none where no ancestor is
    /// visible.
    pub fn text(&self, alloc: Global, place: usize) -> Result<Bytes, NoMemory>
        requires { place < length self.now }
        ensures { IfOk result (λ t. t.items ≡ spec.tree_text self.now place) }
    {
        let mut bytes = Vec::new(alloc);
        if let Some(above) = self.nearest[place] {
            put_branch(&mut bytes, self.has_later(above, place), self.link(place))?;
            self.put_columns(&mut bytes, above)?;
        }
        bytes.reverse();
        Ok(Bytes::from_vec(bytes))
    }
}
