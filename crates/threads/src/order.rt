//! Messages in the order of threads, without recursion.

ghost use Rattle.std.specs.Prelude.{◌≡◌, ◌<◌, ◌++◌, ◌∷◌, [], ℕ, List, length, map, replicate};
ghost use Rattle.std.specs.Prelude.{reverse, Bool, IfOk, OnOk};
ghost use Rattle.std.specs.List.{All, flat_map, range_with_len};
ghost use Rattle.std.specs.List.Sorted.{IsPermutation};
ghost use Rattle.std.specs.Ordering.{is_lt};
ghost use Rattle.mail_base.specs.declared.kind.Id as id;
ghost use Rattle.threads.specs.Families as spec;
ghost use Rattle.threads.specs.Found.{AreDistinct, LeadsBelow};
ghost use Rattle.threads.specs.Message.{plain_messages};
ghost use Rattle.threads.specs.Order.{Answers, IsStrictOrder, by_id, id_at};
ghost use Rattle.mail_base.specs.Ordered.{in_order_by};
ghost use Rattle.threads.specs.Order.{thread_order, tree_of};
ghost use Rattle.threads.specs.Walk.{Each};

use crate::message::Message;
use crate::step::Step;
use mail_base::{Id, Ids, NoMemory};
use std::alloc::Global;
use std::cmp::Ordering;

/// A place, with the id of the message there.
#[derive(Clone, Copy)]
pub struct Entry {
    pub place: usize,
    pub id: Id,
}

/// The roots, and the children of each place, the last of each first.
#[derive(Drop)]
pub struct Families {
    pub roots: Vec<usize>,
    pub children: Vec<Vec<usize>>,
}

fn entries_of(alloc: Global, messages: &[Message]) -> Result<Vec<Entry>, NoMemory>
    ensures { IfOk result (λ e. e.items ≡ spec.entries (plain_messages messages.now)) }
{
    let mut entries = Vec::with_capacity(alloc, messages.len())?;
    for place in 0..messages.len() {
        entries.push(Entry {
            place,
            id: messages[place].id,
        })?;
    }
    Ok(entries)
}

// No two messages have one id, so what does not come first comes behind.
fn compared<B: Fn(Id, Id) -> bool>(before: &B, a: Id, b: Id) -> Ordering
    requires { B.IsAlwaysCallable before.now }
    ensures { (order : id.Id → id.Id → Bool) → Answers B.Fn before.now order
        → is_lt result ≡ order a b }
{
    if before(a, b) {
        Ordering::Less
    } else {
        Ordering::Greater
    }
}

/// All places with their ids, in order.
pub fn sorted<B: Fn(Id, Id) -> bool>(
    alloc: Global,
    messages: &[Message],
    before: &B,
) -> Result<Vec<Entry>, NoMemory>
    requires callable { B.IsAlwaysCallable before.now }
    requires distinct { AreDistinct (plain_messages messages.now) }
    ensures entries { IfOk result
        (λ e. spec.AreEntries (plain_messages messages.now) e.items) }
    ensures moved { IfOk result
        (λ e. IsPermutation (range_with_len 0 (length messages.now)) (spec.places e.items)) }
    ensures sorted { (order : id.Id → id.Id → Bool) → IsStrictOrder order
        → Answers B.Fn before.now order
        → IfOk result (λ e. spec.places e.items
        ≡ in_order_by (by_id order (plain_messages messages.now))
        (range_with_len 0 (length messages.now))) }
{
    let mut entries = entries_of(alloc, messages)?;
    entries.sort_by(
        |a: &Entry, b: &Entry| -> Ordering
            requires { B.IsAlwaysCallable before.now }
            ensures { (order : id.Id → id.Id → Bool) → Answers B.Fn before.entry.now order
                → is_lt result ≡ order a.now.id b.now.id }
        { compared(before, a.id, b.id) },
    )?;
    Ok(entries)
}

fn empty_lists(alloc: Global, count: usize) -> Result<Vec<Vec<usize>>, NoMemory>
    ensures { IfOk result (λ l. spec.lists l.items ≡ replicate count []) }
{
    let mut lists = Vec::with_capacity(alloc, count)?;
    for _ in 0..count {
        lists.push(Vec::new(alloc))?;
    }
    Ok(lists)
}

impl Families {
    // Puts a place behind the children of its parent, or behind the roots.
    fn put(&mut self, parents: &[Option<Step>], place: usize) -> Result<(), NoMemory>
        requires within { place < length parents.now }
        requires leads { LeadsBelow (length parents.now) parents.now }
        requires long { length self.old.children.items ≡ length parents.now }
        ensures { (added : List ℕ) → spec.AreFamilies parents.now added self.old
            → OnOk result (spec.AreFamilies parents.now (added ++ place ∷ []) self.new) }
    {
        match parents[place] {
            Some(step) => self.children[step.place].push(place)?,
            None => self.roots.push(place)?,
        }
        Ok(())
    }
}

/// The families of all places, of which the last comes first.
pub fn families_of(
    alloc: Global,
    parents: &[Option<Step>],
    entries: &[Entry],
) -> Result<Families, NoMemory>
    requires within { All (λ e. e.place < length parents.now) entries.now }
    requires leads { LeadsBelow (length parents.now) parents.now }
    ensures { IfOk result (spec.AreFamilies parents.now (spec.places entries.now)) }
{
    let mut families = Families {
        roots: Vec::new(alloc),
        children: empty_lists(alloc, parents.len())?,
    };
    for entry in entries {
        families.put(parents, entry.place)?;
    }
    Ok(families)
}

fn put_all(stack: &mut Vec<usize>, places: &[usize]) -> Result<(), NoMemory>
    ensures { OnOk result (stack.new.items ≡ stack.old.items ++ places.now) }
{
    for place in places {
        stack.push(*place)?;
    }
    Ok(())
}

/// The ids of the trees of some roots, of which the last stands first.
pub fn walk(alloc: Global, messages: &[Message], families: Families) -> Result<Ids, NoMemory>
    requires long { length families.children.items ≡ length messages.now }
    requires within { Each (λ p. p < length messages.now) (reverse families.roots.items) }
    requires trees { spec.CanWalk (spec.below families.children.items) (length messages.now) }
    ensures { IfOk result (λ ids. ids.items ≡ map (id_at (plain_messages messages.now))
        (flat_map (tree_of (spec.below families.children.items) (length messages.now))
        (reverse families.roots.items))) }
{
    let Families { roots, children } = families;
    let mut stack = roots;
    let mut order = Vec::with_capacity(alloc, messages.len())?;
    while let Some(place) = stack.pop() {
        order.push(messages[place].id)?;
        put_all(&mut stack, &children[place])?;
    }
    Ok(Ids::from_vec(order))
}

/// The ids of all messages in the order of threads, where siblings and roots stand by `before`.
pub fn ordered<B: Fn(Id, Id) -> bool>(
    alloc: Global,
    messages: &[Message],
    parents: &[Option<Step>],
    before: &B,
) -> Result<Ids, NoMemory>
    requires callable { B.IsAlwaysCallable before.now }
    requires parents { spec.CanOrder (plain_messages messages.now) parents.now }
    ensures order { (order : id.Id → id.Id → Bool) → IsStrictOrder order
        → Answers B.Fn before.now order
        → IfOk result (λ ids. ids.items ≡ map (id_at (plain_messages messages.now))
        (thread_order (by_id order (plain_messages messages.now)) parents.now)) }
    ensures once { IfOk result
        (λ ids. IsPermutation (map (λ m. m.id) (plain_messages messages.now)) ids.items) }
    ensures put { IfOk result
        (λ ids. spec.ArePut (plain_messages messages.now) parents.now ids.items) }
{
    let mut entries = sorted(alloc, messages, before)?;
    entries.reverse();
    let families = families_of(alloc, parents, &entries)?;
    walk(alloc, messages, families)
}
