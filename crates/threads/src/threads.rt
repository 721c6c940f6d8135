//! Threads of messages, worked out once from a whole listing.

ghost use Rattle.std.specs.Prelude.{◌≡◌, ◌==◌, ◌<◌, ◌++◌, ◌∷◌, [], length, map, slice_index};
ghost use Rattle.std.specs.Prelude.{slice_index_or, true, false, None, is_some, option_map, Some};
ghost use Rattle.std.specs.Prelude.{IsSome, IfSome, OnOk, OnErr, IfOk, if◌then◌else◌, Bool};
ghost use Rattle.std.specs.List.Sorted.{IsPermutation};
ghost use Rattle.headers.specs.Header.{plain_header};
ghost use Rattle.mail_base.specs.declared.kind.Id as id;
ghost use Rattle.threads.specs.Message as message;
ghost use Rattle.threads.specs.Forest.{IsForest};
ghost use Rattle.threads.specs.Found as kept;
ghost use Rattle.threads.specs.Subjects.{parents};
ghost use Rattle.threads.specs.Order as order;
ghost use Rattle.threads.specs.Threads as spec;

use crate::links::links_of;
use crate::message::{Message, kept_of};
use crate::numbers::BuildNumberHasher;
use crate::options::{Parent, ThreadOptions};
use crate::order::ordered;
use crate::step::Step;
use crate::subjects::with_subjects;
use crate::walk::ends_of;
use headers::Header;
use indexmap::IndexSet;
use mail_base::{Id, Ids, NoMemory};
use std::alloc::Global;
use std::marker::Model;

/// Threads, which contracts see as their options, the messages that were added, and whether
/// their parents are worked out.
pub struct Threads {
    alloc: Global,
    options: ThreadOptions,
    messages: Vec<Message>,
    // the numbers of their ids, in the same order
    numbers: IndexSet<u32, BuildNumberHasher>,
    found: Option<Found>,
}

/// What was worked out: each message's parent and root, by places.
#[derive(Drop)]
pub struct Found {
    pub parents: Vec<Option<Step>>,
    pub roots: Vec<usize>,
}

impl Drop for Threads {
    fn drop(self) {
        let Threads {
            alloc: _,
            options: _,
            messages: _,
            numbers: _,
            found: _,
        } = self;
    }
}

impl Model for Threads {
    ghost use Rattle.threads.specs.Threads.{PlainThreads};

    ghost Value = { PlainThreads };

    ghost use Rattle.std.specs.Prelude.{◌≡◌, is_some};
    ghost use Rattle.threads.specs.Message.{numbers as numbers_of, plain_messages};
    ghost use Rattle.threads.specs.Found.{AreKept};

    ghost view = { λ t. record {
      options = t.options;
      messages = plain_messages t.messages.items;
      is_finished = is_some t.found;
    } };

    ghost invariant = { λ t. AreKept t.options (plain_messages t.messages.items) t.numbers.keys
        t.found };
}

impl Threads {
    pub fn new(alloc: Global, options: ThreadOptions) -> Threads
        ensures { result ≡ record { options = options; messages = []; is_finished = false } }
    {
        Threads {
            alloc,
            options,
            messages: Vec::new(alloc),
            numbers: IndexSet::with_hasher(alloc, BuildNumberHasher::new()),
            found: None,
        }
    }

    fn place_of(&self, id: Id) -> Option<usize>
        ensures value { result ≡ spec.place_of self.now.messages id }
        ensures within { IfSome result (λ p. p < length self.now.messages) }
    {
        self.numbers.get_index_of(&id.0)
    }

    /// Whether a message with this id was added.
    pub fn holds(&self, id: Id) -> bool
        ensures { result ≡ is_some (spec.place_of self.now.messages id) }
    {
        self.place_of(id).is_some()
    }

    /// Adds a message of the listing, which stands there by `order`, the bytes of `key` and its id.
    /// `received` is seconds since 1970 in UTC.
    pub fn add(
        &mut self,
        id: Id,
        order: u64,
        key: &[u8],
        received: i64,
        header: &Header,
    ) -> Result<(), NoMemory>
        requires open { self.old.is_finished ≡ false }
        requires absent { spec.place_of self.old.messages id ≡ None }
        ensures ok { OnOk result (self.new ≡ record self.old {
          messages = self.old.messages
              ++ message.message id order key.now received (plain_header header.now) ∷ [];
        }) }
        ensures err { OnErr result (self.new ≡ self.old) }
    {
        self.messages.reserve(1)?;
        let kept = kept_of(self.alloc, id, order, key, received, header)?;
        self.numbers.insert(id.0)?;
        self.messages.push_reserved(kept);
        Ok(())
    }

    /// Works out the parents of all messages.
    pub fn finish(&mut self) -> Result<(), NoMemory>
        requires { self.old.is_finished ≡ false }
        ensures ok { OnOk result (self.new ≡ record self.old { is_finished = true }) }
        ensures err { OnErr result (self.new ≡ self.old) }
        // No message follows itself, by however many steps.
        ensures forest { OnOk result (IsForest (parents self.old.options self.old.messages)) }
    {
        let found = found_of(self.alloc, self.options, self.messages.as_slice())?;
        self.found = Some(found);
        Ok(())
    }

    /// Whom the message follows, and by what.
    pub fn parent(&self, id: Id) -> Option<Parent>
        requires finished { self.now.is_finished ≡ true }
        requires held { IsSome (spec.place_of self.now.messages id) }
        ensures { result ≡ spec.parent self.now id }
    {
        let place = self.place_of(id)?;
        match &self.found {
            Some(found) => parent_at(self.messages.as_slice(), found, place),
            None => None,
        }
    }

    /// The root of the message's thread.
    pub fn thread_of(&self, id: Id) -> Id
        requires finished { self.now.is_finished ≡ true }
        requires held { IsSome (spec.place_of self.now.messages id) }
        ensures { Some result ≡ spec.thread_of self.now id }
    {
        let Some(place) = self.place_of(id) else {
            return id;
        };
        match &self.found {
            Some(found) => root_at(self.messages.as_slice(), found, place),
            None => id,
        }
    }

    /// The ids of all messages, each root followed by the trees of its children. `before` tells
    /// whether one id comes before another, for roots and for the children of one message.
    pub fn order_from<B: Fn(Id, Id) -> bool>(
        &self,
        alloc: Global,
        before: &B,
    ) -> Result<Ids, NoMemory>
        requires finished { self.now.is_finished ≡ true }
        requires callable { B.IsAlwaysCallable before.now }
        ensures order { (by : id.Id → id.Id → Bool) → order.IsStrictOrder by
            → order.Answers B.Fn before.now by
            → IfOk result (λ ids. ids.items ≡ order.order_from by self.now) }
        // Each message once, and behind its parent, whatever `before` answers.
        ensures once { IfOk result
            (λ ids. IsPermutation (map (λ m. m.id) self.now.messages) ids.items) }
        ensures first { IfOk result (λ ids. order.ParentsFirst self.now ids.items) }
    {
        match &self.found {
            Some(found) => {
                ordered(
                    alloc,
                    self.messages.as_slice(),
                    found.parents.as_slice(),
                    before,
                )
            }
            None => Ok(Ids::new(alloc)),
        }
    }
}

fn id_at(messages: &[Message], place: usize) -> Id
    requires { place < length messages.now }
    ensures { result ≡ (message.at (message.plain_messages messages.now) place).id }
{
    messages[place].id
}

fn parent_at(messages: &[Message], found: &Found, place: usize) -> Option<Parent>
    requires within { place < length found.now.parents.items }
    requires leads { kept.LeadsBelow (length messages.now) found.now.parents.items }
    ensures { result ≡ option_map (spec.parent_by (message.plain_messages messages.now))
        (slice_index_or found.now.parents.items place None) }
{
    match step_at(found.parents.as_slice(), place) {
        Some(step) => Some(Parent {
            id: id_at(messages, step.place),
            link: step.link,
        }),
        None => None,
    }
}

fn step_at(parents: &[Option<Step>], place: usize) -> Option<Step>
    requires { place < length parents.now }
    ensures { result ≡ slice_index_or parents.now place None }
{
    parents[place]
}

fn root_at(messages: &[Message], found: &Found, place: usize) -> Id
    requires within { place < length found.now.roots.items }
    requires below { kept.AreWithin found.now.roots.items (length messages.now) }
    ensures { result ≡ (message.at (message.plain_messages messages.now)
        (slice_index found.now.roots.items place)).id }
{
    id_at(messages, found.roots[place])
}

fn cut_at(links: &[Option<Step>], roots: &[usize], place: usize) -> Option<Step>
    requires link { place < length links.now }
    requires root { place < length roots.now }
    ensures { result
        ≡ (if slice_index roots.now place == place then None
        else slice_index_or links.now place None) }
{
    if roots[place] == place {
        None
    } else {
        links[place]
    }
}

// The links without those of the places that are their own roots.
fn cut(
    alloc: Global,
    links: &[Option<Step>],
    roots: &[usize],
) -> Result<Vec<Option<Step>>, NoMemory>
    requires { length links.now ≡ length roots.now }
    ensures { IfOk result (λ l. l.items ≡ kept.cut_at_roots links.now roots.now) }
{
    let mut parents = Vec::with_capacity(alloc, links.len())?;
    for place in 0..links.len() {
        parents.push(cut_at(links, roots, place))?;
    }
    Ok(parents)
}

// The roots where some roots have parents, which are roots.
fn roots_above(
    alloc: Global,
    roots: &[usize],
    parents: &[Option<Step>],
) -> Result<Vec<usize>, NoMemory>
    requires { kept.AreWithin roots.now (length parents.now) }
    ensures { IfOk result (λ r. r.items ≡ map (kept.root_above parents.now) roots.now) }
{
    let mut above = Vec::with_capacity(alloc, roots.len())?;
    for root in roots {
        above.push(match parents[*root] {
            Some(step) => step.place,
            None => *root,
        })?;
    }
    Ok(above)
}

fn found_of(alloc: Global, options: ThreadOptions, messages: &[Message]) -> Result<Found, NoMemory>
    requires { kept.AreDistinct (message.plain_messages messages.now) }
    ensures found { IfOk result (kept.IsFound options (message.plain_messages messages.now)) }
    ensures forest { OnOk result
        (IsForest (parents options (message.plain_messages messages.now))) }
{
    let links = links_of(alloc, options, messages)?;
    let ends = ends_of(alloc, messages, &links)?;
    let references = cut(alloc, &links, &ends)?;
    let parents = with_subjects(alloc, options, messages, &references)?;
    let roots = roots_above(alloc, &ends, &parents)?;
    Ok(Found { parents, roots })
}
