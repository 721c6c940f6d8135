//! What the index answers, worked out from scratch.

ghost use Rattle.std.specs.Prelude.{◌≡◌, ◌<◌, length, map, nat_eq, option_map, slice_get, true};
ghost use Rattle.std.specs.Prelude.{IfOk};
ghost use Rattle.std.specs.List.{IsDistinct};
ghost use Rattle.index_items.specs.Items.{plain_item, plain_items};
ghost use Rattle.index_listed.specs.Listed.{plain_listed};
ghost use Rattle.index_listed.specs.Places.{numbers};
ghost use Rattle.index_listed.specs.Seen.{sight};
ghost use Rattle.index_listed.specs.Sight.{AreFirst};
ghost use Rattle.index_listed.specs.Threaded.{AreThreaded};
ghost use Rattle.index_listed.specs.Threading as threading;
ghost use Rattle.index_order.specs.Options.{sort_options};
ghost use Rattle.index_order.specs.Order as ordering;
ghost use Rattle.index_rows.specs.Ties.{plain_ties, ties_of};
ghost use Rattle.index_view.specs.Acting as acting;
ghost use Rattle.index_view.specs.Answers as spec;
ghost use Rattle.index_view.specs.Limit.{all_within};
ghost use Rattle.patterns_match.specs.Pattern.{plain_pattern};
ghost use Rattle.index_view.specs.Lines.{shut_at as hidden_at};
ghost use Rattle.index_view.specs.Marks.{marks_of};
ghost use Rattle.index_view.specs.Ordering.{keys};
ghost use Rattle.index_view.specs.Tables.{table};
ghost use Rattle.patterns_match.specs.ScoreEntries.{held_entries};
ghost use Rattle.threads.specs.Order.{ParentsFirst};

use crate::asked::messages_of;
use crate::limiting::all_within;
use crate::marks::marks;
use crate::messages::Messages;
use crate::ordering::{keys, numbered};
use crate::rows::{first_rows, renumbered, score_alike, scored_rows};
use crate::tables::Tables;
use index_items::Item;
use index_listed::{
    Links, Listed, Places, Sight, Stance, Threaded, in_threads, moved_by_shutting, places_of,
    stances,
};
use index_order::{ViewOptions, order};
use index_rows::{Shut, Ties};
use mail_base::{Id, Ids, NoMemory};
use patterns_match::{Pattern, Row, matches};
use people::People;
use std::alloc::Global;
use std::marker::Model;
use threads::Parent;

/// What the index answers.
#[derive(Drop)]
pub struct Answers {
    places: Places,
    parents: Vec<Option<Parent>>,
    links: Vec<Links>,
    rows: Vec<Row>,
    ties: Vec<Ties>,
    stances: Vec<Stance>,
    sight: Sight,
}

impl Model for Answers {
    ghost use Rattle.std.specs.Prelude.{map};
    ghost use Rattle.index_rows.specs.Ties.{plain_ties};
    ghost use Rattle.index_view.specs.Answers.{AreKept, PlainAnswers};

    ghost Value = { PlainAnswers };

    ghost view = { λ a. record {
      parents = a.parents.items;
      links = a.links.items;
      rows = a.rows.items;
      ties = map plain_ties a.ties.items;
      stances = a.stances.items;
      sight = a.sight;
    } };

    ghost invariant = { λ a. AreKept a.places a.parents.items a.links.items a.rows.items
        (map plain_ties a.ties.items) a.stances.items a.sight.order };
}

/// The listed messages with their numbers, their ids in order, and how they stand there.
#[derive(Drop)]
pub struct Ranked {
    pub rows: Vec<Row>,
    pub order: Ids,
    pub stances: Vec<Stance>,
}

// The messages without numbers, with what each scores.
fn scored(
    alloc: Global,
    tables: &mut Tables,
    items: &[Item],
    listed: &[Listed<'_>],
    links: &[Links],
) -> Result<Vec<Row>, NoMemory>
    requires items { length items.now ≡ length listed.now }
    requires links { length links.now ≡ length listed.now }
    requires within { threading.AllWithin (length listed.now) links.now }
    ensures value { IfOk result (λ rows. rows.items ≡ spec.scored_by tables.old.people
        (held_entries tables.old.scores.entries.items) (map plain_listed listed.now)
        (plain_items items.now) links.now) }
    ensures same { tables.new ≡ tables.old }
{
    let rows = first_rows(alloc, listed, items, links)?;
    let messages = messages_of(listed, &rows, links);
    scored_rows(
        alloc,
        &mut tables.scores,
        &mut tables.people,
        &messages,
        &rows,
    )
}

// The ids of the messages in the order of the index.
fn order_of(
    alloc: Global,
    options: ViewOptions,
    listed: &[Listed<'_>],
    scored: &[Row],
    threaded: &Threaded,
) -> Result<Ids, NoMemory>
    requires rows { length scored.now ≡ length listed.now }
    requires apart { threading.AreApart (map plain_listed listed.now) }
    requires threaded { AreThreaded options.threads (map plain_listed listed.now)
        threaded.now }
    ensures order { IfOk result (λ ids. ids.items ≡ ordering.order
        (sort_options options) (keys (map plain_listed listed.now) scored.now)
        threaded.now.threads) }
    ensures apart { IfOk result (λ ids. IsDistinct nat_eq (numbers ids.items)) }
    ensures first { ordering.is_threads options.sort ≡ true
        → IfOk result (λ ids. ParentsFirst threaded.now.threads ids.items) }
{
    let keys = keys(alloc, listed, scored)?;
    let order = order(alloc, &keys, &threaded.threads, options.sorting())?;
    Ok(order)
}

fn in_order(
    alloc: Global,
    options: ViewOptions,
    tables: &mut Tables,
    items: &[Item],
    listed: &[Listed<'_>],
    threaded: &Threaded,
) -> Result<Ranked, NoMemory>
    requires items { length items.now ≡ length listed.now }
    requires apart { threading.AreApart (map plain_listed listed.now) }
    requires threaded { AreThreaded options.threads (map plain_listed listed.now)
        threaded.now }
    ensures value { IfOk result (spec.AreRanked (map plain_listed listed.now)
        (spec.facts options items.now tables.old)) }
    ensures same { tables.new ≡ tables.old }
{
    let scored = scored(alloc, tables, items, listed, &threaded.links)?;
    let order = order_of(alloc, options, listed, &scored, threaded)?;
    let Threaded {
        threads,
        places,
        ..
    } = threaded;
    let order_places = places_of(alloc, order.as_slice())?;
    let rows = numbered(alloc, &scored, &order_places)?;
    let is_threaded = options.sort.is_threads();
    let ids = order.as_slice();
    let stances = stances(alloc, is_threaded, threads, places, &order_places, ids)?;
    Ok(Ranked {
        rows,
        order,
        stances,
    })
}

fn all_ties(
    alloc: Global,
    people: &mut People,
    listed: &[Listed<'_>],
) -> Result<Vec<Ties>, NoMemory>
    ensures value { IfOk result (λ all. map plain_ties all.items
        ≡ map (λ l. ties_of people.old l.header) (map plain_listed listed.now)) }
    ensures same { people.new ≡ people.old }
{
    let mut all = Vec::with_capacity(alloc, listed.len())?;
    let mut left = listed;
    while let [first, rest @ ..] = left {
        all.push(Ties::of(alloc, people, first.header)?)?;
        left = rest;
    }
    Ok(all)
}

// What of the messages is seen, given their links, rows and order.
fn sight_of(
    alloc: Global,
    tables: &mut Tables,
    listed: &[Listed<'_>],
    links: &[Links],
    rows: &[Row],
    order: Ids,
    stances: &[Stance],
) -> Result<Sight, NoMemory>
    requires rows { length rows.now ≡ length listed.now }
    requires links { length links.now ≡ length listed.now }
    requires within { threading.AllWithin (length listed.now) links.now }
    requires apart { IsDistinct nat_eq (numbers order.items) }
    requires stances { length stances.now ≡ length order.items }
    requires first { AreFirst stances.now }
    ensures value { IfOk result (λ s. s ≡ sight (marks_of rows.now
        (all_within tables.old.people (option_map plain_pattern tables.old.limit)
        (table (map plain_listed listed.now) rows.now links.now))) order.items stances.now) }
    ensures same { tables.new ≡ tables.old }
{
    let messages = messages_of(listed, rows, links);
    let within = all_within(alloc, &mut tables.limit, &mut tables.people, &messages)?;
    let marks = marks(alloc, rows, &within)?;
    Sight::new(alloc, &marks, order, stances)
}

// The shut thread whose other messages the one at a place of the order hides.
fn shut_at(sight: &Sight, place: usize) -> Option<Shut>
    requires { place < length sight.now.entries }
    ensures { result ≡ hidden_at sight.now place }
{
    if !sight.hides(place) {
        return None;
    }
    Some(Shut {
        has_new: sight.has_new(place),
        has_old: sight.has_old(place),
    })
}

// Whether the message at a place of the order is unread, and old or not.
fn is_unread(old: bool, rows: &[Row], stances: &[Stance], place: usize) -> bool
    ensures { result ≡ acting.unread_of old rows.now (slice_get stances.now place) }
{
    let Some(stance) = stances.get(place) else {
        return false;
    };
    match rows.get(stance.place) {
        Some(row) if old => row.flags.is_old(),
        Some(row) => row.flags.is_new(),
        None => false,
    }
}

// Asks all threads anew for unread messages.
fn tell_unread(sight: &mut Sight, rows: &[Row], stances: &[Stance])
    ensures { sight.new ≡ acting.told rows.now stances.now sight.old }
{
    sight.clear_unread();
    for place in 0..sight.len() {
        let is_new = is_unread(false, rows, stances, place);
        let is_old = is_unread(true, rows, stances, place);
        sight.put_unread(place, is_new, is_old);
    }
}

impl Answers {
    ghost use Rattle.std.specs.Prelude.{◌≡◌, ◌<◌, length, map, option_map, slice_index_or, IfOk};
    ghost use Rattle.std.specs.Prelude.{find, slice_set, IfSome, OnErr, OnOk};
    ghost use Rattle.index_items.specs.Items.{plain_item};
    ghost use Rattle.index_listed.specs.Cursor.{moved_by_shutting};
    ghost use Rattle.index_listed.specs.Listed.{plain_listed};
    ghost use Rattle.index_listed.specs.Seen.{sight, visible_ids};
    ghost use Rattle.index_listed.specs.Threading as threading;
    ghost use Rattle.index_rows.specs.Ties.{plain_ties};
    ghost use Rattle.index_view.specs.Acting as acting;
    ghost use Rattle.index_view.specs.Answers as spec;
    ghost use Rattle.index_view.specs.Limit.{all_within};
    ghost use Rattle.patterns_match.specs.Pattern.{plain_pattern};
    ghost use Rattle.index_view.specs.Lines.{hidden_by, no_ties};
    ghost use Rattle.index_view.specs.Marks.{marks_of};
    ghost use Rattle.index_view.specs.Searching.{found_from};
    ghost use Rattle.index_view.specs.Tables.{row_at, seen_of, table};

    /// Nothing is listed.
    pub fn none(alloc: Global) -> Answers
        ensures { result ≡ spec.no_answers }
    {
        Answers {
            places: Places::new(alloc),
            parents: Vec::new(alloc),
            links: Vec::new(alloc),
            rows: Vec::new(alloc),
            ties: Vec::new(alloc),
            stances: Vec::new(alloc),
            sight: Sight::none(alloc),
        }
    }

    /// What is answered of the messages.
    pub fn of(
        alloc: Global,
        options: ViewOptions,
        tables: &mut Tables,
        items: &[Item],
        listed: &[Listed<'_>],
    ) -> Result<Answers, NoMemory>
        requires items { length items.now ≡ length listed.now }
        requires apart { threading.AreApart (map plain_listed listed.now) }
        ensures value { IfOk result (λ a. a ≡ spec.answers (map plain_listed listed.now)
            (spec.facts options items.now tables.old)) }
        ensures same { tables.new ≡ tables.old }
    {
        let ties = all_ties(alloc, &mut tables.people, listed)?;
        let threaded = in_threads(alloc, options.threads, listed)?;
        let ranked = in_order(alloc, options, tables, items, listed, &threaded)?;
        let Threaded {
            places,
            links,
            parents,
            ..
        } = threaded;
        let Ranked {
            rows,
            order,
            stances,
        } = ranked;
        let sight = sight_of(alloc, tables, listed, &links, &rows, order, &stances)?;
        Ok(Answers {
            places,
            parents,
            links,
            rows,
            ties,
            stances,
            sight,
        })
    }

    /// What of the messages is seen with these rows, and under the limit that stands in the tables.
    pub fn seen_with(
        &self,
        alloc: Global,
        tables: &mut Tables,
        listed: &[Listed<'_>],
        rows: &[Row],
    ) -> Result<Sight, NoMemory>
        requires listed { length self.now.rows ≡ length listed.now }
        requires rows { length rows.now ≡ length listed.now }
        ensures value { IfOk result (λ s. s ≡ sight (marks_of rows.now
            (all_within tables.old.people (option_map plain_pattern tables.old.limit)
            (table (map plain_listed listed.now) rows.now self.now.links)))
            self.now.sight.order self.now.stances) }
        ensures same { tables.new ≡ tables.old }
    {
        let order = Ids::from_vec(self.sight.order().as_slice().to_vec(alloc)?);
        sight_of(
            alloc,
            tables,
            listed,
            &self.links,
            rows,
            order,
            &self.stances,
        )
    }

    /// Puts in what is answered now that threads were shut or opened, and says where the cursor
    /// goes. Threads, parents, links and ties stay, and so does the order where each message scores
    /// what it did.
    pub fn fold(
        &mut self,
        alloc: Global,
        options: ViewOptions,
        tables: &mut Tables,
        items: &[Item],
        listed: &[Listed<'_>],
        cursor: Option<Id>,
    ) -> Result<Option<Id>, NoMemory>
        requires items { length items.now ≡ length listed.now }
        requires apart { threading.AreApart (map plain_listed listed.now) }
        requires were { spec.WereAnswered (map plain_listed listed.now)
            (spec.facts options items.now tables.old) self.old }
        ensures ok { OnOk result (self.new ≡ spec.answers (map plain_listed listed.now)
            (spec.facts options items.now tables.old)) }
        ensures err { OnErr result (self.new ≡ self.old) }
        ensures cursor { IfOk result (λ c. c ≡ moved_by_shutting self.new.sight
            (visible_ids self.old.sight) (visible_ids self.new.sight) cursor) }
        ensures same { tables.new ≡ tables.old }
    {
        let scored = scored(alloc, tables, items, listed, &self.links)?;
        if !score_alike(&self.rows, &scored) {
            let answers = Answers::of(alloc, options, tables, items, listed)?;
            let cursor = moved_by_shutting(&self.sight, &answers.sight, cursor);
            *self = answers;
            return Ok(cursor);
        }
        let rows = renumbered(alloc, &self.rows, &scored)?;
        let sight = self.seen_with(alloc, tables, listed, &rows)?;
        let cursor = moved_by_shutting(&self.sight, &sight, cursor);
        self.rows = rows;
        self.sight = sight;
        Ok(cursor)
    }

    /// What is seen.
    pub fn sight(&self) -> &Sight
        ensures value { result.now ≡ self.now.sight }
        ensures apart { IsDistinct nat_eq (numbers result.now.order) }
    {
        &self.sight
    }

    /// Puts in how the message at a place of the listing stands now.
    pub fn remark(&mut self, place: usize, item: Item)
        requires { place < length self.old.rows }
        ensures { self.new ≡ record self.old {
          rows = slice_set self.old.rows place
              (acting.remarked (plain_item item) (row_at self.old.rows place));
        } }
    {
        let row = &mut self.rows[place];
        row.flags = item.shown();
        row.deleted = item.pending.deleted;
        row.tagged = item.tagged;
    }

    /// Asks all threads anew for unread messages.
    pub fn tell_unread(&mut self)
        ensures { self.new ≡ acting.with_unread self.old }
    {
        tell_unread(&mut self.sight, &self.rows, &self.stances);
    }

    /// Puts in what is seen of the same order.
    pub fn put_sight(&mut self, sight: Sight)
        requires { sight.order ≡ self.old.sight.order }
        ensures { self.new ≡ record self.old { sight = sight } }
    {
        self.sight = sight;
    }

    /// Where a message stands in the listing.
    pub fn place(&self, id: Id) -> Option<usize>
        ensures place { result ≡ spec.place_of self.now id }
        ensures within { IfSome result (λ p. p < length self.now.rows) }
    {
        self.places.find(id)
    }

    /// What is shown of the messages, in the order of the listing.
    pub fn rows(&self) -> &[Row]
        ensures { result.now ≡ self.now.rows }
    {
        &self.rows
    }

    /// What the tables of people tell of it.
    pub fn ties_at(&self, place: usize) -> &Ties
        requires { place < length self.now.rows }
        ensures { plain_ties result.now ≡ slice_index_or self.now.ties place no_ties }
    {
        &self.ties[place]
    }

    /// The shut thread whose other messages the one with an id hides.
    pub fn shut_of(&self, id: Id) -> Option<Shut>
        ensures { result ≡ hidden_by self.now.sight id }
    {
        let place = self.sight.place(id)?;
        shut_at(&self.sight, place)
    }

    /// What is shown of a message.
    pub fn row(&self, id: Id) -> Option<Row>
        ensures { result ≡ spec.row self.now id }
    {
        let place = self.place(id)?;
        Some(self.rows[place])
    }

    /// Whom a message follows, and by what.
    pub fn parent(&self, id: Id) -> Option<Parent>
        ensures { result ≡ spec.parent_of self.now id }
    {
        let place = self.place(id)?;
        self.parents[place]
    }

    /// The root of a message's thread.
    pub fn thread_of(&self, id: Id) -> Option<Id>
        ensures { result ≡ spec.thread_of self.now id }
    {
        let place = self.place(id)?;
        let root = self.links[place].root;
        Some(self.rows[root].id)
    }

    // Whether the message with an id satisfies a pattern.
    fn passes(
        &self,
        alloc: Global,
        people: &mut People,
        messages: &Messages<'_>,
        pattern: &mut Pattern,
        id: Id,
    ) -> Result<bool, NoMemory>
        requires { length (seen_of messages.now) ≡ length self.now.rows }
        ensures value { IfOk result (λ passed. passed ≡ spec.id_passes people.old
            (plain_pattern pattern.old) (seen_of messages.now) self.now id) }
        ensures same { (pattern.new ≡ pattern.old) × (people.new ≡ people.old) }
    {
        match self.place(id) {
            Some(place) => matches(alloc, pattern, place, messages, people),
            None => Ok(false),
        }
    }

    /// The ids that are seen and satisfy a pattern, in order.
    pub fn picked(
        &self,
        alloc: Global,
        people: &mut People,
        listed: &[Listed<'_>],
        pattern: &mut Pattern,
    ) -> Result<Ids, NoMemory>
        requires { length self.now.rows ≡ length listed.now }
        ensures value { IfOk result (λ ids. ids.items ≡ spec.picked people.old
            (plain_pattern pattern.old)
            (table (map plain_listed listed.now) self.now.rows self.now.links) self.now) }
        ensures same { (pattern.new ≡ pattern.old) × (people.new ≡ people.old) }
    {
        let messages = messages_of(listed, &self.rows, &self.links);
        let mut ids = Ids::new(alloc);
        let mut left = self.sight.visible().as_slice();
        while let [first, rest @ ..] = left {
            if self.passes(alloc, people, &messages, pattern, *first)? {
                ids.push(*first)?;
            }
            left = rest;
        }
        Ok(ids)
    }

    // The first of some ids that satisfies a pattern. None behind it is asked.
    fn first_passing(
        &self,
        alloc: Global,
        people: &mut People,
        messages: &Messages<'_>,
        pattern: &mut Pattern,
        ids: &[Id],
    ) -> Result<Option<Id>, NoMemory>
        requires { length (seen_of messages.now) ≡ length self.now.rows }
        ensures value { IfOk result (λ found. found ≡ find (spec.id_passes people.old
            (plain_pattern pattern.old) (seen_of messages.now) self.now) ids.now) }
        ensures same { (pattern.new ≡ pattern.old) × (people.new ≡ people.old) }
    {
        let mut left = ids;
        while let [first, rest @ ..] = left {
            if self.passes(alloc, people, messages, pattern, *first)? {
                return Ok(Some(*first));
            }
            left = rest;
        }
        Ok(None)
    }

    /// The next id that is seen and satisfies a pattern, from the one behind a place of what is
    /// seen on, going round to that place last. No message behind the one that is found is asked.
    pub fn found_from(
        &self,
        alloc: Global,
        people: &mut People,
        listed: &[Listed<'_>],
        pattern: &mut Pattern,
        place: usize,
    ) -> Result<Option<Id>, NoMemory>
        requires listed { length self.now.rows ≡ length listed.now }
        requires place { place < length (visible_ids self.now.sight) }
        ensures value { IfOk result (λ found. found ≡ found_from people.old
            (plain_pattern pattern.old)
            (table (map plain_listed listed.now) self.now.rows self.now.links) self.now place) }
        ensures same { (pattern.new ≡ pattern.old) × (people.new ≡ people.old) }
    {
        let messages = messages_of(listed, &self.rows, &self.links);
        let (front, behind) = self.sight.visible().as_slice().split_at(place + 1);
        match self.first_passing(alloc, people, &messages, pattern, behind)? {
            Some(id) => Ok(Some(id)),
            None => self.first_passing(alloc, people, &messages, pattern, front),
        }
    }
}
