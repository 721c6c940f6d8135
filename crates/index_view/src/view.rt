//! A view of a folder's listed messages.

ghost use Rattle.std.specs.Prelude.{◌≡◌, length, map, IfOk};
ghost use Rattle.folder_letters.specs.Letters.{plain_letter};
ghost use Rattle.headers.specs.Header.{plain_header};
ghost use Rattle.index_items.specs.Items.{numbers, plain_items};
ghost use Rattle.index_listed.specs.Heads.{AreHeads, AreWithin};
ghost use Rattle.index_listed.specs.Listed.{plain_listed};
ghost use Rattle.index_view.specs.Answers.{facts};
ghost use Rattle.index_view.specs.Listing as listing;
ghost use Rattle.index_view.specs.View as spec;

use crate::answers::Answers;
use crate::shutting::all_shut;
use crate::tables::Tables;
use folder_letters::{Archive, Changes, Found, Letter};
use headers::Header;
use index_items::{Act, Alteration, Item, Items, altered, ids_of, joined, settled};
use index_listed::{Listed, all_listed as with_letters, moved, read_heads};
use index_order::ViewOptions;
use mail_base::{Delta, Id, Kind, NoMemory};
use patterns_match::{Pattern, Scores};
use people::People;
use std::alloc::Global;
use std::marker::Model;

/// A view of a folder's listed messages: what the user changed of them, how they stand in threads
/// and in order, what of them is seen under a limit and shut threads, and where the cursor stands.
/// Each call that changes something works out beside what stands what hangs on it; one that is
/// refused leaves all as before.
#[derive(Drop)]
pub struct View {
    pub(crate) alloc: Global,
    pub(crate) options: ViewOptions,
    pub(crate) tables: Tables,
    // The aliases that were added here, in tables of their own: nothing else is asked of them.
    pub(crate) aliases: People,
    pub(crate) items: Items,
    pub(crate) heads: Vec<Header>,
    pub(crate) answers: Answers,
    pub(crate) cursor: Option<Id>,
}

impl Model for View {
    ghost use Rattle.std.specs.Prelude.{map};
    ghost use Rattle.headers.specs.Header.{plain_header};
    ghost use Rattle.index_view.specs.View.{PlainView};

    ghost Value = { PlainView };

    ghost view = { λ v. record {
      options = v.options;
      items = v.items;
      people = v.tables.people;
      scores = v.tables.scores.entries.items;
      limit = v.tables.limit;
      heads = map plain_header v.heads.items;
      answers = v.answers;
      cursor = v.cursor;
      aliases = v.aliases.aliases;
    } };
}

/// The messages with the letters of their ids.
pub fn all_listed<'a>(
    alloc: Global,
    letters: &'a [Letter],
    heads: &'a [Header],
    items: &[Item],
) -> Result<Vec<Listed<'a>>, NoMemory>
    requires heads { AreHeads (map plain_header heads.now) (map plain_letter letters.now) }
    requires within { AreWithin (length heads.now) (numbers (plain_items items.now)) }
    ensures { IfOk result (λ all. map plain_listed all.items
        ≡ listing.all_listed (map plain_letter letters.now) (plain_items items.now)) }
{
    let ids = ids_of(alloc, items)?;
    with_letters(alloc, letters, heads, &ids)
}

/// What is answered of messages over the letters of an archive.
pub fn answers_over(
    alloc: Global,
    options: ViewOptions,
    tables: &mut Tables,
    heads: &[Header],
    archive: &Archive,
    items: &[Item],
) -> Result<Answers, NoMemory>
    requires heads { AreHeads (map plain_header heads.now)
        (map plain_letter archive.now.items) }
    requires within { AreWithin (length heads.now) (numbers (plain_items items.now)) }
    requires apart { spec.AreApart (plain_items items.now) }
    ensures value { IfOk result (λ a. a ≡ spec.answers_over (map plain_letter archive.now.items)
        (facts options items.now tables.old)) }
    ensures same { tables.new ≡ tables.old }
{
    let listed = all_listed(alloc, archive.as_slice(), heads, items)?;
    Answers::of(alloc, options, tables, items, &listed)
}

impl View {
    ghost use Rattle.std.specs.Prelude.{◌≡◌, List, length, map, option_map, IfOk, OnErr, OnOk};
    ghost use Rattle.folder_letters.specs.Letters.{Mail, plain_letter};
    ghost use Rattle.index_items.specs.Acts.{acted_all};
    ghost use Rattle.index_items.specs.Alteration as it;
    ghost use Rattle.index_items.specs.Changes.{AreBelow, plain_changes, settled as left_by};
    ghost use Rattle.index_items.specs.Items.{numbers, plain_items};
    ghost use Rattle.index_listed.specs.Heads.{AreHeads, AreWithin};
    ghost use Rattle.patterns_match.specs.Pattern.{plain_pattern};
    ghost use Rattle.index_view.specs.Shutting.{all_shut as all_threads_shut};
    ghost use Rattle.index_view.specs.View as spec;

    /// A view of no messages yet.
    pub fn new(alloc: Global, options: ViewOptions, people: People, scores: Scores) -> View
        ensures value { result ≡ spec.first_view options people scores.entries.items }
        ensures is_of { (mails : List Mail) → spec.IsOf mails result }
    {
        View {
            alloc,
            options,
            tables: Tables {
                people,
                scores,
                limit: None,
            },
            aliases: People::new(alloc),
            items: Items::new(alloc),
            heads: Vec::new(alloc),
            answers: Answers::none(alloc),
            cursor: None,
        }
    }

    // What is answered of other messages.
    fn answers_for(&mut self, archive: &Archive, items: &[Item]) -> Result<Answers, NoMemory>
        requires heads { AreHeads self.old.heads (map plain_letter archive.now.items) }
        requires within { AreWithin (length self.old.heads) (numbers (plain_items items.now)) }
        requires apart { spec.AreApart (plain_items items.now) }
        ensures value { IfOk result (λ a. a
            ≡ spec.answers_over (map plain_letter archive.now.items)
            (record (spec.facts_of self.old) { items = plain_items items.now })) }
        ensures same { self.new ≡ self.old }
    {
        answers_over(
            self.alloc,
            self.options,
            &mut self.tables,
            &self.heads,
            archive,
            items,
        )
    }

    /// Puts in what is answered now.
    pub(crate) fn turn(&mut self, answers: Answers)
        ensures { self.new ≡ spec.turned self.old answers }
    {
        self.cursor = moved(self.answers.sight(), answers.sight(), self.cursor);
        self.answers = answers;
    }

    /// Puts in other messages, with the same headers.
    pub(crate) fn put(&mut self, archive: &Archive, items: Vec<Item>) -> Result<(), NoMemory>
        requires heads { AreHeads self.old.heads (map plain_letter archive.now.items) }
        requires within { AreWithin (length self.old.heads) (numbers (plain_items items.items)) }
        requires apart { spec.AreApart (plain_items items.items) }
        ensures ok { OnOk result (spec.Turned (map plain_letter archive.now.items) self.old self.new
            (record (spec.facts_of self.old) { items = plain_items items.items })) }
        ensures err { OnErr result (self.new ≡ self.old) }
    {
        let answers = self.answers_for(archive, &items)?;
        self.items = Items::from_vec(items);
        self.turn(answers);
        Ok(())
    }

    /// Other options.
    pub fn set_options(&mut self, archive: &Archive, options: ViewOptions) -> Result<(), NoMemory>
        requires { spec.IsOf (map plain_letter archive.now.items) self.old }
        ensures ok { OnOk result (spec.Turned (map plain_letter archive.now.items) self.old self.new
            (record (spec.facts_of self.old) { options = options })) }
        ensures err { OnErr result (self.new ≡ self.old) }
    {
        let answers = answers_over(
            self.alloc,
            options,
            &mut self.tables,
            &self.heads,
            archive,
            self.items.as_slice(),
        )?;
        self.options = options;
        self.turn(answers);
        Ok(())
    }

    // Puts in the same messages, of which threads were shut or opened.
    fn put_folded(&mut self, archive: &Archive, items: Vec<Item>) -> Result<(), NoMemory>
        requires is_of { spec.IsOf (map plain_letter archive.now.items) self.old }
        requires same { numbers (plain_items items.items) ≡ numbers self.old.items }
        ensures ok { OnOk result (spec.Folded (map plain_letter archive.now.items) self.old self.new
            (record (spec.facts_of self.old) { items = plain_items items.items })) }
        ensures err { OnErr result (self.new ≡ self.old) }
    {
        let listed = all_listed(self.alloc, archive.as_slice(), &self.heads, &items)?;
        self.cursor = self.answers.fold(
            self.alloc,
            self.options,
            &mut self.tables,
            &items,
            &listed,
            self.cursor,
        )?;
        self.items = Items::from_vec(items);
        Ok(())
    }

    /// Another limit, or none.
    pub fn set_limit(&mut self, archive: &Archive, limit: Option<Pattern>) -> Result<(), NoMemory>
        requires { spec.IsOf (map plain_letter archive.now.items) self.old }
        ensures ok { OnOk result (spec.Turned (map plain_letter archive.now.items) self.old self.new
            (record (spec.facts_of self.old) { limit = option_map plain_pattern limit })) }
        ensures err { OnErr result (self.new ≡ self.old) }
    {
        let letters = archive.as_slice();
        let listed = all_listed(self.alloc, letters, &self.heads, self.items.as_slice())?;
        let old = std::mem::replace(&mut self.tables.limit, limit);
        let rows = self.answers.rows();
        match self
            .answers
            .seen_with(self.alloc, &mut self.tables, &listed, rows)
        {
            Ok(sight) => {
                self.cursor = moved(self.answers.sight(), &sight, self.cursor);
                self.answers.put_sight(sight);
                Ok(())
            }
            Err(error) => {
                self.tables.limit = old;
                Err(error)
            }
        }
    }

    /// A further change of a message: flags to add and to clear, and the mark of deletion.
    pub fn alter(
        &mut self,
        archive: &Archive,
        id: Id,
        delta: Delta,
        deleted: Option<bool>,
    ) -> Result<(), NoMemory>
        requires { spec.IsOf (map plain_letter archive.now.items) self.old }
        ensures ok { OnOk result (spec.Turned (map plain_letter archive.now.items) self.old self.new
            (record (spec.facts_of self.old) {
              items = it.alter_at id (it.altered delta.added delta.cleared deleted) self.old.items;
            })) }
        ensures err { OnErr result (self.new ≡ self.old) }
    {
        let change = Alteration::Pending(delta, deleted);
        let items = altered(self.alloc, self.items.as_slice(), id, change)?;
        self.put(archive, items)
    }

    // The messages, to which this is done one after the other.
    fn acted_items(&self, archive: &Archive, act: Act, ids: &[Id]) -> Result<Vec<Item>, NoMemory>
        requires { spec.IsOf (map plain_letter archive.now.items) self.now }
        ensures { IfOk result
            (λ all. plain_items all.items ≡ acted_all act ids.now self.now.items) }
    {
        let mut items = self.items.as_slice().to_vec(self.alloc)?;
        let mut left = ids;
        while let Some((first, rest)) = left.split_first() {
            if let Some(place) = self.answers.place(*first) {
                items[place] = items[place].acted(act);
            }
            left = rest;
        }
        Ok(items)
    }

    /// Does this to messages, one after the other. What is seen is worked out once, behind the last
    /// of them, and then the cursor goes where it has to.
    pub fn act_on(&mut self, archive: &Archive, act: Act, ids: &[Id]) -> Result<(), NoMemory>
        requires { spec.IsOf (map plain_letter archive.now.items) self.old }
        ensures ok { OnOk result (spec.Turned (map plain_letter archive.now.items) self.old self.new
            (record (spec.facts_of self.old) {
              items = acted_all act ids.now self.old.items;
            })) }
        ensures err { OnErr result (self.new ≡ self.old) }
    {
        let items = self.acted_items(archive, act, ids)?;
        self.put(archive, items)
    }

    /// Tags a message, or takes its tag away.
    pub fn tag(&mut self, archive: &Archive, id: Id, tagged: bool) -> Result<(), NoMemory>
        requires { spec.IsOf (map plain_letter archive.now.items) self.old }
        ensures ok { OnOk result (spec.Turned (map plain_letter archive.now.items) self.old self.new
            (record (spec.facts_of self.old) {
              items = it.alter_at id (it.tagged tagged) self.old.items;
            })) }
        ensures err { OnErr result (self.new ≡ self.old) }
    {
        let change = Alteration::Tag(tagged);
        let items = altered(self.alloc, self.items.as_slice(), id, change)?;
        self.put(archive, items)
    }

    /// Shuts or opens the thread of a root.
    pub fn collapse(&mut self, archive: &Archive, root: Id, shut: bool) -> Result<(), NoMemory>
        requires { spec.IsOf (map plain_letter archive.now.items) self.old }
        ensures ok { OnOk result (spec.Folded (map plain_letter archive.now.items) self.old self.new
            (record (spec.facts_of self.old) {
              items = it.alter_at root (it.shut shut) self.old.items;
            })) }
        ensures err { OnErr result (self.new ≡ self.old) }
    {
        let change = Alteration::Shut(shut);
        let items = altered(self.alloc, self.items.as_slice(), root, change)?;
        self.put_folded(archive, items)
    }

    /// Shuts or opens all threads.
    pub fn collapse_all(&mut self, archive: &Archive, shut: bool) -> Result<(), NoMemory>
        requires { spec.IsOf (map plain_letter archive.now.items) self.old }
        ensures ok { OnOk result (spec.Folded (map plain_letter archive.now.items) self.old self.new
            (record (spec.facts_of self.old) {
              items = all_threads_shut shut self.old.answers self.old.items;
            })) }
        ensures err { OnErr result (self.new ≡ self.old) }
    {
        let items = all_shut(self.alloc, &self.answers, shut, self.items.as_slice())?;
        self.put_folded(archive, items)
    }

    // Takes in what a scan found; a refusal may leave the headers of more letters.
    fn join(&mut self, archive: &Archive, found: &Found) -> Result<(), NoMemory>
        requires is_of { spec.IsOf (map plain_letter archive.now.items) self.old }
        requires found { spec.MayTake (map plain_letter archive.now.items) self.old.items
            found.now }
        ensures ok { OnOk result (spec.Took (map plain_letter archive.now.items) found.now
            self.old self.new) }
        ensures err { OnErr result (spec.IsWithMore self.old self.new) }
    {
        read_heads(self.alloc, &mut self.heads, archive.as_slice())?;
        let items = joined(self.alloc, archive, found, self.items.as_slice())?;
        self.put(archive, items)
    }

    /// Takes in what a scan found. The archive has the letters of the messages that came, beside
    /// those of the listed ones.
    pub fn take_delta(&mut self, archive: &Archive, found: &Found) -> Result<(), NoMemory>
        requires is_of { spec.IsOf (map plain_letter archive.now.items) self.old }
        requires found { spec.MayTake (map plain_letter archive.now.items) self.old.items
            found.now }
        ensures ok { OnOk result (spec.Took (map plain_letter archive.now.items) found.now
            self.old self.new) }
        ensures err { OnErr result (self.new ≡ self.old) }
    {
        let known = self.heads.len();
        let joined = self.join(archive, found);
        if joined.is_err() {
            self.heads.truncate(known);
        }
        joined
    }

    /// Takes in that a sync did these changes.
    pub fn settle(
        &mut self,
        archive: &Archive,
        kind: Kind,
        changes: &Changes,
    ) -> Result<(), NoMemory>
        requires is_of { spec.IsOf (map plain_letter archive.now.items) self.old }
        requires below { AreBelow (length archive.now.items) changes.now.items }
        ensures ok { OnOk result (spec.Turned (map plain_letter archive.now.items) self.old self.new
            (record (spec.facts_of self.old) {
              items = left_by kind (plain_changes changes.now.items) self.old.items;
            })) }
        ensures err { OnErr result (self.new ≡ self.old) }
    {
        let changes = changes.as_slice();
        let items = self.items.as_slice();
        let left = settled(self.alloc, kind, archive.len(), changes, items)?;
        self.put(archive, left)
    }
}
