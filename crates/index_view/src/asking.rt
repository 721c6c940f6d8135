//! What a view answers.

use crate::view::{View, all_listed};
use folder_letters::{Archive, Changes};
use index_items::{Tally, changes};
use index_order::ViewOptions;
use mail_base::{Id, Ids, Kind, NoMemory};
use patterns_match::{Pattern, Row, ScoreEntry};
use std::alloc::Global;
use threads::Parent;

impl View {
    ghost use Rattle.std.specs.Prelude.{◌≡◌, [], None, List, is_some, length, map, true, IfOk};
    ghost use Rattle.std.specs.Prelude.{IfSome, nat_eq, option_map};
    ghost use Rattle.std.specs.List.{IsDistinct};
    ghost use Rattle.folder_letters.specs.Letters.{Mail, plain_letter};
    ghost use Rattle.index_items.specs.Changes.{AreBelow, changes_of, plain_changes};
    ghost use Rattle.index_items.specs.Tally.{tally_of};
    ghost use Rattle.index_listed.specs.Cursor.{is_seen};
    ghost use Rattle.index_listed.specs.Places.{numbers};
    ghost use Rattle.index_view.specs.Answers as answers;
    ghost use Rattle.patterns_match.specs.Pattern.{plain_pattern};
    ghost use Rattle.index_view.specs.View as spec;

    /// Moves the cursor to a message, and answers whether it is seen; where it is not, the cursor
    /// stays.
    pub fn move_to(&mut self, id: Id) -> bool
        ensures answer { result ≡ is_seen (spec.visible_of self.old) id }
        ensures moved { self.new ≡ spec.moved_to self.old id }
        ensures is_of { (mails : List Mail) → spec.IsOf mails self.old → spec.IsOf mails self.new }
    {
        let is_seen = self.is_seen(id);
        if is_seen {
            self.cursor = Some(id);
        }
        is_seen
    }

    /// The message on which the cursor stands: one that is seen, or nothing where none is.
    pub fn cursor(&self) -> Option<Id>
        ensures value { result ≡ self.now.cursor }
        ensures seen { (mails : List Mail) → spec.IsOf mails self.now
            → IfSome result (λ id. is_seen (spec.visible_of self.now) id ≡ true) }
        ensures none { (mails : List Mail) → spec.IsOf mails self.now
            → (result ≡ None → spec.visible_of self.now ≡ [])
            × (spec.visible_of self.now ≡ [] → result ≡ None) }
    {
        self.cursor
    }

    /// How the index stands in threads and in order.
    pub fn options(&self) -> ViewOptions
        ensures { result ≡ self.now.options }
    {
        self.options
    }

    /// The limit, if there is one.
    pub fn limit(&self) -> Option<&Pattern>
        ensures { option_map (λ pattern. pattern.now) result ≡ self.now.limit }
    {
        self.tables.limit.as_ref()
    }

    /// The entries of scores.
    pub fn scores(&self) -> &[ScoreEntry]
        ensures { result.now ≡ self.now.scores }
    {
        self.tables.scores.entries.as_slice()
    }

    /// All ids in the order of the index.
    pub fn ordered(&self) -> &Ids
        ensures value { result.now.items ≡ self.now.answers.sight.order }
        ensures apart { IsDistinct nat_eq (numbers result.now.items) }
    {
        self.answers.sight().order()
    }

    /// Whether a message is seen.
    pub fn is_seen(&self, id: Id) -> bool
        ensures { result ≡ is_seen (spec.visible_of self.now) id }
    {
        self.answers.sight().visible_place(id).is_some()
    }

    /// The ids that are seen, in order.
    pub fn visible(&self) -> &Ids
        ensures { result.now.items ≡ spec.visible_of self.now }
    {
        self.answers.sight().visible()
    }

    /// How many of the messages are new, deleted and so on, and whether a sync that purges has
    /// something to do.
    pub fn tally(&self) -> Tally
        ensures { result ≡ tally_of self.now.items }
    {
        self.items.tally()
    }

    /// What is shown of a message; nothing where the id is not listed.
    pub fn row(&self, id: Id) -> Option<Row>
        ensures value { result ≡ answers.row self.now.answers id }
        ensures listed { (mails : List Mail) → spec.IsOf mails self.now
            → is_some result ≡ spec.is_listed self.now id }
    {
        self.answers.row(id)
    }

    /// Whom a message follows, and by what.
    pub fn parent(&self, id: Id) -> Option<Parent>
        ensures { result ≡ answers.parent_of self.now.answers id }
    {
        self.answers.parent(id)
    }

    /// The root of a message's thread; nothing where the id is not listed.
    pub fn thread_of(&self, id: Id) -> Option<Id>
        ensures value { result ≡ answers.thread_of self.now.answers id }
        ensures listed { (mails : List Mail) → spec.IsOf mails self.now
            → is_some result ≡ spec.is_listed self.now id }
    {
        self.answers.thread_of(id)
    }

    /// The ids that are seen and satisfy a pattern, in order.
    pub fn pick(
        &mut self,
        alloc: Global,
        archive: &Archive,
        pattern: &mut Pattern,
    ) -> Result<Ids, NoMemory>
        requires { spec.IsOf (map plain_letter archive.now.items) self.old }
        ensures value { IfOk result (λ ids. ids.items
            ≡ spec.picked_of (map plain_letter archive.now.items) (plain_pattern pattern.old)
            self.old) }
        ensures same { (self.new ≡ self.old) × (pattern.new ≡ pattern.old) }
    {
        let letters = archive.as_slice();
        let listed = all_listed(self.alloc, letters, &self.heads, self.items.as_slice())?;
        let people = &mut self.tables.people;
        self.answers.picked(alloc, people, &listed, pattern)
    }

    /// What a sync is to do; messages that are marked deleted go where `purge`.
    pub fn changes(&self, alloc: Global, kind: Kind, purge: bool) -> Result<Changes, NoMemory>
        ensures value { IfOk result (λ c. plain_changes c.items
            ≡ changes_of kind purge self.now.items) }
        ensures below { (mails : List Mail) → spec.IsOf mails self.now
            → IfOk result (λ c. AreBelow (length mails) c.items) }
    {
        changes(alloc, kind, purge, self.items.as_slice())
    }
}
