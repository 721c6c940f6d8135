//! Searches among the messages that a view shows.

use crate::view::{View, all_listed};
use folder_letters::Archive;
use mail_base::{Id, NoMemory};
use patterns_match::Pattern;
use std::alloc::Global;

impl View {
    ghost use Rattle.std.specs.Prelude.{◌≡◌, ◌<◌, length, map, IfOk};
    ghost use Rattle.folder_letters.specs.Letters.{plain_letter};
    ghost use Rattle.index_view.specs.Searching.{found_from};
    ghost use Rattle.index_view.specs.View.{IsOf, facts_of, messages_over, visible_of};
    ghost use Rattle.patterns_match.specs.Pattern.{plain_pattern};

    /// The next message that is seen and satisfies a pattern, from the one behind a place of what
    /// is seen on, going round to that place last. No message behind the one that is found is
    /// asked.
    pub fn find_from(
        &mut self,
        alloc: Global,
        archive: &Archive,
        pattern: &mut Pattern,
        place: usize,
    ) -> Result<Option<Id>, NoMemory>
        requires is_of { IsOf (map plain_letter archive.now.items) self.old }
        requires place { place < length (visible_of self.old) }
        ensures found { IfOk result (λ found. found ≡ found_from self.old.people
            (plain_pattern pattern.old)
            (messages_over (map plain_letter archive.now.items) (facts_of self.old))
            self.old.answers place) }
        ensures same { (self.new ≡ self.old) × (pattern.new ≡ pattern.old) }
    {
        let letters = archive.as_slice();
        let listed = all_listed(self.alloc, letters, &self.heads, self.items.as_slice())?;
        let people = &mut self.tables.people;
        self.answers
            .found_from(alloc, people, &listed, pattern, place)
    }
}
