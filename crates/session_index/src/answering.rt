//! What answers to prompts do.

use crate::acting::act_on;
use crate::desk::Desk;
use crate::searching::search;
use folder_letters::Archive;
use index_functions::{Effect, Rule, Scope, mark_of};
use index_items::{Act, Mark};
use mail_base::NoMemory;
use patterns_match::Pattern;
use prompts::Asking;

impl Desk {
    ghost use Rattle.std.specs.Prelude.{◌≡◌, ◌<◌, map, option_map, OnOk};
    ghost use Rattle.folder_letters.specs.Letters.{plain_letter};
    ghost use Rattle.patterns_match.specs.Pattern.{plain_pattern};
    ghost use Rattle.index_view.specs.View.{IsOf};
    ghost use Rattle.index_functions.specs.Choosing.{chosen_effects, mark_of, marking};
    ghost use Rattle.session_index.specs.Answering as spec;
    ghost use Rattle.session_index.specs.Desk.{Holds, plain_desk};
    ghost use Rattle.session_index.specs.Effects.{run_effects};

    // Does this to the messages that are seen and satisfy a pattern.
    fn do_matching(
        &mut self,
        archive: &Archive,
        act: Act,
        pattern: &mut Pattern,
    ) -> Result<(), NoMemory>
        requires { IsOf (map plain_letter archive.now.items) self.old.view }
        ensures { OnOk result (Holds (map plain_letter archive.now.items)
            (spec.done_matching (map plain_letter archive.now.items) act
            (plain_pattern pattern.old) (plain_desk self.old)) self.new) }
    {
        let ids = self.view.pick(self.alloc, archive, pattern)?;
        act_on(self.alloc, &mut self.view, archive, act, ids.as_slice())
    }

    /// Sets another limit, or none.
    pub fn limit_to(&mut self, archive: &Archive, limit: Option<Pattern>) -> Result<(), NoMemory>
        requires { IsOf (map plain_letter archive.now.items) self.old.view }
        ensures { OnOk result (Holds (map plain_letter archive.now.items)
            (spec.limited (map plain_letter archive.now.items) (option_map plain_pattern limit)
            (plain_desk self.old)) self.new) }
    {
        self.view.set_limit(archive, limit)
    }

    // Keeps a search, and moves the cursor where it leads.
    fn search_for(&mut self, archive: &Archive, pattern: Pattern) -> Result<(), NoMemory>
        requires { IsOf (map plain_letter archive.now.items) self.old.view }
        ensures { OnOk result (Holds (map plain_letter archive.now.items)
            (spec.searched_for (map plain_letter archive.now.items) (plain_pattern pattern)
            (plain_desk self.old)) self.new) }
    {
        let mut pattern = pattern;
        let notice = search(self.alloc, &mut self.view, archive, &mut pattern)?;
        self.search = Some(pattern);
        if let Some(notice) = notice {
            self.say(notice);
        }
        Ok(())
    }

    /// Does what a pattern that is answered to a prompt does.
    pub fn answer(
        &mut self,
        archive: &Archive,
        asking: Asking,
        pattern: Pattern,
    ) -> Result<(), NoMemory>
        requires { IsOf (map plain_letter archive.now.items) self.old.view }
        ensures { OnOk result (Holds (map plain_letter archive.now.items)
            (spec.answered (map plain_letter archive.now.items) asking (plain_pattern pattern)
            (plain_desk self.old)) self.new) }
    {
        let mut pattern = pattern;
        let delete = Mark::Deleted;
        match asking {
            Asking::Delete => self.do_matching(archive, Act::Set(delete), &mut pattern),
            Asking::Undelete => self.do_matching(archive, Act::Clear(delete), &mut pattern),
            Asking::Tag => self.do_matching(archive, Act::Set(Mark::Tagged), &mut pattern),
            Asking::Untag => self.do_matching(archive, Act::Clear(Mark::Tagged), &mut pattern),
            Asking::Limit => self.limit_to(archive, Some(pattern)),
            Asking::Search => self.search_for(archive, pattern),
            _ => Ok(()),
        }
    }

    /// Does what a key that is answered to a prompt of one key does.
    pub fn choose(
        &mut self,
        rule: Rule,
        archive: &Archive,
        asking: Asking,
        key: char,
    ) -> Result<(), NoMemory>
        requires page { 0 < rule.page }
        requires is_of { IsOf (map plain_letter archive.now.items) self.old.view }
        ensures { OnOk result (Holds (map plain_letter archive.now.items) (spec.chosen rule
            (map plain_letter archive.now.items) asking key (plain_desk self.old)) self.new) }
    {
        match asking {
            Asking::Purge { quits, .. } => self.answer_purge(rule, archive, key == 'y', quits),
            Asking::Quit { .. } if key == 'y' => self.leave(rule, archive),
            Asking::Quit { .. } => Ok(()),
            _ => self.choose_mark(rule, archive, asking, key),
        }
    }

    // Does what a key that is answered to a prompt of flags does.
    fn choose_mark(
        &mut self,
        rule: Rule,
        archive: &Archive,
        asking: Asking,
        key: char,
    ) -> Result<(), NoMemory>
        requires page { 0 < rule.page }
        requires is_of { IsOf (map plain_letter archive.now.items) self.old.view }
        ensures { OnOk result (Holds (map plain_letter archive.now.items) (run_effects rule
            (map plain_letter archive.now.items) (chosen_effects asking (mark_of key))
            (plain_desk self.old)) self.new) }
    {
        match (asking, mark_of(key)) {
            (Asking::SetFlag, Some(mark)) => self.mark(rule, archive, Act::Set(mark)),
            (Asking::ClearFlag, Some(mark)) => self.mark(rule, archive, Act::Clear(mark)),
            _ => Ok(()),
        }
    }

    // Does this to the messages that are meant, and moves on.
    fn mark(&mut self, rule: Rule, archive: &Archive, act: Act) -> Result<(), NoMemory>
        requires page { 0 < rule.page }
        requires is_of { IsOf (map plain_letter archive.now.items) self.old.view }
        ensures { OnOk result (Holds (map plain_letter archive.now.items) (run_effects rule
            (map plain_letter archive.now.items) (marking act) (plain_desk self.old))
            self.new) }
    {
        let effects = [
            Effect::Do(act, Scope::Meant),
            Effect::Resolve,
            Effect::DropPrefix,
        ];
        self.run_effects(rule, archive, &effects)
    }
}
