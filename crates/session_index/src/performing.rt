//! How functions act on a desk.

use crate::acting::act_on;
use crate::desk::Desk;
use crate::folding::{fold_all, fold_thread};
use crate::scope::{meant, tagged, thread_ids};
use crate::searching::search;
use crate::sought::{Sought, shows};
use crate::ways::go;
use folder_letters::Archive;
use index_functions::{
    Effect, Message, Motion, Notice, Rule, Scope, Wanted, effects_of, needs_message, writes,
};
use index_items::{Act, Mark};
use keymap::Function;
use mail_base::{Ids, NoMemory};
use prompts::{Asking, Prompt};

impl Desk {
    ghost use Rattle.std.specs.Prelude.{◌≡◌, ◌<◌, ◌&&◌, ◌==◌, List, length, map, IfOk, OnOk};
    ghost use Rattle.folder_letters.specs.Letters.{Mail, plain_letter};
    ghost use Rattle.index_view.specs.View.{IsOf};
    ghost use Rattle.session_index.specs.Desk.{Holds, plain_desk};
    ghost use Rattle.session_index.specs.Effects as spec;
    ghost use Rattle.index_functions.specs.Functions.{needs_message};
    ghost use Rattle.session_index.specs.Index.{index_of, seen_of};
    ghost use Rattle.session_index.specs.Meant.{tagged_of};
    ghost use Rattle.index_functions.specs.declared.effect.Effect.TheVariants.{Resolve};
    ghost use Rattle.index_functions.specs.declared.rule.Rule.{Rule};

    /// Sets the last line.
    pub fn say(&mut self, notice: Notice)
        ensures desk { plain_desk self.new ≡ spec.said notice (plain_desk self.old) }
        ensures view { self.new.view ≡ self.old.view }
    {
        self.message = Message::Says(notice);
    }

    // Moves the cursor, or tells why it stays.
    fn move_by(&mut self, rule: Rule, archive: &Archive, motion: Motion) -> Result<(), NoMemory>
        requires page { 0 < rule.page }
        requires is_of { IsOf (map plain_letter archive.now.items) self.old.view }
        ensures { OnOk result (Holds (map plain_letter archive.now.items)
            (spec.went (map plain_letter archive.now.items)
            (spec.way_of rule (map plain_letter archive.now.items) motion (plain_desk self.old))
            (plain_desk self.old)) self.new) }
    {
        if let Some(notice) = go(self.alloc, &mut self.view, rule.page, motion)? {
            self.say(notice);
        }
        Ok(())
    }

    // The same without a text.
    fn move_quietly(
        &mut self,
        rule: Rule,
        archive: &Archive,
        motion: Motion,
    ) -> Result<(), NoMemory>
        requires page { 0 < rule.page }
        requires is_of { IsOf (map plain_letter archive.now.items) self.old.view }
        ensures { OnOk result (Holds (map plain_letter archive.now.items)
            (spec.went_quietly (map plain_letter archive.now.items)
            (spec.way_of rule (map plain_letter archive.now.items) motion (plain_desk self.old))
            (plain_desk self.old)) self.new) }
    {
        go(self.alloc, &mut self.view, rule.page, motion)?;
        Ok(())
    }

    // The messages that an effect means.
    fn scope_ids(&self, scope: Scope) -> Result<Ids, NoMemory>
        ensures { (mails : List Mail) → IsOf mails self.now.view
            → IfOk result (λ ids. ids.items ≡ spec.scope_ids mails scope (plain_desk self.now)) }
    {
        match scope {
            Scope::Meant => meant(self.alloc, &self.view, self.prefix),
            Scope::Cursor => meant(self.alloc, &self.view, false),
            Scope::Thread => thread_ids(self.alloc, &self.view),
        }
    }

    // Does this to the messages that are meant.
    fn do_to(&mut self, archive: &Archive, act: Act, scope: Scope) -> Result<(), NoMemory>
        requires { IsOf (map plain_letter archive.now.items) self.old.view }
        ensures { OnOk result (Holds (map plain_letter archive.now.items)
            (spec.done_to (map plain_letter archive.now.items) act
            (spec.scope_ids (map plain_letter archive.now.items) scope (plain_desk self.old))
            (plain_desk self.old)) self.new) }
    {
        let ids = self.scope_ids(scope)?;
        act_on(self.alloc, &mut self.view, archive, act, ids.as_slice())
    }

    // What tag-thread does to each message.
    fn tagging(&self) -> Act
        ensures { (mails : List Mail) → IsOf mails self.now.view
            → result ≡ spec.tagging mails (plain_desk self.now) }
    {
        match self.view.cursor() {
            Some(id) if shows(&self.view, Sought::Tagged, id) => Act::Clear(Mark::Tagged),
            _ => Act::Set(Mark::Tagged),
        }
    }

    // Shuts or opens the cursor's thread, or all threads, where messages stand in threads.
    fn fold(&mut self, archive: &Archive, all: bool) -> Result<(), NoMemory>
        requires { IsOf (map plain_letter archive.now.items) self.old.view }
        ensures { OnOk result (Holds (map plain_letter archive.now.items)
            (spec.fold_done (map plain_letter archive.now.items) all (plain_desk self.old))
            self.new) }
    {
        if !self.view.options().sort.is_threads() {
            self.say(Notice::NotThreaded);
            return Ok(());
        }
        if all {
            fold_all(&mut self.view, archive)
        } else {
            fold_thread(&mut self.view, archive)
        }
    }

    /// A prompt stands.
    pub(crate) fn ask(&mut self, asking: Asking)
        ensures desk { plain_desk self.new ≡ spec.asked asking (plain_desk self.old) }
        ensures view { self.new.view ≡ self.old.view }
    {
        self.prompt = Some(Prompt::new(self.alloc, asking));
    }

    // Goes on with the search, or asks for one.
    fn search_again(&mut self, archive: &Archive) -> Result<(), NoMemory>
        requires { IsOf (map plain_letter archive.now.items) self.old.view }
        ensures { OnOk result (Holds (map plain_letter archive.now.items)
            (spec.searched (map plain_letter archive.now.items) (plain_desk self.old).search
            (plain_desk self.old)) self.new) }
    {
        let Some(pattern) = &mut self.search else {
            self.ask(Asking::Search);
            return Ok(());
        };
        if let Some(notice) = search(self.alloc, &mut self.view, archive, pattern)? {
            self.say(notice);
        }
        Ok(())
    }

    // The next function works on the tagged messages.
    fn begin_prefix(&mut self) -> Result<(), NoMemory>
        ensures { (mails : List Mail) → IsOf mails self.old.view → OnOk result (Holds mails
            (spec.begun (tagged_of self.old.view.answers) (plain_desk self.old)) self.new) }
    {
        if tagged(self.alloc, &self.view)?.len() == 0 {
            self.say(Notice::NoTagged);
        } else {
            self.prefix = true;
        }
        Ok(())
    }

    // Does a basic effect.
    fn run_effect(&mut self, rule: Rule, archive: &Archive, effect: Effect) -> Result<(), NoMemory>
        requires page { 0 < rule.page }
        requires is_of { IsOf (map plain_letter archive.now.items) self.old.view }
        ensures { OnOk result (Holds (map plain_letter archive.now.items) (spec.run_effect rule
            (map plain_letter archive.now.items) effect (plain_desk self.old)) self.new) }
    {
        match effect {
            Effect::Move(motion) => self.move_by(rule, archive, motion),
            Effect::Do(act, scope) => self.do_to(archive, act, scope),
            Effect::TagThread => self.do_to(archive, self.tagging(), Scope::Thread),
            Effect::Fold => self.fold(archive, false),
            Effect::FoldAll => self.fold(archive, true),
            Effect::Resolve => self.resolve(rule, archive),
            Effect::StepOn => self.move_quietly(rule, archive, Motion::Next),
            Effect::SearchAgain => self.search_again(archive),
            Effect::BeginPrefix => self.begin_prefix(),
            Effect::Sync => self.begin_sync(rule, archive),
            Effect::Quit => self.begin_quit(rule, archive),
            _ => {
                self.put(effect);
                Ok(())
            }
        }
    }

    // To the next message that is not deleted, where the rule says so and no prefix stands.
    fn resolve(&mut self, rule: Rule, archive: &Archive) -> Result<(), NoMemory>
        requires page { 0 < rule.page }
        requires is_of { IsOf (map plain_letter archive.now.items) self.old.view }
        ensures { OnOk result (Holds (map plain_letter archive.now.items) (spec.run_effect rule
            (map plain_letter archive.now.items) Resolve (plain_desk self.old)) self.new) }
    {
        if rule.resolves && !self.prefix {
            return self.move_quietly(rule, archive, Motion::NextUndeleted);
        }
        Ok(())
    }

    // Does an effect that takes no memory and leaves the view alone.
    fn put(&mut self, effect: Effect)
        requires { spec.IsPut effect }
        ensures desk { (rule : Rule) → (mails : List Mail)
            → plain_desk self.new ≡ spec.run_effect rule mails effect (plain_desk self.old) }
        ensures view { self.new.view ≡ self.old.view }
    {
        match effect {
            Effect::DropPrefix => self.prefix = false,
            Effect::TurnWriting => self.read_only = !self.read_only,
            Effect::Ask(asking) => self.ask(asking),
            Effect::Say(notice) => self.say(notice),
            Effect::End => self.wanted = Wanted::ToEnd,
            Effect::Display => self.wanted = Wanted::ToDisplay,
            Effect::ListParts => self.wanted = Wanted::ToList,
            _ => {}
        }
    }

    // Does basic effects, one after the other.
    pub(crate) fn run_effects(
        &mut self,
        rule: Rule,
        archive: &Archive,
        effects: &[Effect],
    ) -> Result<(), NoMemory>
        requires page { 0 < rule.page }
        requires is_of { IsOf (map plain_letter archive.now.items) self.old.view }
        ensures { OnOk result (Holds (map plain_letter archive.now.items) (spec.run_effects rule
            (map plain_letter archive.now.items) effects.now (plain_desk self.old)) self.new) }
    {
        let mut left = effects;
        while let [first, rest @ ..] = left {
            self.run_effect(rule, archive, *first)?;
            left = rest;
        }
        Ok(())
    }

    // Refuses a function.
    fn refuse(&mut self, notice: Notice)
        ensures desk { plain_desk self.new ≡ spec.refused notice (plain_desk self.old) }
        ensures view { self.new.view ≡ self.old.view }
    {
        self.prefix = false;
        self.say(notice);
    }

    // Whether a function speaks of a message where none is seen.
    pub(crate) fn lacks_message(&self, function: Function) -> bool
        ensures { (mails : List Mail) → IsOf mails self.now.view → result ≡ (needs_message function
            && (length (seen_of mails (index_of self.now.view)) == 0)) }
    {
        needs_message(function) && self.view.visible().len() == 0
    }

    /// Does what a function does, over the archive whose letters the view has.
    pub fn perform(
        &mut self,
        rule: Rule,
        archive: &Archive,
        function: Function,
    ) -> Result<(), NoMemory>
        requires page { 0 < rule.page }
        requires is_of { IsOf (map plain_letter archive.now.items) self.old.view }
        ensures { OnOk result (Holds (map plain_letter archive.now.items) (spec.performed rule
            (map plain_letter archive.now.items) function (plain_desk self.old)) self.new) }
    {
        if self.lacks_message(function) {
            self.refuse(Notice::NoMessages);
            return Ok(());
        }
        if writes(function) && self.read_only {
            self.refuse(Notice::ReadOnly);
            return Ok(());
        }
        self.run_effects(rule, archive, effects_of(function))
    }
}
