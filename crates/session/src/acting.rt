//! How keys act.

ghost use Rattle.std.specs.Prelude.{◌≡◌};
ghost use Rattle.session.specs.Acting as spec;

use crate::core_state::Core;
use folder_core::Archive;
use keymap::{Function, Key, Menu, Press};
use mail_base::{Id, NoMemory};
use people::Verdicts;
use rc_lang::Variable;
use session_index::{Notice, Rule, Wanted};
use session_pager::{PagerDeed, attach_deed, pager_deed};
use session_screen::{Window, is_set, quad_of, toggle_words};
use session_state::Moment;

// Whether two cursors are on one message.
fn is_at(cursor: Option<Id>, other: Option<Id>) -> bool
    ensures { result ≡ spec.is_at cursor other }
{
    match (cursor, other) {
        (None, None) => true,
        (Some(id), Some(other)) => id.0 == other.0,
        _ => false,
    }
}

impl Core {
    ghost use Rattle.std.specs.Prelude.{◌≡◌, ◌<◌, ℤ, List, map, OnOk};
    ghost use Rattle.folder_letters.specs.Letters.{plain_letter};
    ghost use Rattle.index_view.specs.View.{IsOf};
    ghost use Rattle.people.specs.Judged.{PlainJudged};
    ghost use Rattle.session.specs.Acting as spec;
    ghost use Rattle.session.specs.Core.{IsOver, Stands, ground_of, plain_core};
    ghost use Rattle.session.specs.Rules.{rule_of};
    ghost use Rattle.session_screen.specs.Window.{IsWindow};
    ghost use Rattle.session_state.specs.Instants.{IsMoment};
    ghost use Rattle.patterns.specs.Causes.{Keeps};

    /// What the settings and the window say of functions.
    pub fn rule(&self, window: Window) -> Rule
        requires { IsWindow window }
        ensures rule { result ≡ rule_of self.now.rules.settings self.now.kind window }
        ensures page { 0 < result.page }
    {
        let settings = self.rules.settings();
        Rule {
            resolves: is_set(settings, Variable::Resolve),
            page: window.rows as usize - 2,
            delete: quad_of(settings, Variable::Delete),
            quit: quad_of(settings, Variable::Quit),
            mark_old: is_set(settings, Variable::MarkOld),
            kind: self.kind,
        }
    }

    // Turns over the variable that a function turns over, if any.
    fn turn_over(
        &mut self,
        window: Window,
        archive: &Archive,
        function: Function,
    ) -> Result<(), NoMemory>
        requires window { IsWindow window }
        requires over { IsOver (map plain_letter archive.now.items) window self.old }
        ensures core { OnOk result (plain_core self.new ≡ spec.turned_over
            (map plain_letter archive.now.items) window function (plain_core self.old)) }
        ensures over { OnOk result (IsOver (map plain_letter archive.now.items) window self.new) }
    {
        match function {
            Function::DisplayToggleWeed => {
                let words = toggle_words(self.desk.alloc, b"weed")?;
                self.rules.set_by(&words)?;
                self.refresh(window, archive)
            }
            _ => Ok(()),
        }
    }

    // Does what a function does that leaves the index.
    fn serve(
        &mut self,
        window: Window,
        moment: Moment,
        archive: &Archive,
        verdicts: &mut Verdicts,
    ) -> Result<(), NoMemory>
        requires window { IsWindow window }
        requires moment { IsMoment moment.0 }
        requires over { IsOver (map plain_letter archive.now.items) window self.old }
        ensures keeps { Keeps verdicts.old.kept verdicts.new.kept }
        ensures core { OnOk result ((later : List PlainJudged) → Keeps verdicts.new.kept later
            → plain_core self.new ≡ spec.serving
            (ground_of (map plain_letter archive.now.items) later window moment.0)
            (plain_core self.old)) }
        ensures over { OnOk result (IsOver (map plain_letter archive.now.items) window self.new) }
    {
        match self.desk.wanted {
            Wanted::ToDisplay => {
                let _ = self.take_wanted();
                self.display_at_cursor(window, moment, archive, verdicts)
            }
            Wanted::ToList => {
                let _ = self.take_wanted();
                self.list_parts(window, archive)
            }
            _ => Ok(()),
        }
    }

    // Does what a function does in the index.
    fn do_in_index(
        &mut self,
        window: Window,
        moment: Moment,
        archive: &Archive,
        verdicts: &mut Verdicts,
        function: Function,
    ) -> Result<(), NoMemory>
        requires window { IsWindow window }
        requires moment { IsMoment moment.0 }
        requires over { IsOver (map plain_letter archive.now.items) window self.old }
        ensures keeps { Keeps verdicts.old.kept verdicts.new.kept }
        ensures core { OnOk result ((later : List PlainJudged) → Keeps verdicts.new.kept later
            → plain_core self.new ≡ spec.in_index
            (ground_of (map plain_letter archive.now.items) later window moment.0) function
            (plain_core self.old)) }
        ensures over { OnOk result (IsOver (map plain_letter archive.now.items) window self.new) }
    {
        self.turn_over(window, archive, function)?;
        let rule = self.rule(window);
        self.desk.perform(rule, archive, function)?;
        self.serve(window, moment, archive, verdicts)
    }

    // Shows the message to which the cursor comes by a function, unless it stays.
    fn follow(
        &mut self,
        window: Window,
        moment: Moment,
        archive: &Archive,
        verdicts: &mut Verdicts,
        function: Function,
    ) -> Result<(), NoMemory>
        requires window { IsWindow window }
        requires moment { IsMoment moment.0 }
        requires over { IsOver (map plain_letter archive.now.items) window self.old }
        ensures keeps { Keeps verdicts.old.kept verdicts.new.kept }
        ensures core { OnOk result ((later : List PlainJudged) → Keeps verdicts.new.kept later
            → plain_core self.new ≡ spec.following
            (ground_of (map plain_letter archive.now.items) later window moment.0) function
            (plain_core self.old)) }
        ensures over { OnOk result (IsOver (map plain_letter archive.now.items) window self.new) }
    {
        let cursor = self.desk.view.cursor();
        self.do_in_index(window, moment, archive, verdicts, function)?;
        if is_at(cursor, self.desk.view.cursor()) {
            return Ok(());
        }
        self.display_at_cursor(window, moment, archive, verdicts)
    }

    // Shows the next message that is not deleted; where there is none, the index comes back.
    fn go_on_or_leave(
        &mut self,
        rule: Rule,
        window: Window,
        moment: Moment,
        archive: &Archive,
        verdicts: &mut Verdicts,
    ) -> Result<(), NoMemory>
        requires page { 0 < rule.page }
        requires window { IsWindow window }
        requires moment { IsMoment moment.0 }
        requires over { IsOver (map plain_letter archive.now.items) window self.old }
        ensures keeps { Keeps verdicts.old.kept verdicts.new.kept }
        ensures core { OnOk result ((later : List PlainJudged) → Keeps verdicts.new.kept later
            → plain_core self.new ≡ spec.on_or_left
            (ground_of (map plain_letter archive.now.items) later window moment.0) rule
            (plain_core self.old)) }
        ensures over { OnOk result (IsOver (map plain_letter archive.now.items) window self.new) }
    {
        if self.desk.next_undeleted(rule, archive)? {
            return self.display_at_cursor(window, moment, archive, verdicts);
        }
        self.reader.close();
        Ok(())
    }

    // Deletes the cursor's message, and shows what comes behind it, unless that is refused.
    fn delete_on(
        &mut self,
        window: Window,
        moment: Moment,
        archive: &Archive,
        verdicts: &mut Verdicts,
        function: Function,
    ) -> Result<(), NoMemory>
        requires window { IsWindow window }
        requires moment { IsMoment moment.0 }
        requires over { IsOver (map plain_letter archive.now.items) window self.old }
        ensures keeps { Keeps verdicts.old.kept verdicts.new.kept }
        ensures core { OnOk result ((later : List PlainJudged) → Keeps verdicts.new.kept later
            → plain_core self.new ≡ spec.deleting
            (ground_of (map plain_letter archive.now.items) later window moment.0) function
            (plain_core self.old)) }
        ensures over { OnOk result (IsOver (map plain_letter archive.now.items) window self.new) }
    {
        let rule = Rule {
            resolves: false,
            ..self.rule(window)
        };
        let allowed = self.desk.allows(function);
        self.desk.perform(rule, archive, function)?;
        if allowed {
            return self.go_on_or_leave(rule, window, moment, archive, verdicts);
        }
        Ok(())
    }

    // Does what a function does in the pager.
    fn do_in_pager(
        &mut self,
        window: Window,
        moment: Moment,
        archive: &Archive,
        verdicts: &mut Verdicts,
        function: Function,
    ) -> Result<(), NoMemory>
        requires window { IsWindow window }
        requires moment { IsMoment moment.0 }
        requires over { IsOver (map plain_letter archive.now.items) window self.old }
        ensures keeps { Keeps verdicts.old.kept verdicts.new.kept }
        ensures core { OnOk result ((later : List PlainJudged) → Keeps verdicts.new.kept later
            → plain_core self.new ≡ spec.in_pager
            (ground_of (map plain_letter archive.now.items) later window moment.0) function
            (plain_core self.old)) }
        ensures over { OnOk result (IsOver (map plain_letter archive.now.items) window self.new) }
    {
        match pager_deed(function) {
            PagerDeed::Follow => self.follow(window, moment, archive, verdicts, function),
            PagerDeed::AsInIndex => self.do_in_index(window, moment, archive, verdicts, function),
            PagerDeed::DeleteOn => self.delete_on(window, moment, archive, verdicts, function),
            deed => self.do_on_pages(window, archive, deed),
        }
    }

    // Does what a function does in a menu.
    fn run(
        &mut self,
        window: Window,
        moment: Moment,
        archive: &Archive,
        verdicts: &mut Verdicts,
        function: Function,
    ) -> Result<(), NoMemory>
        requires window { IsWindow window }
        requires moment { IsMoment moment.0 }
        requires over { IsOver (map plain_letter archive.now.items) window self.old }
        ensures keeps { Keeps verdicts.old.kept verdicts.new.kept }
        ensures core { OnOk result ((later : List PlainJudged) → Keeps verdicts.new.kept later
            → plain_core self.new ≡ spec.in_menu
            (ground_of (map plain_letter archive.now.items) later window moment.0) function
            (plain_core self.old)) }
        ensures over { OnOk result (IsOver (map plain_letter archive.now.items) window self.new) }
    {
        match self.reader.menu() {
            Menu::Pager => self.do_in_pager(window, moment, archive, verdicts, function),
            Menu::Attach => self.do_in_list(window, archive, attach_deed(function)),
            _ => self.do_in_index(window, moment, archive, verdicts, function),
        }
    }

    /// Does what keys have come to.
    #[tactic(auto, unfolding(crate::specs::Acting::acted))]
    pub fn act(
        &mut self,
        window: Window,
        moment: Moment,
        archive: &Archive,
        verdicts: &mut Verdicts,
        press: Press,
    ) -> Result<(), NoMemory>
        requires window { IsWindow window }
        requires moment { IsMoment moment.0 }
        requires over { IsOver (map plain_letter archive.now.items) window self.old }
        ensures keeps { Keeps verdicts.old.kept verdicts.new.kept }
        ensures core { OnOk result ((later : List PlainJudged) → Keeps verdicts.new.kept later
            → plain_core self.new ≡ spec.acted
            (ground_of (map plain_letter archive.now.items) later window moment.0) press
            (plain_core self.old)) }
        ensures over { OnOk result (IsOver (map plain_letter archive.now.items) window self.new) }
    {
        match press {
            Press::Wait => Ok(()),
            Press::Unbound => {
                self.desk.say(Notice::NotBound);
                Ok(())
            }
            Press::Function(function) => self.run(window, moment, archive, verdicts, function),
            Press::Loop => {
                self.desk.say(Notice::MacroLoop);
                Ok(())
            }
        }
    }

    /// Takes a key at a prompt, and does what it answers.
    #[tactic(auto, unfolding(crate::specs::Acting::prompted))]
    pub fn type_key(
        &mut self,
        window: Window,
        moment: Moment,
        archive: &Archive,
        verdicts: &mut Verdicts,
        key: Key,
    ) -> Result<(), NoMemory>
        requires window { IsWindow window }
        requires moment { IsMoment moment.0 }
        requires over { IsOver (map plain_letter archive.now.items) window self.old }
        ensures keeps { Keeps verdicts.old.kept verdicts.new.kept }
        ensures core { OnOk result ((later : List PlainJudged) → Keeps verdicts.new.kept later
            → plain_core self.new ≡ spec.prompted
            (ground_of (map plain_letter archive.now.items) later window moment.0) key
            (plain_core self.old)) }
        ensures over { OnOk result (IsOver (map plain_letter archive.now.items) window self.new) }
    {
        self.desk.type_key(key)?;
        self.heed(window, moment, archive, verdicts)
    }
}
