//! What muttrc has set.

use crate::lesson::Lesson;
use hook_requests::Weeds;
use hooks::{HookCommands, Hooks, PatternHooks};
use keymap::{KeyQueue, Keymap, Keys, Menu, Press};
use mail_base::{Bytes, Line, Lines, NoMemory};
use message_text::Weeding;
use rc_lang::{Settings, Variable};
use std::alloc::Global;
use std::marker::Model;

/// The variables, the bindings, the names of header fields, the hooks, the texts of the patterns
/// that score, the keys that commands have put, of each command apart, and what they tell the
/// index.
pub struct Rules {
    pub(crate) alloc: Global,
    pub(crate) settings: Settings,
    pub(crate) keymap: Keymap,
    pub(crate) weeds: Weeds,
    pub(crate) hooks: Hooks,
    pub(crate) scores: Vec<Bytes>,
    pub(crate) put: Vec<Keys>,
    pub(crate) lessons: Vec<Lesson>,
}

impl Model for Rules {
    ghost use Rattle.std.specs.Prelude.{map};
    ghost use Rattle.rc_lang.specs.Settings.{plain_names};
    ghost use Rattle.session_state.specs.Codes.{tree_code};
    ghost use Rattle.session_state.specs.Lessons.{plain_lesson};
    ghost use Rattle.session_state.specs.Rules.{PlainRules};
    ghost use Rattle.std.specs.Coded.{codes};

    ghost Value = { PlainRules };

    ghost coded = { Prim.hlevel (codes, tree_code (Prim.hlevel codes)) };

    ghost view = { λ r. record {
      settings = r.settings;
      keymap = r.keymap;
      weeds = r.weeds;
      hooks = r.hooks;
      scores = plain_names r.scores.items;
      put = map (λ keys. keys.items) r.put.items;
      lessons = map plain_lesson r.lessons.items;
    } };
}

impl Drop for Rules {
    fn drop(self) {
        let Rules {
            alloc: _,
            settings: _,
            keymap: _,
            weeds: _,
            hooks: _,
            scores: _,
            put: _,
            lessons: _,
        } = self;
    }
}

impl Rules {
    ghost use Rattle.std.specs.Prelude.{◌≡◌, ◌≢◌, ◌∷◌, ◌++◌, [], length, map};
    ghost use Rattle.std.specs.Prelude.{IfOk, OnOk, MatchOption};
    ghost use Rattle.keymap.specs.Keymap.{has_begun};
    ghost use Rattle.keymap.specs.declared.menu.Menu.TheVariants.{Generic};
    ghost use Rattle.mail_base.specs.Series.{plain_texts};
    ghost use Rattle.session_state.specs.Commands.{IsPressed};
    ghost use Rattle.session_state.specs.Lessons.{plain_lesson};
    ghost use Rattle.session_state.specs.Rules.{answer_line, first_rules, put_all, weeding_of};
    ghost use Rattle.session_state.specs.Rules.{without_puts};
    ghost use Rattle.hooks.specs.Hooks.{commands_for, plain_command, plain_pattern_hook};
    ghost use Rattle.message_text.specs.Weeding.{plain_weeding};

    /// What stands before a muttrc is read.
    #[tactic(auto, unfolding(crate::specs::Rules::first_rules))]
    pub fn new(alloc: Global) -> Result<Rules, NoMemory>
        ensures { IfOk result (λ r. r ≡ first_rules) }
    {
        let Ok(settings) = Settings::new(alloc) else {
            return Err(NoMemory);
        };
        Ok(Rules {
            alloc,
            settings,
            keymap: Keymap::new(alloc)?,
            weeds: Weeds::new(alloc)?,
            hooks: Hooks::new(alloc),
            scores: Vec::new(alloc),
            put: Vec::new(alloc),
            lessons: Vec::new(alloc),
        })
    }

    /// The variables.
    pub fn settings(&self) -> &Settings
        ensures { result.now ≡ self.now.settings }
    {
        &self.settings
    }

    /// What is shown of a header, and in which order.
    pub fn weeding(&self, alloc: Global) -> Result<Weeding, NoMemory>
        ensures { IfOk result (λ w. plain_weeding w ≡ weeding_of self.now) }
    {
        let weed = self.settings.is_set(Variable::Weed);
        self.weeds.weeding(alloc, weed)
    }

    /// The commands that hooks give for the folder at a path, in the order of the hooks.
    pub fn folder_hooks(&mut self, path: &[u8]) -> Result<HookCommands, NoMemory>
        ensures commands { IfOk result (λ commands. map plain_command commands.items
            ≡ commands_for path.now self.old.hooks.folders) }
        ensures same { self.new ≡ self.old }
    {
        self.hooks.for_folder(self.alloc, path)
    }

    /// The hooks for messages that are shown.
    pub fn message_hooks(&self) -> &PatternHooks
        ensures { map plain_pattern_hook result.now.items ≡ self.now.hooks.messages }
    {
        self.hooks.message_hooks()
    }

    /// Whether keys of a bound sequence were pressed that wait for its rest.
    pub fn has_begun(&self) -> bool
        ensures { result ≡ has_begun self.now.keymap.begun }
    {
        self.keymap.has_begun()
    }

    /// How many commands have put keys that were not taken.
    pub fn puts(&self) -> usize
        ensures { result ≡ length self.now.put }
    {
        self.put.len()
    }

    /// Takes the keys that the first of these commands has put.
    pub fn take_put(&mut self) -> Option<Keys>
        ensures keys { MatchOption result ((self.old.put ≡ []) × (self.new.put ≡ []))
            (λ keys. self.old.put ≡ keys.items ∷ self.new.put) }
        ensures same { self.new ≡ record self.old { put = self.new.put } }
    {
        if self.put.is_empty() {
            return None;
        }
        Some(self.put.remove(0))
    }

    /// Takes the first of what commands tell the index.
    pub fn take_lesson(&mut self) -> Option<Lesson>
        ensures lesson { MatchOption result ((self.old.lessons ≡ []) × (self.new.lessons ≡ []))
            (λ lesson. self.old.lessons ≡ plain_lesson lesson ∷ self.new.lessons) }
        ensures same { self.new ≡ record self.old { lessons = self.new.lessons } }
    {
        if self.lessons.is_empty() {
            return None;
        }
        Some(self.lessons.remove(0))
    }

    /// Drops the keys that commands have put.
    pub fn drop_puts(&mut self)
        ensures { self.new ≡ without_puts self.old }
    {
        self.put = Vec::new(self.alloc);
    }

    /// Puts all keys that commands have put before those that wait.
    pub fn put_into(&mut self, queue: &mut KeyQueue) -> Result<(), NoMemory>
        ensures keys { OnOk result
            (queue.new.items ≡ put_all self.old.put ++ queue.old.items) }
        ensures rules { OnOk result (self.new ≡ without_puts self.old) }
        ensures replaced { queue.new.replaced ≡ queue.old.replaced }
    {
        while let Some(keys) = self.take_put() {
            queue.put_before(&keys)?;
        }
        Ok(())
    }

    /// Takes keys that wait up to an answer of a menu.
    pub fn press(&mut self, menu: Menu, queue: &mut KeyQueue) -> Result<Press, NoMemory>
        requires { menu ≢ Generic }
        ensures { IfOk result
            (λ press. IsPressed menu press self.old self.new queue.old queue.new) }
    {
        self.keymap.press(menu, queue)
    }

    /// The line that a query of a variable prints. The name is that of a variable.
    pub fn answer(&self, alloc: Global, name: &[u8]) -> Result<Line, NoMemory>
        ensures { IfOk result (λ line. line.items ≡ answer_line self.now.settings name.now) }
    {
        match self.settings.query(alloc, name) {
            Ok(value) => value.line(alloc, name),
            Err(_) => Err(NoMemory),
        }
    }

    /// The lines that queries of these variables print.
    pub fn answers(&self, alloc: Global, names: &[Bytes]) -> Result<Lines, NoMemory>
        ensures { IfOk result (λ lines. plain_texts lines
            ≡ map (answer_line self.now.settings) (map (λ name. name.items) names.now)) }
    {
        let mut lines = Lines::new(alloc);
        let mut left = names;
        while let Some((name, rest)) = left.split_first() {
            lines.push(self.answer(alloc, name.as_slice())?)?;
            left = rest;
        }
        Ok(lines)
    }
}
