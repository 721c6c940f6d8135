//! How a message comes to be shown: the hooks that count for it run, and then it is on pages and
//! seen.

ghost use Rattle.std.specs.Prelude.{◌≡◌, ◌++◌, List, map, IfOk, OnOk};
ghost use Rattle.folder_letters.specs.Letters.{plain_letter};
ghost use Rattle.hooks.specs.Hooks.{plain_pattern_hook};
ghost use Rattle.index_view.specs.View.{IsOf};
ghost use Rattle.patterns.specs.Causes.{Keeps};
ghost use Rattle.people.specs.Judged.{PlainJudged};
ghost use Rattle.rc_lang.specs.Settings.{plain_names};
ghost use Rattle.session.specs.Showing as spec;
ghost use Rattle.session_index.specs.Desk.{plain_desk};
ghost use Rattle.session_state.specs.Instants.{IsInstant};

use crate::core_state::Core;
use folder_core::Archive;
use hooks::PatternHook;
use mail_base::{Bytes, Id, Names, NoMemory};
use people::Verdicts;
use session_index::Desk;
use session_screen::Window;
use session_state::{Instant, Moment, Told, read_at, run_message_hooks};
use std::alloc::Global;

// Whether a hook counts for a message.
fn counts(
    desk: &mut Desk,
    time: Instant,
    archive: &Archive,
    verdicts: &mut Verdicts,
    id: Id,
    hook: &PatternHook,
) -> Result<bool, NoMemory>
    requires time { IsInstant time }
    requires is_of { IsOf (map plain_letter archive.now.items) desk.old.view }
    ensures keeps { Keeps verdicts.old.kept verdicts.new.kept }
    ensures counts { IfOk result (λ counts. (later : List PlainJudged)
        → Keeps verdicts.new.kept later → counts ≡ spec.hook_counts later time
        (map plain_letter archive.now.items) id (plain_desk desk.old)
        (plain_pattern_hook hook.now)) }
    ensures same { desk.new ≡ desk.old }
{
    match read_at(desk.alloc, hook.pattern.as_slice(), time, verdicts)? {
        Some(pattern) => {
            let mut pattern = pattern;
            let matches = desk.matches(archive, &mut pattern, id)?;
            Ok(matches != hook.negated)
        }
        None => Ok(false),
    }
}

// Adds the commands of the hooks that count for a message.
fn add_commands(
    commands: &mut Names,
    desk: &mut Desk,
    time: Instant,
    archive: &Archive,
    verdicts: &mut Verdicts,
    id: Id,
    hooks: &[PatternHook],
) -> Result<(), NoMemory>
    requires time { IsInstant time }
    requires is_of { IsOf (map plain_letter archive.now.items) desk.old.view }
    ensures keeps { Keeps verdicts.old.kept verdicts.new.kept }
    ensures commands { OnOk result ((later : List PlainJudged) → Keeps verdicts.new.kept later
        → plain_names commands.new.items ≡ plain_names commands.old.items ++ spec.commands_in
        later time (map plain_letter archive.now.items) id (plain_desk desk.old)
        (map plain_pattern_hook hooks.now)) }
    ensures same { desk.new ≡ desk.old }
{
    let mut left = hooks;
    while let [first, rest @ ..] = left {
        if counts(desk, time, archive, verdicts, id, first)? {
            commands.push(Bytes::copy_of(desk.alloc, first.command.as_slice())?)?;
        }
        left = rest;
    }
    Ok(())
}

impl Core {
    ghost use Rattle.std.specs.Prelude.{◌≡◌, List, Some, map, option_map, IfOk, OnOk};
    ghost use Rattle.folder_letters.specs.Letters.{plain_letter};
    ghost use Rattle.index_view.specs.View.{IsOf};
    ghost use Rattle.patterns.specs.Causes.{Keeps};
    ghost use Rattle.people.specs.Judged.{PlainJudged};
    ghost use Rattle.rc_lang.specs.Settings.{plain_names};
    ghost use Rattle.session.specs.Core.{IsOver, Reads, Stands, ground_of, plain_core};
    ghost use Rattle.session.specs.Showing as spec;
    ghost use Rattle.session_screen.specs.Window.{IsWindow};
    ghost use Rattle.session_state.specs.Instants.{IsInstant, IsMoment};

    // The commands of the hooks that count for a message.
    fn commands_for(
        &mut self,
        time: Instant,
        archive: &Archive,
        verdicts: &mut Verdicts,
        id: Id,
    ) -> Result<Names, NoMemory>
        requires time { IsInstant time }
        requires is_of { IsOf (map plain_letter archive.now.items) self.old.desk.view }
        ensures keeps { Keeps verdicts.old.kept verdicts.new.kept }
        ensures commands { IfOk result (λ commands. (later : List PlainJudged)
            → Keeps verdicts.new.kept later
            → plain_names commands.items ≡ spec.commands_in later time
            (map plain_letter archive.now.items) id (plain_core self.old).desk
            (plain_core self.old).rules.hooks.messages) }
        ensures same { self.new ≡ self.old }
    {
        let mut commands = Names::new(self.desk.alloc);
        let hooks = self.rules.message_hooks().as_slice();
        add_commands(
            &mut commands,
            &mut self.desk,
            time,
            archive,
            verdicts,
            id,
            hooks,
        )?;
        Ok(commands)
    }

    // Runs the commands of hooks, up to one that names a file; the index learns what they tell it,
    // and what is shown is made anew.
    fn run_commands(
        &mut self,
        window: Window,
        time: Instant,
        archive: &Archive,
        verdicts: &mut Verdicts,
        commands: &Names,
    ) -> Result<(), NoMemory>
        requires window { IsWindow window }
        requires time { IsInstant time }
        requires over { IsOver (map plain_letter archive.now.items) window self.old }
        ensures keeps { Keeps verdicts.old.kept verdicts.new.kept }
        ensures core { OnOk result ((later : List PlainJudged) → Keeps verdicts.new.kept later
            → plain_core self.new ≡ spec.hooked later time (map plain_letter archive.now.items)
            window (plain_names commands.now.items) (plain_core self.old)) }
        ensures over { OnOk result (IsOver (map plain_letter archive.now.items) window self.new) }
    {
        if commands.len() == 0 {
            return Ok(());
        }
        self.run_texts(time, verdicts, commands.as_slice())?;
        self.catch_up(archive)?;
        self.refresh(window, archive)
    }

    // Runs the commands of hooks, up to one that names a file.
    fn run_texts(
        &mut self,
        time: Instant,
        verdicts: &mut Verdicts,
        commands: &[Bytes],
    ) -> Result<(), NoMemory>
        requires { IsInstant time }
        ensures keeps { Keeps verdicts.old.kept verdicts.new.kept }
        ensures core { OnOk result ((later : List PlainJudged) → Keeps verdicts.new.kept later
            → plain_core self.new ≡ spec.texts_run later time (plain_names commands.now)
            (plain_core self.old)) }
        ensures view { self.new.desk.view ≡ self.old.desk.view }
    {
        let alloc = self.desk.alloc;
        let mut told = Told::new(alloc);
        let rules = &mut self.rules;
        let frames = &mut self.frames;
        run_message_hooks(alloc, rules, time, verdicts, frames, &mut told, commands)?;
        self.show(told.shown);
        Ok(())
    }

    /// Shows a message on pages; it becomes seen.
    pub fn show_message(
        &mut self,
        window: Window,
        archive: &Archive,
        id: Id,
    ) -> Result<(), NoMemory>
        requires window { IsWindow window }
        requires over { IsOver (map plain_letter archive.now.items) window self.old }
        ensures core { OnOk result (plain_core self.new
            ≡ spec.displaying (map plain_letter archive.now.items) id (plain_core self.old)) }
        ensures over { OnOk result (IsOver (map plain_letter archive.now.items) window self.new) }
    {
        let weeding = self.rules.weeding(self.desk.alloc)?;
        self.reader.open(archive, id, &weeding, window.cols)?;
        self.desk.see(archive, id)
    }

    // Shows a message, behind the hooks that count for it.
    fn display(
        &mut self,
        window: Window,
        moment: Moment,
        archive: &Archive,
        verdicts: &mut Verdicts,
        id: Id,
    ) -> Result<(), NoMemory>
        requires window { IsWindow window }
        requires moment { IsMoment moment.0 }
        requires over { IsOver (map plain_letter archive.now.items) window self.old }
        ensures keeps { Keeps verdicts.old.kept verdicts.new.kept }
        ensures core { OnOk result ((later : List PlainJudged) → Keeps verdicts.new.kept later
            → plain_core self.new ≡ spec.displayed
            (ground_of (map plain_letter archive.now.items) later window moment.0) id
            (plain_core self.old)) }
        ensures over { OnOk result (IsOver (map plain_letter archive.now.items) window self.new) }
    {
        let time = moment.with_offset(window.offset);
        let commands = self.commands_for(time, archive, verdicts, id)?;
        self.run_commands(window, time, archive, verdicts, &commands)?;
        self.show_unless_waiting(window, archive, id)
    }

    // Shows a message, unless a file is to be read first that hooks have named.
    fn show_unless_waiting(
        &mut self,
        window: Window,
        archive: &Archive,
        id: Id,
    ) -> Result<(), NoMemory>
        requires window { IsWindow window }
        requires over { IsOver (map plain_letter archive.now.items) window self.old }
        ensures core { OnOk result (plain_core self.new
            ≡ spec.once_hooked (map plain_letter archive.now.items) id (plain_core self.old)) }
        ensures over { OnOk result (IsOver (map plain_letter archive.now.items) window self.new) }
    {
        if self.waits_for_file() {
            self.reader.await_message(id);
            return Ok(());
        }
        self.show_message(window, archive, id)
    }

    /// Shows the cursor's message, if there is one.
    pub fn display_at_cursor(
        &mut self,
        window: Window,
        moment: Moment,
        archive: &Archive,
        verdicts: &mut Verdicts,
    ) -> Result<(), NoMemory>
        requires window { IsWindow window }
        requires moment { IsMoment moment.0 }
        requires over { IsOver (map plain_letter archive.now.items) window self.old }
        ensures keeps { Keeps verdicts.old.kept verdicts.new.kept }
        ensures core { OnOk result ((later : List PlainJudged) → Keeps verdicts.new.kept later
            → plain_core self.new ≡ spec.displaying_cursor
            (ground_of (map plain_letter archive.now.items) later window moment.0)
            (plain_core self.old)) }
        ensures over { OnOk result (IsOver (map plain_letter archive.now.items) window self.new) }
    {
        match self.desk.view.cursor() {
            Some(id) => self.display(window, moment, archive, verdicts, id),
            None => Ok(()),
        }
    }

    /// Lists the parts of the cursor's message, if there is one.
    pub fn list_parts(&mut self, window: Window, archive: &Archive) -> Result<(), NoMemory>
        requires { IsOver (map plain_letter archive.now.items) window self.old }
        ensures core { OnOk result (plain_core self.new ≡ spec.listing_cursor
            (map plain_letter archive.now.items) (plain_core self.old)) }
        ensures over { OnOk result (IsOver (map plain_letter archive.now.items) window self.new) }
    {
        match self.desk.view.cursor() {
            Some(id) => self.reader.list(archive, id),
            None => Ok(()),
        }
    }

    /// Shows the message that waited for files of commands, if one did.
    pub fn resume(&mut self, window: Window, archive: &Archive) -> Result<(), NoMemory>
        requires window { IsWindow window }
        requires over { IsOver (map plain_letter archive.now.items) window self.old }
        ensures core { OnOk result (plain_core self.new
            ≡ spec.resumed (map plain_letter archive.now.items) (plain_core self.old)) }
        ensures over { OnOk result (IsOver (map plain_letter archive.now.items) window self.new) }
    {
        match self.reader.take_awaited() {
            Some(id) => self.show_message(window, archive, id),
            None => Ok(()),
        }
    }
}
