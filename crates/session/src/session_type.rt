//! A session, and how it takes in what happened.

use crate::core_state::Core;
use crate::turn::settle;
use disk_model::DiskError;
use folder_core::Archive;
use keymap::{Key, KeyQueue};
use mail_base::{Bytes, Line, Lines, NoMemory};
use people::Verdicts;
use session_events::{Event, OpenFolder, Trace};
use session_index::Message;
use session_screen::Window;
use session_state::{Moment, Stage, Told, add_notes, read_first, run_folder_hooks, skip_first};
use std::alloc::Global;

/// What a run stands on between its events.
pub struct Session {
    pub alloc: Global,
    pub core: Core,
    pub queue: KeyQueue,
    pub stage: Stage,
    pub window: Window,
    /// The open folder, and the moment of its last check: before an opening that of the start.
    pub folder: OpenFolder,
    /// The moment at which commands run and keys act: that of the last key, or of the opening or
    /// the start.
    pub moment: Moment,
    pub named: Option<Bytes>,
    /// The word by which a lock of a folder is told to be ours; it may be empty.
    pub owner: Bytes,
}

impl Drop for Session {
    fn drop(self) {
        let Session {
            alloc: _,
            core: _,
            queue: _,
            stage: _,
            window: _,
            folder: _,
            moment: _,
            named: _,
            owner: _,
        } = self;
    }
}

impl Session {
    ghost use Rattle.std.specs.Prelude.{◌≡◌, ◌<◌, ◌+◌, ◌++◌, ℕ, ℤ, false, List, length, map};
    ghost use Rattle.std.specs.Prelude.{OnOk, MatchOption};
    ghost use Rattle.mail_base.specs.Series.{Held, plain_texts};
    ghost use Rattle.folder_letters.specs.Letters.{Mail, plain_letter};
    ghost use Rattle.index_view.specs.View.{IsOf};
    ghost use Rattle.patterns.specs.Causes.{Keeps};
    ghost use Rattle.people.specs.Judged.{PlainJudged};
    ghost use Rattle.session_events.specs.Events.{plain_event};
    ghost use Rattle.session_events.specs.Happened.{IsFresh};
    ghost use Rattle.session_events.specs.Wishes as wish;
    ghost use Rattle.session.specs.Answers.{shown_on};
    ghost use Rattle.session.specs.Calls.{Becomes, Happens, TakesIn, letters_in};
    ghost use Rattle.session.specs.Core.{IsEmpty, IsOver, plain_core};
    ghost use Rattle.session_screen.specs.Window.{IsWindow};
    ghost use Rattle.session_state.specs.Instants.{IsMoment};
    ghost use Rattle.session.specs.Fitting.{CanAct, CanLearn, CanRead, CanTake, Fits, IsLeft};
    ghost use Rattle.session.specs.Fitting.{IsReadIn, StaysUnopened};
    ghost use Rattle.session.specs.Given.{Given, IsGiven, given_of};
    ghost use Rattle.session.specs.Steps.{IsFileless};
    ghost use Rattle.session_state.specs.Frames.{plain_frames};
    ghost use Rattle.session_state.specs.Told.{plain_told};
    ghost use Rattle.session_state.specs.declared.stage.Stage.TheVariants.{Idle, Ready};
    ghost use Rattle.session.specs.Runs as spec;

    /// Takes in the event of a file of commands or of a key.
    pub(crate) fn take(
        &mut self,
        archive: &Archive,
        verdicts: &mut Verdicts,
        notes: &mut Lines,
        event: &Event,
    ) -> Result<(), NoMemory>
        requires read { CanRead self.old }
        requires fits { CanTake (map plain_letter archive.now.items) self.old
            (plain_event event.now) }
        ensures arrived { OnOk result ((given : Given)
            → IsGiven (map plain_letter archive.now.items) verdicts.new.kept given
            → spec.plain_session self.new notes.new
            ≡ spec.arrived_by given (spec.plain_session self.old notes.old)
            (plain_event event.now)) }
        ensures left { OnOk result (IsLeft (map plain_letter archive.now.items) self.old
            self.new (plain_event event.now)) }
        ensures window { self.new.window ≡ self.old.window }
        ensures folder { self.new.folder ≡ self.old.folder }
        ensures kept { Keeps verdicts.old.kept verdicts.new.kept }
    {
        match event {
            Event::Sourced { text, .. } => {
                self.read(verdicts, notes, text.as_slice())?;
                self.read_on(archive, verdicts)
            }
            Event::NotSourced { why, .. } => {
                self.skip(verdicts, notes, *why)?;
                self.read_on(archive, verdicts)
            }
            Event::Pressed { key, moment } => {
                self.take_key();
                self.type_in(*key, Moment(*moment), archive, verdicts)
            }
            _ => Ok(()),
        }
    }

    /// Puts what happened into the trace, and takes it in.
    pub(crate) fn happen(&mut self, event: Event, trace: &mut Trace) -> Result<(), NoMemory>
        requires room { 0 < trace.old.events.room }
        requires read { CanRead self.old }
        requires fits { CanTake (letters_in trace.old) self.old (plain_event event) }
        requires met { self.old.folder.met ≡ length (letters_in trace.old) }
        ensures happens { Happens (plain_event event) self.old self.new trace.old trace.new }
        ensures taken { OnOk result
            (TakesIn (plain_event event) self.old self.new trace.old trace.new) }
    {
        let verdicts = &mut trace.verdicts;
        let taken = self.take(&trace.archive, verdicts, &mut trace.notes, &event);
        let _ = trace.events.push(event);
        taken
    }

    /// The file of commands that is wished.
    pub(crate) fn wished_file(&self) -> Option<&Line>
        ensures { MatchOption result (IsFileless self.now.stage (plain_frames self.now.core.frames))
            (λ file. (notes : Held (Held ℕ)) → (moment : ℤ)
            → spec.wish (spec.plain_session self.now notes) moment
            ≡ wish.Source file.now.items) }
    {
        match self.stage {
            Stage::Unopened | Stage::Opening | Stage::Reading => match self.core.frames.first() {
                Some(frame) => Some(&frame.file),
                None => None,
            },
            _ => None,
        }
    }

    fn read(
        &mut self,
        verdicts: &mut Verdicts,
        notes: &mut Lines,
        text: &[u8],
    ) -> Result<(), NoMemory>
        requires { CanRead self.old }
        ensures read { OnOk result ((later : List PlainJudged) → Keeps verdicts.new.kept later
            → spec.plain_session self.new notes.new
            ≡ spec.read_in later text.now (spec.plain_session self.old notes.old)) }
        ensures kept { Keeps verdicts.old.kept verdicts.new.kept }
        ensures rest { IsReadIn self.old self.new }
    {
        let time = self.moment.with_offset(self.window.offset);
        let mut told = Told::new(self.alloc);
        let (alloc, core) = (self.alloc, &mut self.core);
        let (rules, frames) = (&mut core.rules, &mut core.frames);
        read_first(alloc, rules, time, verdicts, frames, &mut told, text)?;
        self.tell(notes, told)
    }

    fn skip(
        &mut self,
        verdicts: &mut Verdicts,
        notes: &mut Lines,
        why: DiskError,
    ) -> Result<(), NoMemory>
        requires { CanRead self.old }
        ensures skipped { OnOk result ((later : List PlainJudged) → Keeps verdicts.new.kept later
            → spec.plain_session self.new notes.new
            ≡ spec.skipped later why (spec.plain_session self.old notes.old)) }
        ensures kept { Keeps verdicts.old.kept verdicts.new.kept }
        ensures rest { IsReadIn self.old self.new }
    {
        let time = self.moment.with_offset(self.window.offset);
        let mut told = Told::new(self.alloc);
        let (alloc, core) = (self.alloc, &mut self.core);
        let (rules, frames) = (&mut core.rules, &mut core.frames);
        skip_first(alloc, rules, time, verdicts, frames, &mut told, why)?;
        self.tell(notes, told)
    }

    // Runs the commands of the hooks that count for a folder, up to one that names a file.
    fn run_hooks(
        &mut self,
        path: &[u8],
        moment: Moment,
        verdicts: &mut Verdicts,
        notes: &mut Lines,
    ) -> Result<(), NoMemory>
        requires read { CanRead self.old }
        requires moment { IsMoment moment.0 }
        ensures hooked { OnOk result ((later : List PlainJudged) → Keeps verdicts.new.kept later
            → spec.plain_session self.new notes.new ≡ spec.hooked_by later path.now moment.0
            (spec.plain_session self.old notes.old)) }
        ensures kept { Keeps verdicts.old.kept verdicts.new.kept }
        ensures rest { IsReadIn self.old self.new }
    {
        let time = moment.with_offset(self.window.offset);
        let mut told = Told::new(self.alloc);
        let (alloc, core) = (self.alloc, &mut self.core);
        let commands = core.rules.folder_hooks(path)?;
        let commands = commands.as_slice();
        let (rules, frames) = (&mut core.rules, &mut core.frames);
        run_folder_hooks(alloc, rules, time, verdicts, frames, &mut told, commands)?;
        self.tell(notes, told)
    }

    // Takes up what commands of files have told.
    fn tell(&mut self, notes: &mut Lines, told: Told) -> Result<(), NoMemory>
        ensures notes { OnOk result
            (plain_texts notes.new ≡ plain_texts notes.old ++ (plain_told told).notes) }
        ensures core { OnOk result (plain_core self.new.core
            ≡ shown_on (plain_told told).shown (plain_core self.old.core)) }
        ensures view { self.new.core.desk.view ≡ self.old.core.desk.view }
        ensures reader { self.new.core.reader ≡ self.old.core.reader }
        ensures same { self.new ≡ record self.old { core = self.new.core } }
    {
        add_notes(self.alloc, notes, &told.notes)?;
        self.core.show(told.shown);
        Ok(())
    }

    // Behind a file the index learns what its commands tell it, and behind the last one a reader
    // begins, or the keys go on that have named it.
    fn read_on(&mut self, archive: &Archive, verdicts: &mut Verdicts) -> Result<(), NoMemory>
        requires { CanLearn (map plain_letter archive.now.items) self.old }
        ensures on { OnOk result (Becomes (map plain_letter archive.now.items) verdicts.new.kept
            spec.read_on self.old self.new) }
        ensures fits { OnOk result (Fits (map plain_letter archive.now.items) self.new) }
        ensures unopened { StaysUnopened self.old self.new }
        ensures window { self.new.window ≡ self.old.window }
        ensures folder { self.new.folder ≡ self.old.folder }
        ensures kept { Keeps verdicts.old.kept verdicts.new.kept }
    {
        match self.stage {
            Stage::Unopened => Ok(()),
            Stage::Opening => {
                self.learn(archive)?;
                self.push_keys(archive, verdicts)
            }
            Stage::Reading => {
                self.learn(archive)?;
                self.go_on(archive, verdicts)
            }
            _ => self.learn(archive),
        }
    }

    // The index learns what commands tell it, and what is shown is made anew.
    fn learn(&mut self, archive: &Archive) -> Result<(), NoMemory>
        requires { CanLearn (map plain_letter archive.now.items) self.old }
        ensures learns { OnOk result ((kept : List PlainJudged) → Becomes
            (map plain_letter archive.now.items) kept spec.learning self.old self.new) }
        ensures fits { OnOk result (Fits (map plain_letter archive.now.items) self.new) }
        ensures stage { self.new.stage ≡ self.old.stage }
        ensures window { self.new.window ≡ self.old.window }
        ensures folder { self.new.folder ≡ self.old.folder }
    {
        self.core.catch_up(archive)?;
        self.core.refresh(self.window, archive)?;
        Ok(())
    }

    // Where no file is left, a message is shown that waited for it, and the keys go on.
    fn go_on(&mut self, archive: &Archive, verdicts: &mut Verdicts) -> Result<(), NoMemory>
        requires { Fits (map plain_letter archive.now.items) self.old }
        ensures on { OnOk result (Becomes (map plain_letter archive.now.items) verdicts.new.kept
            spec.reading_on self.old self.new) }
        ensures fits { OnOk result (Fits (map plain_letter archive.now.items) self.new) }
        ensures window { self.new.window ≡ self.old.window }
        ensures folder { self.new.folder ≡ self.old.folder }
        ensures kept { Keeps verdicts.old.kept verdicts.new.kept }
    {
        if self.core.waits_for_file() {
            return Ok(());
        }
        self.core.resume(self.window, archive)?;
        self.settle(archive, verdicts)
    }

    /// A key was taken: the message line is empty.
    pub(crate) fn take_key(&mut self)
        ensures taken { (notes : Held (Held ℕ)) → spec.plain_session self.new notes
            ≡ spec.taken (spec.plain_session self.old notes) }
        ensures fits { (mails : List Mail) → Fits mails self.old → Fits mails self.new }
        ensures act { (mails : List Mail) → CanAct mails self.old → CanAct mails self.new }
        ensures window { self.new.window ≡ self.old.window }
        ensures folder { self.new.folder ≡ self.old.folder }
        ensures stage { self.old.stage ≡ Idle → self.new.stage ≡ Ready }
        ensures kept { self.old.stage ≡ Ready → self.new ≡ self.old }
    {
        if let Stage::Idle = self.stage {
            self.core.desk.message = Message::Blank;
            self.stage = Stage::Ready;
        }
    }

    fn type_in(
        &mut self,
        key: Key,
        moment: Moment,
        archive: &Archive,
        verdicts: &mut Verdicts,
    ) -> Result<(), NoMemory>
        requires window { IsWindow self.old.window }
        requires moment { IsMoment moment.0 }
        requires over { IsOver (map plain_letter archive.now.items) self.old.window self.old.core }
        ensures typed { OnOk result (Becomes (map plain_letter archive.now.items) verdicts.new.kept
            (λ given. spec.typed given key moment.0) self.old self.new) }
        ensures fits { OnOk result (Fits (map plain_letter archive.now.items) self.new) }
        ensures window { self.new.window ≡ self.old.window }
        ensures folder { self.new.folder ≡ self.old.folder }
        ensures kept { Keeps verdicts.old.kept verdicts.new.kept }
    {
        self.moment = moment;
        self.queue.typed(key)?;
        self.settle(archive, verdicts)
    }

    // Lets the keys that wait act.
    pub(crate) fn settle(
        &mut self,
        archive: &Archive,
        verdicts: &mut Verdicts,
    ) -> Result<(), NoMemory>
        requires { CanAct (map plain_letter archive.now.items) self.old }
        ensures acting { OnOk result (Becomes (map plain_letter archive.now.items) verdicts.new.kept
            spec.acting self.old self.new) }
        ensures fits { OnOk result (Fits (map plain_letter archive.now.items) self.new) }
        ensures window { self.new.window ≡ self.old.window }
        ensures folder { self.new.folder ≡ self.old.folder }
        ensures kept { Keeps verdicts.old.kept verdicts.new.kept }
    {
        let (window, moment) = (self.window, self.moment);
        let queue = &mut self.queue;
        self.stage = settle(&mut self.core, queue, window, moment, archive, verdicts)?;
        Ok(())
    }

    /// Takes in a folder that was opened at a moment: the commands of the hooks that count for it
    /// are run. Keys that commands have put still wait.
    pub(crate) fn open(
        &mut self,
        folder: OpenFolder,
        moment: Moment,
        archive: &Archive,
        verdicts: &mut Verdicts,
        notes: &mut Lines,
    ) -> Result<(), NoMemory>
        requires read { CanRead self.old }
        requires empty { IsEmpty self.old.core.desk.view }
        requires fresh { IsFresh (map plain_letter archive.now.items) folder.listing.items }
        requires moment { IsMoment moment.0 }
        requires met { folder.met ≡ self.old.folder.met + length folder.listing.items }
        requires forgot { folder.forgot ≡ false }
        requires refused { folder.refused ≡ false }
        requires checked { folder.checked ≡ moment.0 }
        ensures opened { OnOk result ((later : List PlainJudged) → Keeps verdicts.new.kept later
            → spec.plain_session self.new notes.new ≡ spec.opened_by
            (given_of (map plain_letter archive.now.items) later) folder.known.path
            folder.known.kind moment.0 folder.listing.items
            (spec.plain_session self.old notes.old)) }
        ensures fits { OnOk result (Fits (map plain_letter archive.now.items) self.new) }
        ensures window { self.new.window ≡ self.old.window }
        ensures folder { OnOk result (self.new.folder ≡ folder) }
        ensures kept { Keeps verdicts.old.kept verdicts.new.kept }
    {
        let path = folder.known.path().as_bytes();
        self.run_hooks(path, moment, verdicts, notes)?;
        self.core.open(archive, &folder.listing)?;
        self.core.kind = folder.known.kind();
        self.folder = folder;
        self.moment = moment;
        self.stage = Stage::Pushing;
        Ok(())
    }

    /// Behind the hooks of an opened folder the cursor is set, and the keys act that commands have
    /// put, at the moment of the opening.
    pub(crate) fn push_keys(
        &mut self,
        archive: &Archive,
        verdicts: &mut Verdicts,
    ) -> Result<(), NoMemory>
        requires { Fits (map plain_letter archive.now.items) self.old }
        ensures pushed { OnOk result (Becomes (map plain_letter archive.now.items)
            verdicts.new.kept spec.pushed self.old self.new) }
        ensures fits { OnOk result (Fits (map plain_letter archive.now.items) self.new) }
        ensures window { self.new.window ≡ self.old.window }
        ensures folder { self.new.folder ≡ self.old.folder }
        ensures kept { Keeps verdicts.old.kept verdicts.new.kept }
    {
        if self.core.waits_for_file() {
            self.stage = Stage::Opening;
            return Ok(());
        }
        self.core.desk.begin();
        self.queue = KeyQueue::new(self.alloc);
        self.core.rules.put_into(&mut self.queue)?;
        self.settle(archive, verdicts)
    }
}
