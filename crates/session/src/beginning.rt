//! How a session begins.

use crate::core_state::Core;
use crate::session_type::Session;
use disk_model::Device;
use folder_core::Archive;
use folder_drivers::Drivers;
use keymap::KeyQueue;
use mail_base::{Bytes, Lines, NoMemory, Words};
use session_events::{OpenFolder, Opening, Setup, StartError, Trace, open_event};
use session_screen::{Window, folder_path as path_in, new_kind as kind_in};
use session_state::{Moment, Stage, first_frames};
use std::alloc::Global;

impl Session {
    ghost use Rattle.std.specs.Prelude.{◌≡◌, [], ℕ, Any, IfOk, IfErr, OnErr, OnOk};
    ghost use Rattle.std.specs.Prelude.{false, length, map, option_map};
    ghost use Rattle.mail_base.specs.Series.{Held, plain_texts};
    ghost use Rattle.disk_model.specs.Seen.{Seen};
    ghost use Rattle.patterns.specs.Causes.{Keeps};
    ghost use Rattle.folder_letters.specs.Letters.{plain_letter};
    ghost use Rattle.session_screen.specs.Places.{folder_path, new_kind};
    ghost use Rattle.session.specs.Beginning.{AnswersNames};
    ghost use Rattle.folder_core.specs.Known.{nothing_known};
    ghost use Rattle.mail_base.specs.declared.kind.Kind.TheVariants.{Mbox};
    ghost use Rattle.session.specs.Calls.{FailsIn, IsOpenIn, IsSourced, IsUnopened, StartsIn};
    ghost use Rattle.session.specs.Calls.{events_in, letters_in};
    ghost use Rattle.session.specs.Core.{IsEmpty, plain_core};
    ghost use Rattle.session_events.specs.Events.{AreFiles, plain_event};
    ghost use Rattle.session_events.specs.Happened.{AllMet, Standing};
    ghost use Rattle.session_screen.specs.Window.{IsWindow};
    ghost use Rattle.session_state.specs.Instants.{IsMoment};
    ghost use Rattle.session.specs.Fitting.{FitsRun};
    ghost use Rattle.session.specs.Given.{Given};
    ghost use Rattle.session_events.specs.Opening.{OpensPath};
    ghost use Rattle.session.specs.Runs.{State, plain_session};
    ghost use Rattle.session.specs.Starting.{first_state, plain_setup, state_over};
    ghost use Rattle.session.specs.Steps.{SourcesOff};

    /// Reads the files of commands, and then opens the folder. The keys that commands have put wait
    /// for `pushed`.
    pub fn start(
        alloc: Global,
        setup: Setup,
        dev: &mut Device,
        drivers: &Drivers,
        moment: i64,
        trace: &mut Trace,
    ) -> Result<Session, StartError>
        requires archive { trace.old.archive.items ≡ [] }
        requires events { trace.old.events.items ≡ [] }
        requires notes { trace.old.notes.items ≡ [] }
        requires window { IsWindow (plain_setup setup).window }
        requires moment { IsMoment moment }
        ensures fits { IfOk result (FitsRun (letters_in trace.new)) }
        ensures known { IfOk result (λ session. IsOpenIn
            (λ kind. Any (λ d. sort (d.vtable, d.value) ≡ kind) drivers.now.list.items) session
            trace.new (seen (dev.new.disk.vtable, dev.new.disk.value))) }
        ensures met { AllMet (length (letters_in trace.new)) 0 (events_in trace.new) }
        ensures ok { IfOk result (λ session. StartsIn
            (λ kind. Any (λ d. sort (d.vtable, d.value) ≡ kind) drivers.now.list.items)
            (first_state (plain_setup setup) moment) moment session trace.new
            (seen (dev.old.disk.vtable, dev.old.disk.value))
            (seen (dev.new.disk.vtable, dev.new.disk.value))) }
        ensures err { IfErr result (λ why. FailsIn
            (λ kind. Any (λ d. sort (d.vtable, d.value) ≡ kind) drivers.now.list.items)
            (first_state (plain_setup setup) moment) moment why trace.new
            (seen (dev.old.disk.vtable, dev.old.disk.value))
            (seen (dev.new.disk.vtable, dev.new.disk.value))) }
    {
        let mut session = Session::sourced(alloc, setup, moment, dev, trace)?;
        session.open_wished(dev, drivers, moment, trace)?;
        Ok(session)
    }

    /// Reads the files of commands, and gives a line for each name, which is that of a variable. No
    /// folder is opened.
    pub fn answers(
        alloc: Global,
        setup: Setup,
        names: &Words,
        moment: i64,
        dev: &mut Device,
        trace: &mut Trace,
    ) -> Result<Lines, NoMemory>
        requires archive { trace.old.archive.items ≡ [] }
        requires events { trace.old.events.items ≡ [] }
        requires notes { trace.old.notes.items ≡ [] }
        requires window { IsWindow (plain_setup setup).window }
        requires moment { IsMoment moment }
        ensures ok { IfOk result (λ lines. (given : Given)
            → Keeps trace.new.verdicts.kept given.verdicts
            → AnswersNames given (first_state (plain_setup setup) moment) (events_in trace.new)
            (plain_texts names.now) (plain_texts lines) (plain_texts trace.new.notes)) }
        ensures sources { SourcesOff trace.new.verdicts.kept
            (first_state (plain_setup setup) moment) (events_in trace.new)
            (seen (dev.old.disk.vtable, dev.old.disk.value))
            (seen (dev.new.disk.vtable, dev.new.disk.value)) }
        ensures archive { trace.new.archive ≡ trace.old.archive }
        ensures met { AllMet (length (letters_in trace.new)) 0 (events_in trace.new) }
    {
        let session = Session::sourced(alloc, setup, moment, dev, trace)?;
        session.core.rules.answers(alloc, names.as_slice())
    }

    // A session over a core. A call of its own, so that its proof does not have the tables of
    // default keys and settings before it.
    fn over(alloc: Global, setup: Setup, core: Core, folder: OpenFolder, moment: Moment) -> Session
        requires known { folder.known ≡ nothing_known [] Mbox false }
        requires listing { folder.listing.items ≡ [] }
        requires met { folder.met ≡ 0 }
        requires forgot { folder.forgot ≡ false }
        requires refused { folder.refused ≡ false }
        requires checked { folder.checked ≡ moment.0 }
        ensures state { (notes : Held (Held ℕ)) → notes.items ≡ [] → plain_session result notes
            ≡ state_over (plain_setup setup) (plain_core core) moment.0 }
        ensures view { result.core.desk.view ≡ core.desk.view }
    {
        Session {
            alloc,
            core,
            queue: KeyQueue::new(alloc),
            stage: Stage::Unopened,
            window: Window {
                rows: setup.rows,
                cols: setup.cols,
                offset: setup.offset,
            },
            folder,
            moment,
            named: setup.path,
            owner: setup.owner,
        }
    }

    // What a session stands on before anything happened.
    fn first(alloc: Global, setup: Setup, moment: Moment) -> Result<Session, NoMemory>
        ensures state { IfOk result (λ session. (notes : Held (Held ℕ)) → notes.items ≡ []
            → plain_session session notes ≡ first_state (plain_setup setup) moment.0) }
        ensures empty { IfOk result (λ session. IsEmpty session.core.desk.view) }
    {
        let commands = setup.commands.as_slice();
        let frames = first_frames(alloc, &setup.rc, commands, setup.kind)?;
        let core = Core::new(alloc, setup.read_only, frames)?;
        let folder = OpenFolder::none(alloc, moment.0)?;
        Ok(Session::over(alloc, setup, core, folder, moment))
    }

    // A session that has read its files of commands.
    fn sourced(
        alloc: Global,
        setup: Setup,
        moment: i64,
        dev: &mut Device,
        trace: &mut Trace,
    ) -> Result<Session, NoMemory>
        requires archive { trace.old.archive.items ≡ [] }
        requires events { trace.old.events.items ≡ [] }
        requires notes { trace.old.notes.items ≡ [] }
        requires window { IsWindow (plain_setup setup).window }
        requires moment { IsMoment moment }
        ensures sourced { IfOk result (λ session. IsSourced (first_state (plain_setup setup) moment)
            session trace.new (seen (dev.old.disk.vtable, dev.old.disk.value))
            (seen (dev.new.disk.vtable, dev.new.disk.value))) }
        ensures off { SourcesOff trace.new.verdicts.kept
            (first_state (plain_setup setup) moment) (events_in trace.new)
            (seen (dev.old.disk.vtable, dev.old.disk.value))
            (seen (dev.new.disk.vtable, dev.new.disk.value)) }
        ensures archive { trace.new.archive ≡ trace.old.archive }
    {
        let mut session = Session::first(alloc, setup, Moment(moment))?;
        session.source_all(dev, trace)?;
        Ok(session)
    }

    // Opens the folder that is wished.
    fn open_wished(
        &mut self,
        dev: &mut Device,
        drivers: &Drivers,
        moment: i64,
        trace: &mut Trace,
    ) -> Result<(), StartError>
        requires archive { trace.old.archive.items ≡ [] }
        requires moment { IsMoment moment }
        requires ready { IsUnopened self.old }
        ensures fits { OnOk result (FitsRun (letters_in trace.new) self.new) }
        ensures known { OnOk result (IsOpenIn
            (λ kind. Any (λ d. sort (d.vtable, d.value) ≡ kind) drivers.now.list.items) self.new
            trace.new (seen (dev.new.disk.vtable, dev.new.disk.value))) }
        ensures met { AreFiles (events_in trace.old)
            → AllMet (length (letters_in trace.new)) 0 (events_in trace.new) }
        ensures ok { OnOk result ((first : State) → (before : Seen) → IsSourced first self.old
            trace.old before (seen (dev.old.disk.vtable, dev.old.disk.value))
            → StartsIn (λ kind. Any (λ d. sort (d.vtable, d.value) ≡ kind) drivers.now.list.items)
            first moment self.new trace.new before
            (seen (dev.new.disk.vtable, dev.new.disk.value))) }
        ensures err { IfErr result (λ why. (first : State) → (before : Seen) → IsSourced first
            self.old trace.old before (seen (dev.old.disk.vtable, dev.old.disk.value))
            → FailsIn (λ kind. Any (λ d. sort (d.vtable, d.value) ≡ kind) drivers.now.list.items)
            first moment why trace.new before (seen (dev.new.disk.vtable, dev.new.disk.value))) }
    {
        trace.events.reserve(1)?;
        let opening = self.look(dev, drivers, moment, &mut trace.archive)?;
        let _ = trace.events.push(opening.event);
        match opening.answer {
            Ok(folder) => {
                let (verdicts, notes) = (&mut trace.verdicts, &mut trace.notes);
                self.open(folder, Moment(moment), &trace.archive, verdicts, notes)?;
                Ok(())
            }
            Err(why) => {
                self.stage = Stage::Over;
                Err(StartError::of(why))
            }
        }
    }

    // Looks for the folder that is wished, and tells what happened.
    fn look(
        &self,
        dev: &mut Device,
        drivers: &Drivers,
        moment: i64,
        archive: &mut Archive,
    ) -> Result<Opening, NoMemory>
        requires { archive.old.items ≡ [] }
        ensures ok { IfOk result (λ opening. (at : Standing)
            → at.empty ≡ new_kind self.now.core.rules.settings
            → at.owner ≡ self.now.owner.items → OpensPath
            (λ kind. Any (λ d. sort (d.vtable, d.value) ≡ kind) drivers.now.list.items)
            at
            (folder_path self.now.core.rules.settings
            (option_map (λ path. path.items) self.now.named)) moment
            (map plain_letter archive.new.items) (plain_event opening.event) opening.answer
            (seen (dev.old.disk.vtable, dev.old.disk.value))
            (seen (dev.new.disk.vtable, dev.new.disk.value))) }
        ensures err { OnErr result ((seen (dev.new.disk.vtable, dev.new.disk.value)
            ≡ seen (dev.old.disk.vtable, dev.old.disk.value)) × (archive.new ≡ archive.old)) }
    {
        let settings = self.core.rules.settings();
        let named = match &self.named {
            Some(path) => Some(path.as_slice()),
            None => None,
        };
        let path = path_in(self.alloc, settings, named)?;
        let name = Bytes::copy_of(self.alloc, path.as_slice())?;
        let empty = kind_in(settings);
        let (path, owner) = (path.as_str(), self.owner.as_slice());
        Ok(open_event(
            self.alloc, dev, drivers, owner, empty, path, name, moment, archive,
        ))
    }
}
