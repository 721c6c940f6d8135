//! Syncs of the open folder, the checks behind them, and all that is wished behind keys.

ghost use Rattle.std.specs.Prelude.{◌≡◌};
ghost use Rattle.session.specs.Steps.{leaves_at};

use crate::session_type::Session;
use disk_model::Device;
use folder_changes::SyncError;
use folder_core::{Archive, Changes};
use folder_drivers::Drivers;
use mail_base::NoMemory;
use people::Verdicts;
use rc_lang::Variable;
use session_events::{Event, Trace, sync_refusal_line};
use session_index::Message;
use session_screen::is_set;
use session_state::Stage;

/// What a sync came to, and whether it was taken in.
#[derive(Drop)]
pub struct Written {
    pub event: Event,
    pub taken: Result<(), NoMemory>,
}

// Whether the run is over behind a check that follows a sync.
fn leaves(stage: Stage) -> bool
    ensures { result ≡ leaves_at stage }
{
    match stage {
        Stage::Checking { leaves } => leaves,
        _ => false,
    }
}

impl Session {
    ghost use Rattle.std.specs.Prelude.{◌≡◌, ◌<◌, Any, false, IfOk, OnOk, length, map};
    ghost use Rattle.folder_letters.specs.Letters.{plain_letter};
    ghost use Rattle.index_items.specs.Changes.{AreBelow, plain_changes};
    ghost use Rattle.index_view.specs.View.{IsOf};
    ghost use Rattle.session.specs.Calls.{IsOpenIn, Works, WorksWhole, letters_in};
    ghost use Rattle.session.specs.Checking.{IsIndexShown};
    ghost use Rattle.session.specs.Core.{plain_core};
    ghost use Rattle.session.specs.Fitting.{Fits, FitsRun};
    ghost use Rattle.session.specs.Steps.{IsChecking, IsDone, IsFileless, IsSettled};
    ghost use Rattle.session.specs.Syncing.{synced_core, unsynced_core};
    ghost use Rattle.patterns.specs.Causes.{Keeps};
    ghost use Rattle.session.specs.Calls.{Becomes};
    ghost use Rattle.session.specs.Runs.{behind_check};
    ghost use Rattle.session.specs.Steps.{leaves_at};
    ghost use Rattle.session.specs.Writing.{TakesTried, TakesWrite, WritesFolder};
    ghost use Rattle.session_events.specs.Checking.{IsOpen};
    ghost use Rattle.session_events.specs.Events.{plain_event, plain_refusal};
    ghost use Rattle.session_state.specs.Frames.{plain_frames};
    ghost use Rattle.session_state.specs.declared.stage.Stage.TheVariants.{Syncing};

    // A sync was made with these changes: they stand in the index, and the last line tells of it.
    fn take_synced(
        &mut self,
        archive: &Archive,
        changes: &Changes,
        quits: bool,
    ) -> Result<(), NoMemory>
        requires is_of { IsOf (map plain_letter archive.now.items) self.old.core.desk.view }
        requires below { AreBelow (length archive.now.items) changes.now.items }
        ensures takes { OnOk result (TakesWrite (map plain_letter archive.now.items)
            (synced_core (map plain_letter archive.now.items) (plain_changes changes.now.items)
            (plain_core self.old.core)) quits self.old self.new) }
        ensures rest { self.new
            ≡ record self.old { core = self.new.core; stage = self.new.stage } }
    {
        let kind = self.core.kind;
        self.core.desk.synced(archive, kind, changes)?;
        self.core.reader.close();
        self.stage = Stage::Checking { leaves: quits };
        Ok(())
    }

    // A sync was refused, which the last line tells.
    fn take_unsynced(&mut self, archive: &Archive, why: &SyncError) -> Result<(), NoMemory>
        requires { IsOf (map plain_letter archive.now.items) self.old.core.desk.view }
        ensures takes { OnOk result (TakesWrite (map plain_letter archive.now.items)
            (unsynced_core self.old.folder.known.path (plain_refusal why.now)
            (plain_core self.old.core)) false self.old self.new) }
        ensures rest { self.new
            ≡ record self.old { core = self.new.core; stage = self.new.stage } }
    {
        let path = self.folder.known.path();
        let line = sync_refusal_line(self.alloc, path, why)?;
        self.core.desk.message = Message::Text(line);
        self.core.reader.close();
        self.stage = Stage::Checking { leaves: false };
        Ok(())
    }

    // Takes in what a sync came to, as far as memory goes.
    fn take_tried(
        &mut self,
        archive: &Archive,
        changes: &Changes,
        answer: &Result<(), SyncError>,
        quits: bool,
    ) -> Result<(), NoMemory>
        requires is_of { IsOf (map plain_letter archive.now.items) self.old.core.desk.view }
        requires below { AreBelow (length archive.now.items) changes.now.items }
        ensures takes { OnOk result (TakesTried (map plain_letter archive.now.items)
            (plain_changes changes.now.items) answer.now quits self.old self.new) }
        ensures rest { self.new
            ≡ record self.old { core = self.new.core; stage = self.new.stage } }
    {
        match answer {
            Ok(()) => self.take_synced(archive, changes, quits),
            Err(why) => self.take_unsynced(archive, why),
        }
    }

    // Writes the folder with these changes, and takes in what came of it.
    fn write(
        &mut self,
        dev: &mut Device,
        drivers: &Drivers,
        archive: &Archive,
        changes: Changes,
        quits: bool,
    ) -> Written
        requires has { Any (λ d. sort (d.vtable, d.value) ≡ self.old.folder.known.kind)
            drivers.now.list.items }
        requires open { IsOpen (map plain_letter archive.now.items)
            (seen (dev.old.disk.vtable, dev.old.disk.value)).told self.old.folder }
        requires fits { Fits (map plain_letter archive.now.items) self.old }
        requires below { AreBelow (length archive.now.items) changes.items }
        ensures { WritesFolder (λ kind. Any (λ d. sort (d.vtable, d.value) ≡ kind)
            drivers.now.list.items) (plain_changes changes.items) quits self.old self.new
            (map plain_letter archive.now.items) (plain_event result.event) result.taken
            (seen (dev.old.disk.vtable, dev.old.disk.value))
            (seen (dev.new.disk.vtable, dev.new.disk.value)) }
    {
        let purges = is_set(self.core.rules.settings(), Variable::MhPurge);
        let (alloc, owner) = (self.alloc, self.owner.as_slice());
        let folder = &mut self.folder;
        let tried = folder.sync(alloc, dev, drivers, owner, purges, archive, &changes);
        let taken = self.take_tried(archive, &changes, &tried.answer, quits);
        Written {
            event: tried.event(changes),
            taken,
        }
    }

    // Makes the sync that is wanted, puts what came of it into the trace, and takes it in. There is
    // room for one more event then.
    fn sync(
        &mut self,
        dev: &mut Device,
        drivers: &Drivers,
        purge: bool,
        quits: bool,
        trace: &mut Trace,
    ) -> Result<(), NoMemory>
        requires stage { self.old.stage ≡ Syncing purge quits }
        requires fits { FitsRun (letters_in trace.old) self.old }
        requires known { IsOpenIn (λ kind. Any (λ d. sort (d.vtable, d.value) ≡ kind)
            drivers.now.list.items) self.old trace.old
            (seen (dev.old.disk.vtable, dev.old.disk.value)) }
        ensures works { Works (λ kind. Any (λ d. sort (d.vtable, d.value) ≡ kind)
            drivers.now.list.items) self.old self.new trace.old trace.new
            (seen (dev.old.disk.vtable, dev.old.disk.value))
            (seen (dev.new.disk.vtable, dev.new.disk.value)) }
        ensures whole { OnOk result (WorksWhole self.old self.new trace.old trace.new) }
        ensures checking { OnOk result (IsChecking self.new.stage) }
        ensures index { OnOk result (IsIndexShown (plain_core self.new.core)) }
        ensures room { OnOk result (0 < trace.new.events.room) }
    {
        let kind = self.core.kind;
        let changes = self.core.desk.view.changes(self.alloc, kind, purge)?;
        trace.events.reserve(2)?;
        let written = self.write(dev, drivers, &trace.archive, changes, quits);
        let _ = trace.events.push(written.event);
        written.taken
    }

    // Checks the folder behind a sync. Then the run is over, or the keys go on.
    fn check_behind(
        &mut self,
        dev: &mut Device,
        drivers: &Drivers,
        trace: &mut Trace,
    ) -> Result<(), NoMemory>
        requires checking { IsChecking self.old.stage }
        requires index { IsIndexShown (plain_core self.old.core) }
        requires fits { FitsRun (letters_in trace.old) self.old }
        requires known { IsOpenIn (λ kind. Any (λ d. sort (d.vtable, d.value) ≡ kind)
            drivers.now.list.items) self.old trace.old
            (seen (dev.old.disk.vtable, dev.old.disk.value)) }
        requires room { 0 < trace.old.events.room }
        ensures works { Works (λ kind. Any (λ d. sort (d.vtable, d.value) ≡ kind)
            drivers.now.list.items) self.old self.new trace.old trace.new
            (seen (dev.old.disk.vtable, dev.old.disk.value))
            (seen (dev.new.disk.vtable, dev.new.disk.value)) }
        ensures whole { OnOk result (WorksWhole self.old self.new trace.old trace.new) }
        ensures settled { OnOk result
            (IsSettled self.new.stage (plain_frames self.new.core.frames)) }
    {
        let moment = self.moment.0;
        let event = self.look_again(dev, drivers, true, moment, &mut trace.archive);
        let _ = trace.events.push(event);
        self.go_on_behind(&trace.archive, &mut trace.verdicts)
    }

    // Behind a check that followed a sync the run is over, or the keys go on.
    fn go_on_behind(&mut self, archive: &Archive, verdicts: &mut Verdicts) -> Result<(), NoMemory>
        requires checking { IsChecking self.old.stage }
        requires fits { Fits (map plain_letter archive.now.items) self.old }
        ensures on { OnOk result (Becomes (map plain_letter archive.now.items) verdicts.new.kept
            (behind_check (leaves_at self.old.stage)) self.old self.new) }
        ensures fits { OnOk result (Fits (map plain_letter archive.now.items) self.new) }
        ensures settled { OnOk result
            (IsSettled self.new.stage (plain_frames self.new.core.frames)) }
        ensures window { self.new.window ≡ self.old.window }
        ensures folder { self.new.folder ≡ self.old.folder }
        ensures kept { Keeps verdicts.old.kept verdicts.new.kept }
    {
        if leaves(self.stage) {
            self.stage = Stage::Over;
            return Ok(());
        }
        self.settle(archive, verdicts)
    }

    // Makes the sync that is wanted, if one is, and checks the folder behind it. Then the keys go
    // on, or the run is over. Whether one was wanted.
    fn sync_next(
        &mut self,
        dev: &mut Device,
        drivers: &Drivers,
        trace: &mut Trace,
    ) -> Result<bool, NoMemory>
        requires fits { FitsRun (letters_in trace.old) self.old }
        requires known { IsOpenIn (λ kind. Any (λ d. sort (d.vtable, d.value) ≡ kind)
            drivers.now.list.items) self.old trace.old
            (seen (dev.old.disk.vtable, dev.old.disk.value)) }
        ensures works { Works (λ kind. Any (λ d. sort (d.vtable, d.value) ≡ kind)
            drivers.now.list.items) self.old self.new trace.old trace.new
            (seen (dev.old.disk.vtable, dev.old.disk.value))
            (seen (dev.new.disk.vtable, dev.new.disk.value)) }
        ensures whole { OnOk result (WorksWhole self.old self.new trace.old trace.new) }
        ensures settled { OnOk result (IsSettled self.old.stage (plain_frames self.old.core.frames)
            → IsSettled self.new.stage (plain_frames self.new.core.frames)) }
        ensures done { IfOk result (λ more. more ≡ false
            → IsFileless self.old.stage (plain_frames self.old.core.frames)
            → IsDone self.new.stage (plain_frames self.new.core.frames)) }
    {
        let Stage::Syncing { purge, quits } = self.stage else {
            return Ok(false);
        };
        self.sync(dev, drivers, purge, quits, trace)?;
        self.check_behind(dev, drivers, trace)?;
        Ok(true)
    }

    /// Reads all files of commands and makes all syncs that are wished, each with what it comes to,
    /// until a key is wanted or the run is over.
    pub(crate) fn work_all(
        &mut self,
        dev: &mut Device,
        drivers: &Drivers,
        trace: &mut Trace,
    ) -> Result<(), NoMemory>
        requires fits { FitsRun (letters_in trace.old) self.old }
        requires known { IsOpenIn (λ kind. Any (λ d. sort (d.vtable, d.value) ≡ kind)
            drivers.now.list.items) self.old trace.old
            (seen (dev.old.disk.vtable, dev.old.disk.value)) }
        ensures works { Works (λ kind. Any (λ d. sort (d.vtable, d.value) ≡ kind)
            drivers.now.list.items) self.old self.new trace.old trace.new
            (seen (dev.old.disk.vtable, dev.old.disk.value))
            (seen (dev.new.disk.vtable, dev.new.disk.value)) }
        ensures whole { OnOk result (WorksWhole self.old self.new trace.old trace.new) }
        ensures settled { OnOk result (IsSettled self.old.stage (plain_frames self.old.core.frames)
            → IsSettled self.new.stage (plain_frames self.new.core.frames)) }
        ensures done { OnOk result (IsDone self.new.stage (plain_frames self.new.core.frames)) }
    {
        // There are two events for each sync, and a trace has room for fewer.
        for _turn in 0..u64::MAX {
            self.source_all(dev, trace)?;
            if !self.sync_next(dev, drivers, trace)? {
                return Ok(());
            }
        }
        Err(NoMemory)
    }
}
