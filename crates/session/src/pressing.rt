//! The keys of a session.

use crate::screen::screen_lines;
use crate::session_type::Session;
use disk_model::Device;
use folder_drivers::Drivers;
use keymap::Key;
use mail_base::{Lines, NoMemory};
use session_events::{Event, Next, Trace};
use session_screen::Place;
use session_state::Stage;
use std::alloc::Global;

impl Session {
    ghost use Rattle.std.specs.Prelude.{◌≡◌, Any, length, IfOk};
    ghost use Rattle.mail_base.specs.Series.{plain_texts};
    ghost use Rattle.session_state.specs.Instants.{IsMoment};
    ghost use Rattle.session.specs.Calls.{Presses, PressesWhole, Pushes, PushesWhole};
    ghost use Rattle.session.specs.Calls.{IsOpenIn, letters_in, state_in};
    ghost use Rattle.session.specs.Fitting.{FitsRun};
    ghost use Rattle.session.specs.Runs.{screen_in};
    ghost use Rattle.session.specs.Steps.{next_of};
    ghost use Rattle.session_state.specs.declared.stage.Stage.TheVariants.{Ready};

    /// Lets the keys act that commands have put before the first screen, reads the files of
    /// commands and makes the syncs that they come to.
    pub fn pushed(
        &mut self,
        dev: &mut Device,
        drivers: &Drivers,
        trace: &mut Trace,
    ) -> Result<Next, NoMemory>
        requires fits { FitsRun (letters_in trace.old) self.old }
        requires known { IsOpenIn (λ kind. Any (λ d. sort (d.vtable, d.value) ≡ kind)
            drivers.now.list.items) self.old trace.old
            (seen (dev.old.disk.vtable, dev.old.disk.value)) }
        ensures pushes { Pushes (λ kind. Any (λ d. sort (d.vtable, d.value) ≡ kind)
            drivers.now.list.items) self.old self.new trace.old trace.new
            (seen (dev.old.disk.vtable, dev.old.disk.value))
            (seen (dev.new.disk.vtable, dev.new.disk.value)) }
        ensures whole { IfOk result (PushesWhole self.old self.new trace.old trace.new) }
    {
        self.push_keys(&trace.archive, &mut trace.verdicts)?;
        self.work_all(dev, drivers, trace)?;
        Ok(self.next())
    }

    /// Lets a typed key act, reads the files of commands and makes the syncs that it comes to. Call
    /// `check` first.
    pub fn key(
        &mut self,
        key: Key,
        moment: i64,
        dev: &mut Device,
        drivers: &Drivers,
        trace: &mut Trace,
    ) -> Result<Next, NoMemory>
        requires ready { self.old.stage ≡ Ready }
        requires moment { IsMoment moment }
        requires fits { FitsRun (letters_in trace.old) self.old }
        requires known { IsOpenIn (λ kind. Any (λ d. sort (d.vtable, d.value) ≡ kind)
            drivers.now.list.items) self.old trace.old
            (seen (dev.old.disk.vtable, dev.old.disk.value)) }
        ensures presses { Presses (λ kind. Any (λ d. sort (d.vtable, d.value) ≡ kind)
            drivers.now.list.items) key moment self.old self.new trace.old trace.new
            (seen (dev.old.disk.vtable, dev.old.disk.value))
            (seen (dev.new.disk.vtable, dev.new.disk.value)) }
        ensures whole { IfOk result
            (PressesWhole key moment self.old self.new trace.old trace.new) }
    {
        let event = Event::pressed(key, moment);
        let verdicts = &mut trace.verdicts;
        let taken = self.take(&trace.archive, verdicts, &mut trace.notes, &event);
        trace.events.push(event)?;
        taken?;
        self.work_all(dev, drivers, trace)?;
        Ok(self.next())
    }

    fn next(&self) -> Next
        ensures { result ≡ next_of self.now.stage }
    {
        match self.stage {
            Stage::Over => Next::Quit,
            _ => Next::Go,
        }
    }

    /// The lines of the screen.
    pub fn screen(&self, alloc: Global, trace: &Trace) -> Result<Lines, NoMemory>
        requires { FitsRun (letters_in trace.now) self.now }
        ensures lines { IfOk result (λ lines. plain_texts lines
            ≡ screen_in (letters_in trace.now) (state_in self.now trace.now)) }
        ensures rows { length (screen_in (letters_in trace.now) (state_in self.now trace.now))
            ≡ self.now.window.rows }
    {
        let known = &self.folder.known;
        let place = Place {
            path: known.path().as_bytes(),
            kind: known.kind(),
        };
        screen_lines(alloc, &trace.archive, &self.core, self.window, place)
    }
}
