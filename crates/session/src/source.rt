//! The files of commands of a session.

use crate::session_type::Session;
use disk_model::Device;
use mail_base::{Bytes, NoMemory};
use session_events::{Event, Trace, source_event};

impl Session {
    ghost use Rattle.std.specs.Prelude.{◌≡◌, ℕ, ℤ, false, IfOk, IfSome, MatchOption, OnOk};
    ghost use Rattle.mail_base.specs.Series.{Held};
    ghost use Rattle.session.specs.Calls.{Reads, ReadsWhole, letters_in};
    ghost use Rattle.session.specs.Fitting.{FitsRun};
    ghost use Rattle.session.specs.Runs.{plain_session, wish};
    ghost use Rattle.session_events.specs.Wishes.{answered};
    ghost use Rattle.session_events.specs.Events.{plain_event};
    ghost use Rattle.session.specs.Steps.{IsFileless};
    ghost use Rattle.session.specs.Telling.{OnNoFile};
    ghost use Rattle.session_events.specs.Telling.{TellsFile};
    ghost use Rattle.session_state.specs.Frames.{plain_frames};

    /// Reads the file of commands that is wished, if there is one, and tells what happened.
    pub(crate) fn source(&self, dev: &mut Device) -> Result<Option<Event>, NoMemory>
        ensures ok { IfOk result (λ sourced. MatchOption sourced
            (IsFileless self.now.stage (plain_frames self.now.core.frames))
            (λ event. TellsFile (plain_event event) (seen (dev.old.disk.vtable, dev.old.disk.value))
            (seen (dev.new.disk.vtable, dev.new.disk.value)))) }
        ensures wish { IfOk result (λ sourced. IfSome sourced (λ event. (notes : Held (Held ℕ))
            → (moment : ℤ) → wish (plain_session self.now notes) moment
            ≡ answered (plain_event event))) }
        ensures still { OnNoFile result (seen (dev.old.disk.vtable, dev.old.disk.value))
            (seen (dev.new.disk.vtable, dev.new.disk.value)) }
    {
        let Some(file) = self.wished_file() else {
            return Ok(None);
        };
        let name = Bytes::copy_of(self.alloc, file.as_slice())?;
        Ok(Some(source_event(self.alloc, dev, file.as_str(), name)))
    }

    /// Reads all files of commands that are wished, each with those that it names.
    pub(crate) fn source_all(&mut self, dev: &mut Device, trace: &mut Trace) -> Result<(), NoMemory>
        requires { FitsRun (letters_in trace.old) self.old }
        ensures reads { Reads self.old self.new trace.old trace.new
            (seen (dev.old.disk.vtable, dev.old.disk.value))
            (seen (dev.new.disk.vtable, dev.new.disk.value)) }
        ensures whole { OnOk result (ReadsWhole self.old self.new trace.old trace.new) }
        ensures read { OnOk result
            (IsFileless self.new.stage (plain_frames self.new.core.frames)) }
    {
        // There is an event for each file, and a trace has room for fewer.
        for _turn in 0..u64::MAX {
            if !self.source_next(dev, trace)? {
                return Ok(());
            }
        }
        Err(NoMemory)
    }

    // Reads the file of commands that is wished and takes it in, if there is one.
    fn source_next(&mut self, dev: &mut Device, trace: &mut Trace) -> Result<bool, NoMemory>
        requires { FitsRun (letters_in trace.old) self.old }
        ensures reads { Reads self.old self.new trace.old trace.new
            (seen (dev.old.disk.vtable, dev.old.disk.value))
            (seen (dev.new.disk.vtable, dev.new.disk.value)) }
        ensures whole { OnOk result (ReadsWhole self.old self.new trace.old trace.new) }
        ensures read { IfOk result (λ more. more ≡ false
            → IsFileless self.new.stage (plain_frames self.new.core.frames)) }
    {
        trace.events.reserve(1)?;
        match self.source(dev)? {
            None => Ok(false),
            Some(event) => {
                self.happen(event, trace)?;
                Ok(true)
            }
        }
    }
}
