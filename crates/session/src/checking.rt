//! Checks of the folder before keys.

use crate::core_state::Core;
use crate::session_type::Session;
use disk_model::Device;
use folder_core::{Archive, Found, ScanError};
use folder_drivers::Drivers;
use keymap::Menu;
use mail_base::NoMemory;
use session_events::{Event, Marks, Trace, refusal_line};
use session_index::{Message, Notice};
use session_screen::is_over;

impl Core {
    ghost use Rattle.std.specs.Prelude.{◌≡◌, OnErr, OnOk, map};
    ghost use Rattle.folder_letters.specs.Letters.{plain_letter};
    ghost use Rattle.index_view.specs.View.{IsOf, MayTake};
    ghost use Rattle.session.specs.Checking.{found_again};
    ghost use Rattle.session.specs.Core.{Stands, plain_core};
    ghost use Rattle.session_events.specs.Events.{plain_found};

    // Takes in what a check found, which is told unless it is quiet.
    fn take_news(&mut self, archive: &Archive, found: &Found, quiet: bool) -> Result<(), NoMemory>
        requires is_of { IsOf (map plain_letter archive.now.items) self.old.desk.view }
        requires found { MayTake (map plain_letter archive.now.items)
            (plain_core self.old).desk.index.facts.items found.now }
        ensures ok { OnOk result (Stands (map plain_letter archive.now.items) (found_again quiet
            (map plain_letter archive.now.items) (plain_found found.now) (plain_core self.old))
            self.new) }
        ensures err { OnErr result (self.new ≡ self.old) }
        ensures rest { self.new ≡ record self.old { desk = self.new.desk } }
    {
        if quiet {
            return self.desk.take_quietly(archive, found);
        }
        self.desk.check_in(archive, found)
    }
}

impl Session {
    ghost use Rattle.std.specs.Prelude.{◌≡◌, ◌<◌, Any, List, map};
    ghost use Rattle.folder_letters.specs.Letters.{Mail, plain_letter};
    ghost use Rattle.index_view.specs.View.{IsOf};
    ghost use Rattle.session.specs.Calls.{Checks, IsOpenIn, KeepsGiven, letters_in};
    ghost use Rattle.session.specs.Checking as spec;
    ghost use Rattle.session.specs.Core.{plain_core};
    ghost use Rattle.session.specs.Fitting.{Fits, FitsRun};
    ghost use Rattle.session.specs.Looking.{FindsNews, LooksAgain, RefusesCheck, TakesFound};
    ghost use Rattle.session.specs.Looking.{TellsRefusal};
    ghost use Rattle.session_events.specs.Checking.{IsOpen};
    ghost use Rattle.session_events.specs.Events.{plain_event};
    ghost use Rattle.session_state.specs.Instants.{IsMoment};
    ghost use Rattle.session_state.specs.declared.stage.Stage.TheVariants.{Idle, Ready};

    /// A key was taken: empties the message line, and looks what changed in the folder where that
    /// is due. The trace has room for the event of the check and for that of the key.
    pub fn check(&mut self, dev: &mut Device, drivers: &Drivers, moment: i64, trace: &mut Trace)
        requires idle { self.old.stage ≡ Idle }
        requires moment { IsMoment moment }
        requires fits { FitsRun (letters_in trace.old) self.old }
        requires known { IsOpenIn (λ kind. Any (λ d. sort (d.vtable, d.value) ≡ kind)
            drivers.now.list.items) self.old trace.old
            (seen (dev.old.disk.vtable, dev.old.disk.value)) }
        requires room { 1 < trace.old.events.room }
        ensures checks { Checks (λ kind. Any (λ d. sort (d.vtable, d.value) ≡ kind)
            drivers.now.list.items) moment self.old self.new trace.old trace.new
            (seen (dev.old.disk.vtable, dev.old.disk.value))
            (seen (dev.new.disk.vtable, dev.new.disk.value)) }
        ensures kept { KeepsGiven trace.old trace.new }
    {
        let due = self.is_due(moment);
        self.take_key();
        if due {
            let event = self.look_again(dev, drivers, false, moment, &mut trace.archive);
            let _ = trace.events.push(event);
        }
    }

    // Whether a check is due before a key that is typed at this moment.
    fn is_due(&self, moment: i64) -> bool
        requires { IsMoment self.now.folder.checked }
        ensures { result ≡ spec.is_due self.now.folder.refused self.now.folder.checked
            (plain_core self.now.core) moment }
    {
        let core = &self.core;
        let free = match (core.reader.menu(), &core.desk.prompt) {
            (Menu::Index, None) => !core.rules.has_begun(),
            _ => false,
        };
        let over = is_over(core.rules.settings(), self.folder.checked, moment);
        free && (self.folder.refused || over)
    }

    /// Visits the folder and takes in what was found, which is told unless it is quiet; what cannot
    /// be taken in is forgotten, and met by the next scan.
    pub(crate) fn look_again(
        &mut self,
        dev: &mut Device,
        drivers: &Drivers,
        quiet: bool,
        moment: i64,
        archive: &mut Archive,
    ) -> Event
        requires moment { IsMoment moment }
        requires index { spec.IsIndexShown (plain_core self.old.core) }
        requires fits { Fits (map plain_letter archive.old.items) self.old }
        requires known { IsOpen (map plain_letter archive.old.items)
            (seen (dev.old.disk.vtable, dev.old.disk.value)).told self.old.folder }
        requires has { Any (λ d. sort (d.vtable, d.value) ≡ self.old.folder.known.kind)
            drivers.now.list.items }
        ensures { LooksAgain (λ kind. Any (λ d. sort (d.vtable, d.value) ≡ kind)
            drivers.now.list.items) quiet moment self.old self.new archive.old.items
            archive.new.items
            (plain_event result) (seen (dev.old.disk.vtable, dev.old.disk.value))
            (seen (dev.new.disk.vtable, dev.new.disk.value)) }
    {
        let (alloc, owner) = (self.alloc, self.owner.as_slice());
        let scanned = self.folder.visit(alloc, dev, drivers, owner, archive);
        let marks = scanned.marks;
        match scanned.answer {
            Ok(found) => match self.take_found(archive, found, quiet, moment) {
                Ok(found) => Event::Checked {
                    moment,
                    found,
                    marks,
                },
                Err(NoMemory) => {
                    self.folder.forget(archive);
                    self.refuse_check(ScanError::NoMemory, quiet, moment, marks)
                }
            },
            Err(why) => self.refuse_check(why, quiet, moment, marks),
        }
    }

    // Takes in what a scan found. Without memory all is as before.
    fn take_found(
        &mut self,
        archive: &Archive,
        found: Found,
        quiet: bool,
        moment: i64,
    ) -> Result<Found, NoMemory>
        requires is_of { IsOf (map plain_letter archive.now.items) self.old.core.desk.view }
        requires news { (mails : List Mail) × IsOf mails self.old.core.desk.view
            × FindsNews mails (map plain_letter archive.now.items) self.old.folder found }
        ensures { TakesFound quiet (map plain_letter archive.now.items) moment self.old self.new
            result }
    {
        let news = self.folder.news(self.alloc, archive.len(), found)?;
        self.core.take_news(archive, &news.found, quiet)?;
        self.folder.settle(news.listing, archive.len(), moment);
        Ok(news.found)
    }

    // The last line tells why a check was refused, as far as memory goes; what is told of it then.
    fn tell_refusal(&mut self, why: ScanError) -> ScanError
        ensures { TellsRefusal why result self.old self.new }
    {
        let (told, message) = match refusal_line(self.alloc, why) {
            Ok(line) => (why, Message::Text(line)),
            Err(NoMemory) => (ScanError::NoMemory, Message::Says(Notice::CheckStarved)),
        };
        self.core.desk.message = message;
        told
    }

    // A check was refused at a moment: the event tells why.
    fn refuse_check(&mut self, why: ScanError, quiet: bool, moment: i64, marks: Marks) -> Event
        ensures { RefusesCheck quiet why moment marks self.old self.new (plain_event result) }
    {
        let why = if quiet { why } else { self.tell_refusal(why) };
        if let ScanError::NoMemory = why {
            self.folder.forgot = true;
        }
        self.folder.checked = moment;
        Event::NotChecked { moment, why, marks }
    }
}
