//! What functions do to what is shown in place of the index (Mutt's manual, "The Pager").

use crate::core_state::Core;
use folder_core::Archive;
use mail_base::{Line, NoMemory};
use people::{Expr, ExprError, Verdicts};
use prompts::{Asking, Prompt};
use session_index::Notice;
use session_pager::{AttachDeed, PagerDeed, Stepped};
use session_screen::Window;

impl Core {
    ghost use Rattle.std.specs.Prelude.{◌≡◌, List, map, OnOk};
    ghost use Rattle.folder_letters.specs.Letters.{plain_letter};
    ghost use Rattle.patterns.specs.Causes.{Keeps};
    ghost use Rattle.people.specs.Judged.{PlainJudged};
    ghost use Rattle.session.specs.Acting as spec;
    ghost use Rattle.session.specs.Core.{Reads, ground_of, plain_core};
    ghost use Rattle.session.specs.Reading as reading;
    ghost use Rattle.session_screen.specs.Window.{IsWindow};

    /// What is shown is made anew, by the variables as they are now.
    pub fn refresh(&mut self, window: Window, archive: &Archive) -> Result<(), NoMemory>
        requires { IsWindow window }
        ensures core { OnOk result (plain_core self.new
            ≡ reading.refreshed (map plain_letter archive.now.items) window (plain_core self.old)) }
        ensures reads { OnOk result (Reads (map plain_letter archive.now.items) window self.new) }
        ensures view { self.new.desk.view ≡ self.old.desk.view }
    {
        let weeding = self.rules.weeding(self.desk.alloc)?;
        self.reader.refresh(archive, &weeding, window.cols)
    }

    // Tells where nothing was found.
    fn tell_found(&mut self, is_found: bool)
        ensures core { plain_core self.new ≡ reading.told_found is_found (plain_core self.old) }
        ensures rest { self.new ≡ record self.old { desk = self.new.desk } }
        ensures view { self.new.desk.view ≡ self.old.desk.view }
    {
        if !is_found {
            self.desk.say(Notice::NotFound);
        }
    }

    fn ask_search(&mut self)
        ensures core { plain_core self.new ≡ reading.asking_search (plain_core self.old) }
        ensures rest { self.new ≡ record self.old { desk = self.new.desk } }
        ensures view { self.new.desk.view ≡ self.old.desk.view }
    {
        self.desk.prompt = Some(Prompt::new(self.desk.alloc, Asking::Search));
    }

    // Goes on with the search of the pager, or asks for one.
    fn search_again(&mut self, window: Window, archive: &Archive) -> Result<(), NoMemory>
        requires { Reads (map plain_letter archive.now.items) window self.old }
        ensures core { OnOk result (plain_core self.new ≡ reading.searched_again
            (map plain_letter archive.now.items) window (plain_core self.old)) }
        ensures reads { OnOk result (Reads (map plain_letter archive.now.items) window self.new) }
        ensures view { self.new.desk.view ≡ self.old.desk.view }
    {
        match self.reader.search_again()? {
            Some(is_found) => self.tell_found(is_found),
            None => self.ask_search(),
        }
        Ok(())
    }

    /// Searches what a text says in the pager.
    pub fn search_text(
        &mut self,
        window: Window,
        archive: &Archive,
        verdicts: &mut Verdicts,
        text: &Line,
    ) -> Result<(), NoMemory>
        requires { Reads (map plain_letter archive.now.items) window self.old }
        ensures keeps { Keeps verdicts.old.kept verdicts.new.kept }
        ensures core { OnOk result ((later : List PlainJudged) → Keeps verdicts.new.kept later
            → plain_core self.new ≡ reading.expression_read later
            (map plain_letter archive.now.items) window text.now.items (plain_core self.old)) }
        ensures reads { OnOk result (Reads (map plain_letter archive.now.items) window self.new) }
        ensures view { self.new.desk.view ≡ self.old.desk.view }
    {
        match Expr::read(self.desk.alloc, text.as_slice(), verdicts) {
            Ok(expr) => {
                let is_found = self.reader.search_for(expr)?;
                self.tell_found(is_found);
                Ok(())
            }
            Err(error) => match error {
                ExprError::NoMemory => Err(NoMemory),
                _ => self.refuse("bad expression: ", text),
            },
        }
    }

    // Moves the cursor in the list of parts, or tells why it stays.
    fn step(&mut self, window: Window, archive: &Archive, down: bool)
        requires reads { Reads (map plain_letter archive.now.items) window self.old }
        ensures core { plain_core self.new ≡ spec.stepping (map plain_letter archive.now.items)
            window down (plain_core self.old) }
        ensures reads { Reads (map plain_letter archive.now.items) window self.new }
        ensures view { self.new.desk.view ≡ self.old.desk.view }
    {
        match self.reader.step(down) {
            Stepped::First => self.desk.say(Notice::OnFirst),
            Stepped::Last => self.desk.say(Notice::OnLast),
            _ => {}
        }
    }

    /// Does what is done to the pages alone.
    pub fn do_on_pages(
        &mut self,
        window: Window,
        archive: &Archive,
        deed: PagerDeed,
    ) -> Result<(), NoMemory>
        requires window { IsWindow window }
        requires reads { Reads (map plain_letter archive.now.items) window self.old }
        ensures core { OnOk result (plain_core self.new ≡ spec.page_done
            (map plain_letter archive.now.items) window deed (plain_core self.old)) }
        ensures reads { OnOk result (Reads (map plain_letter archive.now.items) window self.new) }
        ensures view { self.new.desk.view ≡ self.old.desk.view }
    {
        match deed {
            PagerDeed::Leave => self.reader.close(),
            PagerDeed::Turn(turn) => self.reader.turn(turn, window.rows as usize - 2),
            PagerDeed::AskSearch => self.ask_search(),
            PagerDeed::SearchAgain => self.search_again(window, archive)?,
            _ => self.desk.say(Notice::NotBound),
        }
        Ok(())
    }

    /// Does what a function does in the list of parts.
    pub fn do_in_list(
        &mut self,
        window: Window,
        archive: &Archive,
        deed: AttachDeed,
    ) -> Result<(), NoMemory>
        requires window { IsWindow window }
        requires reads { Reads (map plain_letter archive.now.items) window self.old }
        ensures core { OnOk result (plain_core self.new ≡ spec.attach_done
            (map plain_letter archive.now.items) window deed (plain_core self.old)) }
        ensures reads { OnOk result (Reads (map plain_letter archive.now.items) window self.new) }
        ensures view { self.new.desk.view ≡ self.old.desk.view }
    {
        match deed {
            AttachDeed::Down => self.step(window, archive, true),
            AttachDeed::Up => self.step(window, archive, false),
            AttachDeed::OpenPart => self.reader.open_part(archive, window.cols)?,
            AttachDeed::Leave => self.reader.close(),
            AttachDeed::NoDeed => self.desk.say(Notice::NotBound),
        }
        Ok(())
    }
}
