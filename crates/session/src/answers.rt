//! What answers to prompts do (Mutt's manual, "Functions").

ghost use Rattle.std.specs.Prelude.{◌≡◌};
ghost use Rattle.session.specs.Answers as spec;

use crate::core_state::Core;
use folder_core::Archive;
use keymap::Menu;
use mail_base::{Line, NoMemory};
use patterns_match::Pattern;
use people::Verdicts;
use prompts::Asking;
use session_index::{Message, Wanted, is_no_limit};
use session_screen::{Window, options_of, sort_words};
use session_state::{Instant, Moment, Told, read_at, run_typed};
use std::alloc::Global;

impl Core {
    ghost use Rattle.std.specs.Prelude.{◌≡◌, Some, List, map, OnOk};
    ghost use Rattle.folder_letters.specs.Letters.{plain_letter};
    ghost use Rattle.patterns_match.specs.Pattern.{plain_pattern};
    ghost use Rattle.index_view.specs.View.{IsOf};
    ghost use Rattle.people.specs.Judged.{PlainJudged};
    ghost use Rattle.session_index.specs.Desk.{plain_wanted};
    ghost use Rattle.session.specs.Answers as spec;
    ghost use Rattle.session.specs.Core.{IsOver, Stands, ground_of, plain_core, refused};
    ghost use Rattle.session_screen.specs.Window.{IsWindow};
    ghost use Rattle.session_state.specs.Instants.{IsInstant, IsMoment};
    ghost use Rattle.patterns.specs.Causes.{Keeps};
    ghost use Rattle.rc_lang.specs.Settings.{plain_shown};
    ghost use Rattle.session_state.specs.Frames.{typed_script};
    ghost use Rattle.session_state.specs.Told.{nothing_told};

    /// Tells what a text is not.
    pub fn refuse(&mut self, front: &str, text: &Line) -> Result<(), NoMemory>
        ensures core { OnOk result
            (plain_core self.new ≡ refused front.now text.now.items (plain_core self.old)) }
        ensures rest { self.new ≡ record self.old { desk = self.new.desk } }
        ensures view { self.new.desk.view ≡ self.old.desk.view }
    {
        let mut line = Line::new(self.desk.alloc);
        line.append(front)?;
        line.append(text.as_str())?;
        self.desk.message = Message::Text(line);
        Ok(())
    }

    // Does what a text does that is this pattern.
    fn take_pattern(
        &mut self,
        archive: &Archive,
        asking: Asking,
        text: Line,
        pattern: Pattern,
    ) -> Result<(), NoMemory>
        requires { IsOf (map plain_letter archive.now.items) self.old.desk.view }
        ensures { OnOk result (Stands (map plain_letter archive.now.items)
            (spec.pattern_answered (map plain_letter archive.now.items) asking text.items
            (Some (plain_pattern pattern)) (plain_core self.old)) self.new) }
    {
        self.desk.answer(archive, asking, pattern)?;
        if let Asking::Limit = asking {
            self.limit = Some(text);
        }
        Ok(())
    }

    // Does what a text does that is read as a pattern.
    fn read_text(
        &mut self,
        window: Window,
        moment: Moment,
        archive: &Archive,
        verdicts: &mut Verdicts,
        asking: Asking,
        text: Line,
    ) -> Result<(), NoMemory>
        requires window { IsWindow window }
        requires moment { IsMoment moment.0 }
        requires is_of { IsOf (map plain_letter archive.now.items) self.old.desk.view }
        ensures keeps { Keeps verdicts.old.kept verdicts.new.kept }
        ensures core { OnOk result ((later : List PlainJudged) → Keeps verdicts.new.kept later
            → Stands (map plain_letter archive.now.items) (spec.text_read
            (ground_of (map plain_letter archive.now.items) later window moment.0)
            asking text.items (plain_core self.old)) self.new) }
    {
        let time = moment.with_offset(window.offset);
        match read_at(self.desk.alloc, text.as_slice(), time, verdicts)? {
            Some(pattern) => self.take_pattern(archive, asking, text, pattern),
            None => self.refuse("bad pattern: ", &text),
        }
    }

    // Does what a text does that is answered in the index.
    fn do_text(
        &mut self,
        window: Window,
        moment: Moment,
        archive: &Archive,
        verdicts: &mut Verdicts,
        asking: Asking,
        text: Line,
    ) -> Result<(), NoMemory>
        requires window { IsWindow window }
        requires moment { IsMoment moment.0 }
        requires is_of { IsOf (map plain_letter archive.now.items) self.old.desk.view }
        ensures keeps { Keeps verdicts.old.kept verdicts.new.kept }
        ensures core { OnOk result ((later : List PlainJudged) → Keeps verdicts.new.kept later
            → Stands (map plain_letter archive.now.items) (spec.text_done
            (ground_of (map plain_letter archive.now.items) later window moment.0)
            asking text.items (plain_core self.old)) self.new) }
    {
        match asking {
            Asking::Limit if is_no_limit(text.as_slice()) => {
                self.desk.limit_to(archive, None)?;
                self.limit = None;
                Ok(())
            }
            Asking::Command => self.command(window, moment, archive, verdicts, &text),
            _ => self.read_text(window, moment, archive, verdicts, asking, text),
        }
    }

    // Does what a text does that is answered to a prompt.
    fn take_text(
        &mut self,
        window: Window,
        moment: Moment,
        archive: &Archive,
        verdicts: &mut Verdicts,
        asking: Asking,
        text: Line,
    ) -> Result<(), NoMemory>
        requires window { IsWindow window }
        requires moment { IsMoment moment.0 }
        requires over { IsOver (map plain_letter archive.now.items) window self.old }
        ensures keeps { Keeps verdicts.old.kept verdicts.new.kept }
        ensures core { OnOk result ((later : List PlainJudged) → Keeps verdicts.new.kept later
            → plain_core self.new ≡ spec.text_answered
            (ground_of (map plain_letter archive.now.items) later window moment.0)
            asking text.items (plain_core self.old)) }
        ensures over { OnOk result (IsOver (map plain_letter archive.now.items) window self.new) }
    {
        match (self.reader.menu(), asking) {
            (Menu::Pager, Asking::Search) => self.search_text(window, archive, verdicts, &text),
            _ => {
                self.do_text(window, moment, archive, verdicts, asking, text)?;
                self.refresh(window, archive)
            }
        }
    }

    /// The last line shows this, if anything.
    pub fn show(&mut self, shown: Option<Line>)
        ensures core { plain_core self.new
            ≡ spec.shown_on (plain_shown shown) (plain_core self.old) }
        ensures view { self.new.desk.view ≡ self.old.desk.view }
        ensures rest { self.new ≡ record self.old { desk = self.new.desk } }
    {
        if let Some(line) = shown {
            self.desk.message = Message::Text(line);
        }
    }

    // Runs the commands that were typed, up to one that names a file.
    fn run_text(
        &mut self,
        time: Instant,
        verdicts: &mut Verdicts,
        text: &Line,
    ) -> Result<(), NoMemory>
        requires { IsInstant time }
        ensures keeps { Keeps verdicts.old.kept verdicts.new.kept }
        ensures core { OnOk result ((later : List PlainJudged) → Keeps verdicts.new.kept later
            → plain_core self.new ≡ spec.ran_to (typed_script time later text.now.items
            (plain_core self.old).frames (plain_core self.old).rules nothing_told)
            (plain_core self.old)) }
        ensures view { self.new.desk.view ≡ self.old.desk.view }
    {
        let alloc = self.desk.alloc;
        let mut told = Told::new(alloc);
        let frames = &mut self.frames;
        let text = text.as_slice();
        run_typed(
            alloc,
            &mut self.rules,
            time,
            verdicts,
            frames,
            &mut told,
            text,
        )?;
        self.show(told.shown);
        Ok(())
    }

    // Does what commands do that were typed.
    fn command(
        &mut self,
        window: Window,
        moment: Moment,
        archive: &Archive,
        verdicts: &mut Verdicts,
        text: &Line,
    ) -> Result<(), NoMemory>
        requires window { IsWindow window }
        requires moment { IsMoment moment.0 }
        requires is_of { IsOf (map plain_letter archive.now.items) self.old.desk.view }
        ensures keeps { Keeps verdicts.old.kept verdicts.new.kept }
        ensures core { OnOk result ((later : List PlainJudged) → Keeps verdicts.new.kept later
            → Stands (map plain_letter archive.now.items) (spec.commanded
            (ground_of (map plain_letter archive.now.items) later window moment.0) text.now.items
            (plain_core self.old)) self.new) }
    {
        self.run_text(moment.with_offset(window.offset), verdicts, text)?;
        self.catch_up(archive)
    }

    /// The index learns what commands have told it, and stands by the variables.
    pub fn catch_up(&mut self, archive: &Archive) -> Result<(), NoMemory>
        requires { IsOf (map plain_letter archive.now.items) self.old.desk.view }
        ensures { OnOk result (Stands (map plain_letter archive.now.items)
            (spec.caught_up (map plain_letter archive.now.items) (plain_core self.old))
            self.new) }
    {
        self.learn(archive)?;
        self.tune(archive)
    }

    /// The index stands as the variables have it now.
    pub fn tune(&mut self, archive: &Archive) -> Result<(), NoMemory>
        requires { IsOf (map plain_letter archive.now.items) self.old.desk.view }
        ensures { OnOk result (Stands (map plain_letter archive.now.items)
            (spec.tuned (map plain_letter archive.now.items) (plain_core self.old)) self.new) }
    {
        let options = options_of(self.rules.settings());
        self.desk.tune(archive, options)
    }

    // Sets `$sort`.
    fn sort(&mut self, archive: &Archive, reversed: bool, key: char) -> Result<(), NoMemory>
        requires { IsOf (map plain_letter archive.now.items) self.old.desk.view }
        ensures { OnOk result (Stands (map plain_letter archive.now.items)
            (spec.sorted (map plain_letter archive.now.items) reversed key (plain_core self.old))
            self.new) }
    {
        let words = sort_words(self.desk.alloc, reversed, key)?;
        self.rules.set_by(&words)?;
        self.tune(archive)
    }

    // Does what a key does that is answered to a prompt of one key.
    fn take_choice(
        &mut self,
        window: Window,
        archive: &Archive,
        asking: Asking,
        key: char,
    ) -> Result<(), NoMemory>
        requires window { IsWindow window }
        requires is_of { IsOf (map plain_letter archive.now.items) self.old.desk.view }
        ensures { OnOk result (Stands (map plain_letter archive.now.items) (spec.choice_made
            (map plain_letter archive.now.items) window asking key (plain_core self.old))
            self.new) }
    {
        match asking {
            Asking::Sort => self.sort(archive, false, key),
            Asking::ReverseSort => self.sort(archive, true, key),
            _ => {
                let rule = self.rule(window);
                self.desk.choose(rule, archive, asking, key)
            }
        }
    }

    /// Takes up an answer to a prompt.
    pub fn heed(
        &mut self,
        window: Window,
        moment: Moment,
        archive: &Archive,
        verdicts: &mut Verdicts,
    ) -> Result<(), NoMemory>
        requires window { IsWindow window }
        requires moment { IsMoment moment.0 }
        requires over { IsOver (map plain_letter archive.now.items) window self.old }
        ensures keeps { Keeps verdicts.old.kept verdicts.new.kept }
        ensures core { OnOk result ((later : List PlainJudged) → Keeps verdicts.new.kept later
            → plain_core self.new ≡ spec.heeded
            (ground_of (map plain_letter archive.now.items) later window moment.0)
            (plain_core self.old)) }
        ensures over { OnOk result (IsOver (map plain_letter archive.now.items) window self.new) }
    {
        match self.take_wanted() {
            Wanted::ToAnswer(asking, text) => {
                self.take_text(window, moment, archive, verdicts, asking, text)
            }
            Wanted::ToChoose(asking, key) => {
                self.take_choice(window, archive, asking, key)?;
                self.refresh(window, archive)
            }
            wanted => {
                self.desk.wanted = wanted;
                Ok(())
            }
        }
    }

    /// Takes up what is wanted.
    pub fn take_wanted(&mut self) -> Wanted
        ensures wanted { plain_wanted result ≡ (plain_core self.old).desk.wanted }
        ensures core { plain_core self.new ≡ spec.granted (plain_core self.old) }
        ensures view { self.new.desk.view ≡ self.old.desk.view }
        ensures rest { self.new ≡ record self.old { desk = self.new.desk } }
    {
        std::mem::replace(&mut self.desk.wanted, Wanted::Unasked)
    }
}
