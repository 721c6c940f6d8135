//! The commands of muttrc.

ghost use Rattle.std.specs.Prelude.{◌≡◌, ◌≢◌, ◌∷◌, ◌++◌, [], Err, IfOk, OnOk, map};
ghost use Rattle.keymap.specs.Bindings.{Replace, Run};
ghost use Rattle.keymap.specs.Keymap.{IsSequence};
ghost use Rattle.mail_base.specs.Series.{plain_texts};
ghost use Rattle.session_state.specs.Commands.{alias_of as alias_in, bound_all, plain_obeyed};
ghost use Rattle.session_state.specs.Lessons.{Kept, Scored, plain_lesson};
ghost use Rattle.session_state.specs.Scoring.{keeps_of, kept_texts};
ghost use Rattle.patterns_match.specs.ScoreEntries.{held_entry};
ghost use Rattle.rc_lang.specs.Settings.{plain_names};
ghost use Rattle.rc_lang_words.specs.Faults.{no_memory, plain_error};

use crate::folder_hook::add_folder_hook;
use crate::instant::Instant;
use crate::lesson::{self, Lesson};
use crate::pattern_hook::pattern_in;
use crate::rules::Rules;
use crate::scoring;
use hook_requests::{CommandPlace, HookTable, HookWords, WeedList, add_pattern_hook, joined};
use key_requests::{BindRequest, MacroRequest, calls_of, key_text, word_at};
use keymap::{Keymap, Keys};
use mail_base::{Bytes, Line, NoMemory, Words, append_utf8};
use patterns_match::{MOST_SCORES, ScoreEntry};
use people::{PeopleTable, Verdicts};
use rc_lang::{Command, RcError, RcFault, RcWords};
use std::alloc::Global;

/// What a command answers that is carried out.
#[derive(Drop)]
pub enum Answer {
    Quiet,
    /// The file at the path is to be read.
    Source(Line),
    /// The line is to be shown where the command was typed.
    Show(Line),
}

/// What a command came to.
#[derive(Drop)]
pub enum Obeyed {
    Answered(Answer),
    Refused(RcError),
}

impl Rules {
    ghost use Rattle.std.specs.Prelude.{◌≡◌, ◌∷◌, [], Ok, drop, map, List, IfOk, OnOk};
    ghost use Rattle.mail_base.specs.Series.{plain_texts};
    ghost use Rattle.rc_lang.specs.Settings.{outcome};
    ghost use Rattle.rc_lang_words.specs.Words.{plain_words};
    ghost use Rattle.patterns.specs.Causes.{Keeps};
    ghost use Rattle.people.specs.Judged.{PlainJudged};
    ghost use Rattle.session_state.specs.Commands as spec;
    ghost use Rattle.patterns_match.specs.ScoreEntries.{held_entry};
    ghost use Rattle.session_state.specs.Exprs.{IsLent};
    ghost use Rattle.session_state.specs.FolderHooks.{with_folder_hook};
    ghost use Rattle.session_state.specs.Instants.{IsInstant};
    ghost use Rattle.session_state.specs.Lessons.{people_of, plain_lesson};
    ghost use Rattle.session_state.specs.PatternHooks.{with_pattern_hook};
    ghost use Rattle.session_state.specs.Scoring.{value_of};
    ghost use Rattle.hook_requests.specs.HookWords.{hook_words};
    ghost use Rattle.hook_requests.specs.Places.{plain_place};
    ghost use Rattle.key_requests.specs.Requests as key_spec;
    ghost use Rattle.key_requests.specs.Requests.{word_at as word_of};

    /// Runs a command by its words. The words of a `set` before a faulty one stay applied; else a
    /// command that is refused changes nothing.
    pub fn run(
        &mut self,
        time: Instant,
        place: CommandPlace<'_>,
        words: &RcWords,
        verdicts: &mut Verdicts,
    ) -> Result<Obeyed, NoMemory>
        requires { IsInstant time }
        ensures keeps { Keeps verdicts.old.kept verdicts.new.kept }
        ensures ran { IfOk result (λ obeyed. (later : List PlainJudged)
            → Keeps verdicts.new.kept later → record {
              rules = self.new;
              answer = spec.plain_obeyed obeyed;
            } ≡ spec.ran time later (plain_place place.entry) (plain_words words.now) self.old) }
    {
        match self.obey(time, place, words, verdicts) {
            Ok(answer) => Ok(Obeyed::Answered(answer)),
            Err(error) => refusal(error),
        }
    }

    #[tactic(auto, unfolding(crate::specs::Commands::ran))]
    fn obey(
        &mut self,
        time: Instant,
        place: CommandPlace<'_>,
        words: &RcWords,
        verdicts: &mut Verdicts,
    ) -> Result<Answer, RcError>
        requires { IsInstant time }
        ensures keeps { Keeps verdicts.old.kept verdicts.new.kept }
        ensures ran { (later : List PlainJudged) → Keeps verdicts.new.kept later
            → spec.IsRan result self.new
            (spec.ran time later (plain_place place.entry) (plain_words words.now) self.old) }
    {
        let command = self.settings.read_command(self.alloc, words)?;
        let texts = self.settings.expand(self.alloc, words)?;
        self.carry_out(time, place, command, &texts, verdicts)
    }

    fn carry_out(
        &mut self,
        time: Instant,
        place: CommandPlace<'_>,
        command: Command,
        words: &Words,
        verdicts: &mut Verdicts,
    ) -> Result<Answer, RcError>
        requires { IsInstant time }
        ensures keeps { Keeps verdicts.old.kept verdicts.new.kept }
        ensures ran { (later : List PlainJudged) → Keeps verdicts.new.kept later
            → spec.IsRan result self.new
            (spec.obeyed time later (plain_place place.entry) command (plain_texts words.now)
            self.old) }
    {
        match command {
            Command::Set | Command::Unset | Command::Toggle | Command::Reset => self.set(words),
            Command::Bind => self.bind(words),
            Command::Macro => self.bind_macro(words),
            Command::Push => self.push(words),
            Command::Exec => self.exec(words),
            Command::Source => self.source(words),
            Command::Lists => self.add_people(PeopleTable::Lists, words, verdicts),
            Command::Subscribe => self.add_people(PeopleTable::Subscribed, words, verdicts),
            Command::Alternates => self.add_people(PeopleTable::Mine, words, verdicts),
            Command::Alias => self.alias(words),
            Command::Score => self.score(time, words, verdicts),
            Command::Unscore => self.unscore(words),
            Command::Ignore => self.add_weeds(WeedList::Hidden, words),
            Command::Unignore => self.add_weeds(WeedList::Shown, words),
            Command::HdrOrder => self.add_weeds(WeedList::Order, words),
            Command::FolderHook => self.folder_hook(place, words, verdicts),
            Command::MessageHook => self.pattern_hook(HookTable::Messages, time, words, verdicts),
            Command::SaveHook => self.pattern_hook(HookTable::Saves, time, words, verdicts),
            _ => Ok(Answer::Quiet),
        }
    }

    fn set(&mut self, words: &Words) -> Result<Answer, RcError>
        ensures { spec.IsRan result self.new
            (spec.set_by (outcome self.old.settings (plain_texts words.now)) self.old) }
    {
        match self.settings.apply(words) {
            Ok(Some(line)) => Ok(Answer::Show(line)),
            Ok(None) => Ok(Answer::Quiet),
            Err(error) => Err(error),
        }
    }

    /// Runs a command of `set` and its kin by the texts of its words; the words before a faulty one
    /// stay applied.
    pub fn set_by(&mut self, words: &Words) -> Result<(), NoMemory>
        ensures { OnOk result (self.new ≡ record self.old {
          settings = (outcome self.old.settings (plain_texts words.now)).values;
        }) }
    {
        match self.set(words) {
            Ok(_) => Ok(()),
            Err(error) => match error.fault {
                RcFault::NoMemory => Err(NoMemory),
                _ => Ok(()),
            },
        }
    }

    fn bind(&mut self, words: &Words) -> Result<Answer, RcError>
        ensures { spec.IsRan result self.new
            (spec.bound_by (key_spec.bind_of (plain_texts words.now)) self.old) }
    {
        let request = BindRequest::read(self.alloc, words)?;
        match bind_all(&mut self.keymap, &request) {
            Ok(()) => Ok(Answer::Quiet),
            Err(NoMemory) => Err(RcError::no_memory(self.alloc)),
        }
    }

    fn bind_macro(&mut self, words: &Words) -> Result<Answer, RcError>
        ensures { spec.IsRan result self.new
            (spec.replaced_by (key_spec.macro_of (plain_texts words.now)) self.old) }
    {
        let request = MacroRequest::read(self.alloc, words)?;
        match replace_all(&mut self.keymap, &request) {
            Ok(()) => Ok(Answer::Quiet),
            Err(NoMemory) => Err(RcError::no_memory(self.alloc)),
        }
    }

    fn push(&mut self, words: &Words) -> Result<Answer, RcError>
        ensures { spec.IsRan result self.new
            (spec.put_by (key_spec.text_of (word_of (plain_texts words.now) 1)) self.old) }
    {
        let keys = key_text(self.alloc, word_at(words, 1))?;
        self.put_keys(keys)
    }

    fn exec(&mut self, words: &Words) -> Result<Answer, RcError>
        ensures { spec.IsRan result self.new
            (spec.put_by (key_spec.calls_of (drop 1 (plain_texts words.now))) self.old) }
    {
        let names = words.as_slice().get(1..).unwrap_or(&[]);
        let keys = calls_of(self.alloc, names)?;
        self.put_keys(keys)
    }

    fn put_keys(&mut self, keys: Keys) -> Result<Answer, RcError>
        ensures { spec.IsRan result self.new (spec.put_by (Ok keys.items) self.old) }
    {
        match self.put.push(keys) {
            Ok(()) => Ok(Answer::Quiet),
            Err(_) => Err(RcError::no_memory(self.alloc)),
        }
    }

    // Adds the words to a table of people.
    fn add_people(
        &mut self,
        table: PeopleTable,
        words: &Words,
        verdicts: &mut Verdicts,
    ) -> Result<Answer, RcError>
        requires { IsLent verdicts.old.kept }
        ensures keeps { Keeps verdicts.old.kept verdicts.new.kept }
        ensures ran { (later : List PlainJudged) → Keeps verdicts.new.kept later
            → spec.IsRan result self.new
            (spec.told_by (people_of later table (drop 1 (plain_texts words.now))) self.old) }
    {
        let names = words.as_slice().get(1..).unwrap_or(&[]);
        let lessons = lesson::people_of(self.alloc, table, names, verdicts)?;
        self.tell(lessons)
    }

    // Gives a name its value.
    fn alias(&mut self, words: &Words) -> Result<Answer, RcError>
        ensures { spec.IsRan result self.new
            (spec.told_by (Ok (spec.alias_of (plain_texts words.now) ∷ [])) self.old) }
    {
        match alias_of(self.alloc, words) {
            Ok(lessons) => self.tell(lessons),
            Err(NoMemory) => Err(RcError::no_memory(self.alloc)),
        }
    }

    fn tell(&mut self, lessons: Vec<Lesson>) -> Result<Answer, RcError>
        ensures { spec.IsRan result self.new
            (spec.told_by (Ok (map plain_lesson lessons.items)) self.old) }
    {
        let mut lessons = lessons;
        match self.lessons.append(&mut lessons) {
            Ok(()) => Ok(Answer::Quiet),
            Err(_) => Err(RcError::no_memory(self.alloc)),
        }
    }

    // Adds what the messages that satisfy a pattern score.
    fn score(
        &mut self,
        time: Instant,
        words: &Words,
        verdicts: &mut Verdicts,
    ) -> Result<Answer, RcError>
        requires { IsInstant time }
        ensures keeps { Keeps verdicts.old.kept verdicts.new.kept }
        ensures ran { (later : List PlainJudged) → Keeps verdicts.new.kept later
            → spec.IsRan result self.new (spec.scored_by time later
            (word_of (plain_texts words.now) 1) (word_of (plain_texts words.now) 2)
            (value_of (word_of (plain_texts words.now) 2)) self.old) }
    {
        let word = word_at(words, 2);
        match scoring::value_of(word) {
            Some(value) if self.scores.len() < MOST_SCORES => {
                let text = word_at(words, 1);
                let entry = scoring::entry_of(self.alloc, time, text, value, verdicts)?;
                self.add_entry(text, entry)
            }
            _ => Err(RcError::new(self.alloc, RcFault::BadValue, word)),
        }
    }

    fn add_entry(&mut self, text: &[u8], entry: ScoreEntry) -> Result<Answer, RcError>
        ensures { spec.IsRan result self.new
            (spec.with_entry text.now (Ok (held_entry entry)) self.old) }
    {
        match push_entry(self.alloc, &mut self.scores, &mut self.lessons, text, entry) {
            Ok(()) => Ok(Answer::Quiet),
            Err(NoMemory) => Err(RcError::no_memory(self.alloc)),
        }
    }

    // Takes away the entries of scores that the words name.
    fn unscore(&mut self, words: &Words) -> Result<Answer, RcError>
        ensures { spec.IsRan result self.new
            (spec.unscored_by (drop 1 (plain_texts words.now)) self.old) }
    {
        let names = words.as_slice().get(1..).unwrap_or(&[]);
        match keep_entries(self.alloc, &mut self.scores, &mut self.lessons, names) {
            Ok(()) => Ok(Answer::Quiet),
            Err(NoMemory) => Err(RcError::no_memory(self.alloc)),
        }
    }

    // Adds the words at the end of a list of names of fields.
    fn add_weeds(&mut self, list: WeedList, words: &Words) -> Result<Answer, RcError>
        ensures { spec.IsRan result self.new
            (spec.weeded_by list (drop 1 (plain_texts words.now)) self.old) }
    {
        let names = words.as_slice().get(1..).unwrap_or(&[]);
        match self.weeds.add(self.alloc, list, names) {
            Ok(()) => Ok(Answer::Quiet),
            Err(NoMemory) => Err(RcError::no_memory(self.alloc)),
        }
    }

    // Adds a hook for folders, which is given at a place.
    fn folder_hook(
        &mut self,
        place: CommandPlace<'_>,
        words: &Words,
        verdicts: &mut Verdicts,
    ) -> Result<Answer, RcError>
        requires { IsLent verdicts.old.kept }
        ensures keeps { Keeps verdicts.old.kept verdicts.new.kept }
        ensures ran { (later : List PlainJudged) → Keeps verdicts.new.kept later
            → spec.IsRan result self.new (spec.hooked_by (with_folder_hook later
            (plain_place place.entry) (hook_words (drop 1 (plain_texts words.now))) self.old.hooks)
            self.old) }
    {
        let names = words.as_slice().get(1..).unwrap_or(&[]);
        match add_folder_hook(self.alloc, &mut self.hooks, place, names, verdicts) {
            Ok(()) => Ok(Answer::Quiet),
            Err(error) => Err(error),
        }
    }

    // Adds a hook for messages to a list.
    fn pattern_hook(
        &mut self,
        table: HookTable,
        time: Instant,
        words: &Words,
        verdicts: &mut Verdicts,
    ) -> Result<Answer, RcError>
        requires { IsInstant time }
        ensures keeps { Keeps verdicts.old.kept verdicts.new.kept }
        ensures ran { (later : List PlainJudged) → Keeps verdicts.new.kept later
            → spec.IsRan result self.new (spec.hooked_by (with_pattern_hook time later table
            (hook_words (drop 1 (plain_texts words.now))) self.old.hooks) self.old) }
    {
        let hook = HookWords::read(words.as_slice().get(1..).unwrap_or(&[]));
        let pattern = pattern_in(self.alloc, time, hook, verdicts)?;
        match add_pattern_hook(self.alloc, &mut self.hooks, table, hook, pattern) {
            Ok(()) => Ok(Answer::Quiet),
            Err(NoMemory) => Err(RcError::no_memory(self.alloc)),
        }
    }

    fn source(&mut self, words: &Words) -> Result<Answer, RcError>
        ensures { spec.IsRan result self.new
            (spec.sourcing (word_of (plain_texts words.now) 1) self.old) }
    {
        let mut path = Line::new(self.alloc);
        match append_utf8(&mut path, word_at(words, 1)) {
            Ok(()) => Ok(Answer::Source(path)),
            Err(NoMemory) => Err(RcError::no_memory(self.alloc)),
        }
    }
}

// The name of an alias, with its value.
fn alias_of(alloc: Global, words: &Words) -> Result<Vec<Lesson>, NoMemory>
    ensures { IfOk result (λ lessons. map plain_lesson lessons.items
        ≡ alias_in (plain_texts words.now) ∷ []) }
{
    let name = Bytes::copy_of(alloc, word_at(words, 1))?;
    let value = joined(alloc, words.as_slice().get(2..).unwrap_or(&[]))?;
    let mut lessons = Vec::new(alloc);
    lessons.push(Lesson::Named(name, value))?;
    Ok(lessons)
}

// Adds an entry of scores with its text, and tells the index.
fn push_entry(
    alloc: Global,
    texts: &mut Vec<Bytes>,
    lessons: &mut Vec<Lesson>,
    text: &[u8],
    entry: ScoreEntry,
) -> Result<(), NoMemory>
    ensures texts { OnOk result
        (plain_names texts.new.items ≡ plain_names texts.old.items ++ text.now ∷ []) }
    ensures lessons { OnOk result (map plain_lesson lessons.new.items
        ≡ map plain_lesson lessons.old.items ++ Scored (held_entry entry) ∷ []) }
{
    texts.push(Bytes::copy_of(alloc, text)?)?;
    lessons.push(Lesson::Scored(entry))?;
    Ok(())
}

// Keeps the entries of scores that these words do not name, and tells the index.
fn keep_entries(
    alloc: Global,
    texts: &mut Vec<Bytes>,
    lessons: &mut Vec<Lesson>,
    names: &[Bytes],
) -> Result<(), NoMemory>
    ensures texts { OnOk result (plain_names texts.new.items
        ≡ kept_texts (plain_names names.now) (plain_names texts.old.items)) }
    ensures lessons { OnOk result (map plain_lesson lessons.new.items
        ≡ map plain_lesson lessons.old.items
        ++ Kept (keeps_of (plain_names names.now) (plain_names texts.old.items)) ∷ []) }
{
    let keeps = scoring::keeps_of(alloc, names, texts)?;
    lessons.push(Lesson::Kept(keeps))?;
    *texts = scoring::kept_texts(alloc, names, texts)?;
    Ok(())
}

// Binds the keys in all of the menus.
fn bind_all(keymap: &mut Keymap, request: &BindRequest) -> Result<(), NoMemory>
    requires { IsSequence request.now.keys.items }
    ensures { OnOk result (keymap.new ≡ bound_all request.now.menus.items
        request.now.keys.items (Run request.now.function) keymap.old) }
{
    for menu in &request.menus {
        keymap.bind(*menu, &request.keys, request.function)?;
    }
    Ok(())
}

// Binds the keys to their text in all of the menus.
fn replace_all(keymap: &mut Keymap, request: &MacroRequest) -> Result<(), NoMemory>
    requires { IsSequence request.now.keys.items }
    ensures { OnOk result (keymap.new ≡ bound_all request.now.menus.items
        request.now.keys.items (Replace request.now.text.items) keymap.old) }
{
    for menu in &request.menus {
        keymap.macro_key(*menu, &request.keys, &request.text)?;
    }
    Ok(())
}

/// A fault, unless memory ran out.
pub fn refusal(error: RcError) -> Result<Obeyed, NoMemory>
    ensures value { IfOk result (λ obeyed. plain_obeyed obeyed ≡ Err (plain_error error)) }
    ensures some { IfOk result (λ _. plain_error error ≢ no_memory) }
{
    match error.fault {
        RcFault::NoMemory => Err(NoMemory),
        _ => Ok(Obeyed::Refused(error)),
    }
}
