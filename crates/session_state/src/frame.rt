//! Files of commands, each inside of the one that names it.

ghost use Rattle.std.specs.Prelude.{◌≡◌, ◌<◌, ◌+◌, ◌∷◌, [], List, IfOk, OnOk, MatchOption};
ghost use Rattle.hook_requests.specs.Places.{plain_place};
ghost use Rattle.patterns.specs.Causes.{Keeps};
ghost use Rattle.people.specs.Judged.{PlainJudged};
ghost use Rattle.rc_lang_words.specs.Words.{plain_line};
ghost use Rattle.session_state.specs.Commands.{plain_obeyed};
ghost use Rattle.session_state.specs.Frames as spec;
ghost use Rattle.session_state.specs.Instants.{IsInstant};
ghost use Rattle.session_state.specs.Told.{line_number as line_number_of, plain_told};

use crate::commands::{Answer, Obeyed, refusal};
use crate::instant::Instant;
use crate::rules::Rules;
use crate::told::{Told, line_number};
use disk_model::DiskError;
use hook_requests::CommandPlace;
use mail_base::{Bytes, Line, NoMemory};
use people::Verdicts;
use rc_lang::{RcError, RcFault, RcLine, RcLines, read_rc};
use std::alloc::Global;

/// How many files may be read inside of one another, the first not counted.
const MOST_NESTED: u8 = 16;

/// Where commands come from.
#[derive(Clone, Copy, Debug, PartialEq, Eq)]
pub enum Origin {
    /// The file that need not be there.
    Default,
    Named,
    /// A word of the command line.
    Typed,
    /// What was typed at the prompt `:`.
    Prompt,
    /// A file that is named there.
    Asked,
    /// A hook that was given on this line.
    Hook(u32),
}

/// A file of commands, or a command of the command line.
#[derive(Drop)]
pub struct Frame {
    pub file: Line,
    pub origin: Origin,
    pub depth: u8,
    pub is_read: bool,
    pub commands: RcLines,
    /// How many of the commands were run.
    pub next: usize,
}

impl Frame {
    ghost use Rattle.std.specs.Prelude.{◌≡◌, ◌<◌, true, List, IfOk, OnOk, IfSome};
    ghost use Rattle.patterns.specs.Causes.{Keeps};
    ghost use Rattle.people.specs.Judged.{PlainJudged};
    ghost use Rattle.rc_lang.specs.Settings.{plain_shown};
    ghost use Rattle.session_state.specs.Frames as spec;
    ghost use Rattle.session_state.specs.Instants.{IsInstant};
    ghost use Rattle.session_state.specs.Told.{plain_told};

    /// A file that is still to be read.
    pub fn unread(alloc: Global, file: Line, origin: Origin, depth: u8) -> Frame
        ensures { spec.plain_frame result ≡ spec.unread file.items origin depth }
    {
        Frame {
            file,
            origin,
            depth,
            is_read: false,
            commands: RcLines::new(alloc),
            next: 0,
        }
    }

    /// Takes the text of the file.
    pub fn read(&mut self, alloc: Global, text: &[u8]) -> Result<(), NoMemory>
        ensures { OnOk result (spec.plain_frame self.new
            ≡ spec.with_text text.now (spec.plain_frame self.old)) }
    {
        self.commands = read_rc(alloc, text)?;
        self.next = 0;
        self.is_read = true;
        Ok(())
    }

    /// Runs the commands that are left, up to one that names a file.
    pub fn run(
        &mut self,
        alloc: Global,
        rules: &mut Rules,
        time: Instant,
        verdicts: &mut Verdicts,
        told: &mut Told,
    ) -> Result<Option<Line>, NoMemory>
        requires { IsInstant time }
        ensures keeps { Keeps verdicts.old.kept verdicts.new.kept }
        ensures half { IfOk result (λ source. (later : List PlainJudged)
            → Keeps verdicts.new.kept later → record {
              rules = rules.new;
              told = plain_told told.new;
              left = spec.commands_left self.new;
              source = plain_shown source;
            } ≡ spec.file_run time later (spec.place_of self.old) (spec.commands_left self.old)
            rules.old (plain_told told.old)) }
        ensures place { spec.place_of self.new ≡ spec.place_of self.old }
        ensures read { self.new.is_read ≡ self.old.is_read }
        ensures nested { IfOk result (λ source. IfSome source (λ _. self.old.depth < 16)) }
    {
        while self.next < self.commands.len() {
            let line = &self.commands.as_slice()[self.next];
            self.next += 1;
            let place = command_place(&self.file, self.origin, line.line);
            let obeyed = run_line(alloc, rules, time, place, verdicts, line)?;
            match judge(alloc, self.depth, obeyed)? {
                Obeyed::Answered(answer) => match answer {
                    Answer::Source(path) => return Ok(Some(path)),
                    Answer::Quiet => {}
                    Answer::Show(line) => told.answer(self.origin, line),
                },
                Obeyed::Refused(error) => {
                    told.fault(alloc, self.origin, &self.file, line.line, &error)?;
                }
            }
        }
        Ok(None)
    }
}

// The place under which a command of a file stands.
fn command_place(file: &Line, origin: Origin, line: u32) -> CommandPlace<'_>
    ensures { plain_place result
        ≡ record { file = file.now.items; line = line_number_of origin line } }
{
    CommandPlace {
        file: file.as_slice(),
        line: line_number(origin, line),
    }
}

// Runs a command that stands at a place, unless it is faulty as it was read.
fn run_line(
    alloc: Global,
    rules: &mut Rules,
    time: Instant,
    place: CommandPlace<'_>,
    verdicts: &mut Verdicts,
    line: &RcLine,
) -> Result<Obeyed, NoMemory>
    requires { IsInstant time }
    ensures keeps { Keeps verdicts.old.kept verdicts.new.kept }
    ensures ran { IfOk result (λ obeyed. (later : List PlainJudged)
        → Keeps verdicts.new.kept later → record {
          rules = rules.new;
          answer = plain_obeyed obeyed;
        } ≡ spec.ran_line time later (plain_place place.entry) (plain_line line.now) rules.old) }
{
    match line.fault {
        None => rules.run(time, place, &line.words, verdicts),
        Some(fault) => refusal(RcError::new(alloc, fault, b"")),
    }
}

// Refuses a file that is nested too deep.
fn judge(alloc: Global, depth: u8, obeyed: Obeyed) -> Result<Obeyed, NoMemory>
    ensures value { IfOk result
        (λ judged. plain_obeyed judged ≡ spec.judged depth (plain_obeyed obeyed)) }
    ensures nested { IfOk result (spec.IsNested depth) }
{
    match obeyed {
        Obeyed::Answered(Answer::Source(_)) if depth >= MOST_NESTED => {
            refusal(RcError::new(alloc, RcFault::TooMuchSource, b""))
        }
        obeyed => Ok(obeyed),
    }
}

/// Runs the commands of these files, of which the first is read now, up to one that is still to be
/// read.
pub fn run_frames(
    alloc: Global,
    rules: &mut Rules,
    time: Instant,
    verdicts: &mut Verdicts,
    frames: &mut Vec<Frame>,
    told: &mut Told,
) -> Result<(), NoMemory>
    requires { IsInstant time }
    ensures keeps { Keeps verdicts.old.kept verdicts.new.kept }
    ensures ran { OnOk result ((later : List PlainJudged) → Keeps verdicts.new.kept later
        → spec.script_of rules.new frames.new told.new ≡ spec.frames_run time later
        (spec.plain_frames frames.old) rules.old (plain_told told.old)) }
{
    while let Some(mut frame) = take_first(frames) {
        if !frame.is_read {
            return put_first(frames, frame);
        }
        match frame.run(alloc, rules, time, verdicts, told)? {
            Some(path) => return put_inner(alloc, frames, frame, path),
            None => {}
        }
    }
    Ok(())
}

/// Runs the commands of a line that was typed at the prompt `:`, up to a file that is still to be
/// read.
pub fn run_typed(
    alloc: Global,
    rules: &mut Rules,
    time: Instant,
    verdicts: &mut Verdicts,
    frames: &mut Vec<Frame>,
    told: &mut Told,
    text: &[u8],
) -> Result<(), NoMemory>
    requires { IsInstant time }
    ensures keeps { Keeps verdicts.old.kept verdicts.new.kept }
    ensures ran { OnOk result ((later : List PlainJudged) → Keeps verdicts.new.kept later
        → spec.script_of rules.new frames.new told.new ≡ spec.typed_script time later text.now
        (spec.plain_frames frames.old) rules.old (plain_told told.old)) }
{
    put_first(frames, prompt_frame(alloc, text)?)?;
    run_frames(alloc, rules, time, verdicts, frames, told)
}

/// A line that is typed at the prompt `:`.
pub fn prompt_frame(alloc: Global, text: &[u8]) -> Result<Frame, NoMemory>
    ensures { IfOk result (λ frame. spec.plain_frame frame ≡ spec.prompt_frame text.now) }
{
    let mut file = Line::new(alloc);
    file.append(":")?;
    let mut frame = Frame::unread(alloc, file, Origin::Prompt, 0);
    frame.read(alloc, text)?;
    Ok(frame)
}

/// Takes the text of the first file, and runs the commands up to a file that is still to be read.
pub fn read_first(
    alloc: Global,
    rules: &mut Rules,
    time: Instant,
    verdicts: &mut Verdicts,
    frames: &mut Vec<Frame>,
    told: &mut Told,
    text: &[u8],
) -> Result<(), NoMemory>
    requires { IsInstant time }
    ensures keeps { Keeps verdicts.old.kept verdicts.new.kept }
    ensures read { OnOk result ((later : List PlainJudged) → Keeps verdicts.new.kept later
        → spec.script_of rules.new frames.new told.new ≡ spec.read_script time later text.now
        (spec.plain_frames frames.old) rules.old (plain_told told.old)) }
{
    let Some(mut frame) = take_first(frames) else {
        return Ok(());
    };
    frame.read(alloc, text)?;
    put_first(frames, frame)?;
    run_frames(alloc, rules, time, verdicts, frames, told)
}

/// Leaves the first file, which was not read, and runs the commands up to a file that is still to
/// be read.
pub fn skip_first(
    alloc: Global,
    rules: &mut Rules,
    time: Instant,
    verdicts: &mut Verdicts,
    frames: &mut Vec<Frame>,
    told: &mut Told,
    why: DiskError,
) -> Result<(), NoMemory>
    requires { IsInstant time }
    ensures keeps { Keeps verdicts.old.kept verdicts.new.kept }
    ensures skipped { OnOk result ((later : List PlainJudged) → Keeps verdicts.new.kept later
        → spec.script_of rules.new frames.new told.new ≡ spec.skip_script time later why
        (spec.plain_frames frames.old) rules.old (plain_told told.old)) }
{
    let Some(frame) = take_first(frames) else {
        return Ok(());
    };
    if !is_quiet(frame.origin, is_missing(why)) {
        let error = RcError {
            fault: read_fault(why),
            word: Bytes::new(alloc),
        };
        told.unread(alloc, frame.origin, &frame.file, &error)?;
    }
    run_frames(alloc, rules, time, verdicts, frames, told)
}

fn is_missing(why: DiskError) -> bool
    ensures { result ≡ spec.is_missing why }
{
    matches!(why, DiskError::Missing)
}

fn read_fault(why: DiskError) -> RcFault
    ensures { result ≡ spec.read_fault why }
{
    match why {
        DiskError::NoMemory => RcFault::NoMemory,
        _ => RcFault::NotRead,
    }
}

fn is_quiet(origin: Origin, is_missing: bool) -> bool
    ensures { result ≡ spec.is_quiet origin is_missing }
{
    match origin {
        Origin::Default => is_missing,
        _ => false,
    }
}

fn take_first(frames: &mut Vec<Frame>) -> Option<Frame>
    ensures { MatchOption result ((frames.old.items ≡ []) × (frames.new.items ≡ []))
        (λ frame. frames.old.items ≡ frame ∷ frames.new.items) }
{
    if frames.is_empty() {
        return None;
    }
    Some(frames.remove(0))
}

/// Puts a file before the others.
pub fn put_first(frames: &mut Vec<Frame>, frame: Frame) -> Result<(), NoMemory>
    ensures { OnOk result (frames.new.items ≡ frame ∷ frames.old.items) }
{
    frames.insert(0, frame)?;
    Ok(())
}

// Puts a file first that is still to be read, and behind it the one that names it.
fn put_inner(
    alloc: Global,
    frames: &mut Vec<Frame>,
    frame: Frame,
    path: Line,
) -> Result<(), NoMemory>
    requires { frame.depth < 16 }
    ensures { OnOk result (spec.plain_frames frames.new
        ≡ spec.unread path.items (spec.inner_origin frame.origin) (frame.depth + 1)
        ∷ spec.plain_frame frame ∷ spec.plain_frames frames.old) }
{
    let origin = inner_origin(frame.origin);
    let inner = Frame::unread(alloc, path, origin, frame.depth + 1);
    put_first(frames, frame)?;
    put_first(frames, inner)
}

// Where a file comes from that is named there.
fn inner_origin(origin: Origin) -> Origin
    ensures { result ≡ spec.inner_origin origin }
{
    match origin {
        Origin::Prompt => Origin::Asked,
        _ => Origin::Named,
    }
}
