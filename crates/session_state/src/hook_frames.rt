//! Commands that hooks give, before the files of commands that are not at their ends.

ghost use Rattle.std.specs.Prelude.{◌≡◌, ◌++◌, List, map, IfOk, OnOk};
ghost use Rattle.hooks.specs.Hooks.{plain_command};
ghost use Rattle.patterns.specs.Causes.{Keeps};
ghost use Rattle.people.specs.Judged.{PlainJudged};
ghost use Rattle.rc_lang.specs.Settings.{plain_names};
ghost use Rattle.session_state.specs.Frames as spec;
ghost use Rattle.session_state.specs.Instants.{IsInstant};
ghost use Rattle.session_state.specs.Told.{plain_told};

use crate::frame::{Frame, Origin, prompt_frame, put_first, run_frames};
use crate::instant::Instant;
use crate::rules::Rules;
use crate::told::Told;
use hooks::HookCommand;
use mail_base::{Bytes, Line, NoMemory, append_utf8};
use people::Verdicts;
use std::alloc::Global;

// A command that a folder hook gives.
fn hook_frame(alloc: Global, hook: &HookCommand) -> Result<Frame, NoMemory>
    ensures { IfOk result
        (λ frame. spec.plain_frame frame ≡ spec.hook_frame (plain_command hook.now)) }
{
    let mut file = Line::new(alloc);
    append_utf8(&mut file, hook.file.as_slice())?;
    let mut frame = Frame::unread(alloc, file, Origin::Hook(hook.line), 0);
    frame.read(alloc, hook.command.as_slice())?;
    Ok(frame)
}

// Puts commands that folder hooks give before the files.
fn put_hooks(
    alloc: Global,
    frames: &mut Vec<Frame>,
    commands: &[HookCommand],
) -> Result<(), NoMemory>
    ensures { OnOk result (spec.plain_frames frames.new
        ≡ map spec.hook_frame (map plain_command commands.now) ++ spec.plain_frames frames.old) }
{
    let mut left = commands;
    while let Some((hook, rest)) = left.split_last() {
        put_first(frames, hook_frame(alloc, hook)?)?;
        left = rest;
    }
    Ok(())
}

// Puts commands that message hooks give before the files.
fn put_texts(alloc: Global, frames: &mut Vec<Frame>, texts: &[Bytes]) -> Result<(), NoMemory>
    ensures { OnOk result (spec.plain_frames frames.new
        ≡ map spec.prompt_frame (plain_names texts.now) ++ spec.plain_frames frames.old) }
{
    let mut left = texts;
    while let Some((text, rest)) = left.split_last() {
        put_first(frames, prompt_frame(alloc, text.as_slice())?)?;
        left = rest;
    }
    Ok(())
}

/// Runs commands that folder hooks give, in their order, up to a file that is still to be read.
pub fn run_folder_hooks(
    alloc: Global,
    rules: &mut Rules,
    time: Instant,
    verdicts: &mut Verdicts,
    frames: &mut Vec<Frame>,
    told: &mut Told,
    commands: &[HookCommand],
) -> Result<(), NoMemory>
    requires { IsInstant time }
    ensures keeps { Keeps verdicts.old.kept verdicts.new.kept }
    ensures ran { OnOk result ((later : List PlainJudged) → Keeps verdicts.new.kept later
        → spec.script_of rules.new frames.new told.new ≡ spec.hooked_script time later
        (map plain_command commands.now) (spec.plain_frames frames.old) rules.old
        (plain_told told.old)) }
{
    put_hooks(alloc, frames, commands)?;
    run_frames(alloc, rules, time, verdicts, frames, told)
}

/// Runs commands that message hooks give, in their order, as though they were typed, up to a file
/// that is still to be read.
pub fn run_message_hooks(
    alloc: Global,
    rules: &mut Rules,
    time: Instant,
    verdicts: &mut Verdicts,
    frames: &mut Vec<Frame>,
    told: &mut Told,
    commands: &[Bytes],
) -> Result<(), NoMemory>
    requires { IsInstant time }
    ensures keeps { Keeps verdicts.old.kept verdicts.new.kept }
    ensures ran { OnOk result ((later : List PlainJudged) → Keeps verdicts.new.kept later
        → spec.script_of rules.new frames.new told.new ≡ spec.displaying_script time later
        (plain_names commands.now) (spec.plain_frames frames.old) rules.old
        (plain_told told.old)) }
{
    put_texts(alloc, frames, commands)?;
    run_frames(alloc, rules, time, verdicts, frames, told)
}
