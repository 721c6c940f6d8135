//! The patterns of hooks for messages.

ghost use Rattle.std.specs.Prelude.{◌≡◌, List, IfOk};
ghost use Rattle.patterns.specs.Causes.{Keeps};
ghost use Rattle.patterns.specs.Hooks.{hook_pattern as read_text};
ghost use Rattle.people.specs.Judged.{PlainJudged};
ghost use Rattle.rc_lang.specs.Settings.{Answers};
ghost use Rattle.hook_requests.specs.HookWords.{plain_hook_words};
ghost use Rattle.session_state.specs.Instants.{IsInstant};
ghost use Rattle.session_state.specs.PatternHooks as spec;

use crate::instant::Instant;
use crate::reading::read_at;
use hook_requests::HookWords;
use mail_base::{Bytes, NoMemory};
use patterns::hook_pattern;
use people::Verdicts;
use rc_lang::{RcError, RcFault};
use std::alloc::Global;

// The pattern as which the text of a hook is read.
fn pattern_of(alloc: Global, hook: HookWords<'_>) -> Result<Bytes, NoMemory>
    ensures { IfOk result (λ pattern. pattern.items ≡ read_text hook.entry.text.now) }
{
    hook_pattern(alloc, hook.text)
}

/// The text of a hook that is read as a pattern at a moment; or its word is at fault.
#[tactic(auto, unfolding(crate::specs::PatternHooks::pattern_in))]
pub fn pattern_in(
    alloc: Global,
    time: Instant,
    hook: HookWords<'_>,
    verdicts: &mut Verdicts,
) -> Result<Bytes, RcError>
    requires { IsInstant time }
    ensures keeps { Keeps verdicts.old.kept verdicts.new.kept }
    ensures value { (later : List PlainJudged) → Keeps verdicts.new.kept later
        → Answers (λ pattern. pattern.items) result
        (spec.pattern_in time later (plain_hook_words hook.entry)) }
{
    let Ok(pattern) = pattern_of(alloc, hook) else {
        return Err(RcError::no_memory(alloc));
    };
    match read_at(alloc, pattern.as_slice(), time, verdicts) {
        Ok(Some(_)) => Ok(pattern),
        Ok(None) => Err(RcError::new(alloc, RcFault::BadPattern, hook.word)),
        Err(NoMemory) => Err(RcError::no_memory(alloc)),
    }
}
