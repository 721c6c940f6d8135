//! Patterns that are read at a moment.

ghost use Rattle.std.specs.Prelude.{◌≡◌, List, option_map, IfOk};
ghost use Rattle.patterns_match.specs.Pattern.{plain_pattern};
ghost use Rattle.patterns.specs.Causes.{Keeps};
ghost use Rattle.people.specs.Judged.{PlainJudged};
ghost use Rattle.session_state.specs.Days as spec;
ghost use Rattle.session_state.specs.Instants.{IsInstant};

use crate::instant::Instant;
use index_rows::clocks_say_their_parts;
use mail_base::NoMemory;
use patterns::{PatternError, read_pattern};
use patterns_match::Pattern;
use people::Verdicts;
use std::alloc::Global;

// Whether memory is in the way of a pattern.
fn is_memory(error: PatternError) -> bool
    ensures { result ≡ spec.is_memory error }
{
    matches!(error, PatternError::NoMemory)
}

/// The pattern that a text is at a moment, if it is one.
pub fn read_at(
    alloc: Global,
    text: &[u8],
    time: Instant,
    verdicts: &mut Verdicts,
) -> Result<Option<Pattern>, NoMemory>
    requires { IsInstant time }
    ensures keeps { Keeps verdicts.old.kept verdicts.new.kept }
    ensures read { IfOk result (λ pattern. (later : List PlainJudged)
        → Keeps verdicts.new.kept later
        → option_map plain_pattern pattern ≡ spec.reading_of later time text.now) }
{
    clocks_say_their_parts();
    match read_pattern(alloc, text, time.seconds, time.offset, verdicts) {
        Ok(pattern) => Ok(Some(pattern)),
        Err(error) if is_memory(error) => Err(NoMemory),
        Err(_) => Ok(None),
    }
}
