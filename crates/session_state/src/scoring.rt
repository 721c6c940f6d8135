//! What `score` and `unscore` ask for (Mutt's manual, "score").

ghost use Rattle.std.specs.Prelude.{◌≡◌, ◌∷◌, [], List, map, option_map, pos, IfOk};
ghost use Rattle.patterns_match.specs.Pattern.{plain_pattern};
ghost use Rattle.patterns.specs.Causes.{Keeps};
ghost use Rattle.patterns_match.specs.ScoreEntries.{held_entry};
ghost use Rattle.people.specs.Judged.{PlainJudged};
ghost use Rattle.rc_lang.specs.Settings.{Answers, plain_names};
ghost use Rattle.session_state.specs.Instants.{IsInstant};
ghost use Rattle.session_state.specs.Scoring as spec;

use crate::instant::Instant;
use crate::reading::read_at;
use mail_base::{Bytes, Line, NoMemory, append_utf8, read_decimal};
use patterns_match::{GREATEST_SCORE, Pattern, ScoreEntry, ScoreError, Scores};
use people::Verdicts;
use rc_lang::{RcError, RcFault};
use std::alloc::Global;

/// What an entry of scores counts; where `last`, it stands in place of the sum and ends it.
#[derive(Clone, Copy, Debug, PartialEq, Eq)]
pub struct ScoreValue {
    pub number: i64,
    pub last: bool,
}

fn number_of(text: &[u8]) -> Option<i64>
    ensures { result ≡ spec.number_of text.now }
{
    match text {
        [b'-', digits @ ..] => Some(-i64::from(read_decimal(digits, 0, GREATEST_SCORE)?)),
        [b'+', digits @ ..] => Some(i64::from(read_decimal(digits, 0, GREATEST_SCORE)?)),
        digits => Some(i64::from(read_decimal(digits, 0, GREATEST_SCORE)?)),
    }
}

/// The value that a word is, if it is one.
pub fn value_of(word: &[u8]) -> Option<ScoreValue>
    ensures { result ≡ spec.value_of word.now }
{
    let (last, text) = match word {
        [b'=', rest @ ..] => (true, rest),
        text => (false, text),
    };
    let number = number_of(text)?;
    Some(ScoreValue { number, last })
}

// The entry of a pattern, if it may stand in a score.
fn entry_with(
    alloc: Global,
    word: &[u8],
    pattern: Pattern,
    value: ScoreValue,
) -> Result<ScoreEntry, RcError>
    ensures { Answers held_entry result
        (spec.entry_if word.now value (Some (plain_pattern pattern))) }
{
    let mut scores = Scores::new(alloc);
    match scores.add(pattern, value.number, value.last) {
        Ok(()) => match scores.entries.pop() {
            Some(entry) => Ok(entry),
            None => Err(RcError::no_memory(alloc)),
        },
        Err(ScoreError::NotHere) => Err(RcError::new(alloc, RcFault::PatternNotHere, word)),
        Err(_) => Err(RcError::no_memory(alloc)),
    }
}

/// The entry of a word that is a pattern.
#[tactic(auto, unfolding(crate::specs::Scoring::entry_of))]
pub fn entry_of(
    alloc: Global,
    time: Instant,
    word: &[u8],
    value: ScoreValue,
    verdicts: &mut Verdicts,
) -> Result<ScoreEntry, RcError>
    requires { IsInstant time }
    ensures keeps { Keeps verdicts.old.kept verdicts.new.kept }
    ensures value { (later : List PlainJudged) → Keeps verdicts.new.kept later
        → Answers held_entry result (spec.entry_of time later word.now value) }
{
    let mut text = Line::new(alloc);
    let Ok(()) = append_utf8(&mut text, word) else {
        return Err(RcError::no_memory(alloc));
    };
    match read_at(alloc, text.as_slice(), time, verdicts) {
        Ok(Some(pattern)) => entry_with(alloc, word, pattern, value),
        Ok(None) => Err(RcError::new(alloc, RcFault::BadPattern, word)),
        Err(NoMemory) => Err(RcError::no_memory(alloc)),
    }
}

// Whether a word of `unscore` names an entry with this text, or all.
fn names(word: &[u8], text: &[u8]) -> bool
    ensures { result ≡ spec.names word.now text.now }
{
    word == b"*".as_slice() || word == text
}

fn is_kept(words: &[Bytes], text: &[u8]) -> bool
    ensures { result ≡ spec.is_kept (plain_names words.now) text.now }
{
    let mut left = words;
    while let Some((word, rest)) = left.split_first() {
        if names(word.as_slice(), text) {
            return false;
        }
        left = rest;
    }
    true
}

/// Which of the entries with these texts the words of `unscore` leave.
pub fn keeps_of(alloc: Global, words: &[Bytes], texts: &[Bytes]) -> Result<Vec<bool>, NoMemory>
    ensures { IfOk result (λ keeps. keeps.items
        ≡ spec.keeps_of (plain_names words.now) (plain_names texts.now)) }
{
    let mut keeps = Vec::new(alloc);
    let mut left = texts;
    while let Some((text, rest)) = left.split_first() {
        keeps.push(is_kept(words, text.as_slice()))?;
        left = rest;
    }
    Ok(keeps)
}

/// The texts that the words of `unscore` leave.
pub fn kept_texts(alloc: Global, words: &[Bytes], texts: &[Bytes]) -> Result<Vec<Bytes>, NoMemory>
    ensures { IfOk result (λ kept. plain_names kept.items
        ≡ spec.kept_texts (plain_names words.now) (plain_names texts.now)) }
{
    let mut kept = Vec::new(alloc);
    let mut left = texts;
    while let Some((text, rest)) = left.split_first() {
        if is_kept(words, text.as_slice()) {
            kept.push(Bytes::copy_of(alloc, text.as_slice())?)?;
        }
        left = rest;
    }
    Ok(kept)
}
