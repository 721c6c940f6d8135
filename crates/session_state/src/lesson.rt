//! What commands tell the index.

ghost use Rattle.std.specs.Prelude.{◌∷◌, [], List, map};
ghost use Rattle.patterns.specs.Causes.{Keeps};
ghost use Rattle.people.specs.Judged.{PlainJudged};
ghost use Rattle.rc_lang.specs.Settings.{Answers, plain_names};
ghost use Rattle.session_state.specs.Exprs.{IsLent};
ghost use Rattle.session_state.specs.Lessons as spec;

use crate::expr::read_expr;
use mail_base::Bytes;
use patterns_match::ScoreEntry;
use people::{Expr, PeopleTable, Verdicts};
use rc_lang::RcError;
use std::alloc::Global;

/// What a command tells the index.
#[derive(Drop)]
pub enum Lesson {
    /// An expression belongs to a table of people.
    Person(PeopleTable, Expr),
    /// A name stands for a value.
    Named(Bytes, Bytes),
    /// There is one more entry of scores.
    Scored(ScoreEntry),
    /// Of the entries of scores these are kept.
    Kept(Vec<bool>),
}

// A word that is an expression, for a table.
fn person_of(
    alloc: Global,
    table: PeopleTable,
    word: &[u8],
    verdicts: &mut Verdicts,
) -> Result<Lesson, RcError>
    requires { IsLent verdicts.old.kept }
    ensures keeps { Keeps verdicts.old.kept verdicts.new.kept }
    ensures value { (later : List PlainJudged) → Keeps verdicts.new.kept later
        → Answers (λ l. spec.plain_lesson l ∷ []) result (spec.person_of later table word.now) }
{
    let expr = read_expr(alloc, word, word, verdicts)?;
    Ok(Lesson::Person(table, expr))
}

/// The expressions of these words, for a table of people.
pub fn people_of(
    alloc: Global,
    table: PeopleTable,
    words: &[Bytes],
    verdicts: &mut Verdicts,
) -> Result<Vec<Lesson>, RcError>
    requires { IsLent verdicts.old.kept }
    ensures keeps { Keeps verdicts.old.kept verdicts.new.kept }
    ensures value { (later : List PlainJudged) → Keeps verdicts.new.kept later
        → Answers (λ lessons. map spec.plain_lesson lessons.items) result
        (spec.people_of later table (plain_names words.now)) }
{
    let mut lessons = Vec::new(alloc);
    let mut left = words;
    while let Some((word, rest)) = left.split_first() {
        let lesson = person_of(alloc, table, word.as_slice(), verdicts)?;
        let Ok(()) = lessons.push(lesson) else {
            return Err(RcError::no_memory(alloc));
        };
        left = rest;
    }
    Ok(lessons)
}
