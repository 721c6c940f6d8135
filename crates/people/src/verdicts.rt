//! The verdicts on texts, and the builder that gives them.

ghost use Rattle.std.specs.Prelude.{◌≡◌, ◌++◌, ◌∷◌, [], None, Some, length, slice_get, option_map};
ghost use Rattle.std.specs.Prelude.{◌≤◌, false, IfOk, IfErr, IfSome, OnOk, OnErr};
ghost use Rattle.people.specs.Answer.{Tells};
ghost use Rattle.people.specs.Expr.{IsBuilt};
ghost use Rattle.people.specs.Expr as spec;
ghost use Rattle.std.specs.List.{All};
ghost use Rattle.people.specs.Judged.{AreDistinct, HasCause, IsCaused, Reads, judged_of};
ghost use Rattle.people.specs.Judged.{plain_judged};

use crate::answer::{Answer, ask, verdict_in};
use crate::judged::{Judged, Verdict};
use crate::{Builder, ExprError};
use mail_base::{Bytes, NoMemory, Series};
use regex::Regex;
use std::alloc::Global;
use std::marker::Model;

/// Texts with their verdicts, each text once.
#[derive(Drop)]
pub struct Kept {
    list: Series<Judged>,
}

impl Model for Kept {
    ghost use Rattle.std.specs.Prelude.{List, map};
    ghost use Rattle.people.specs.Judged.{PlainJudged, plain_judged};

    ghost Value = { List PlainJudged };

    ghost view = { λ k. map plain_judged k.list.items };

    ghost use Rattle.people.specs.Judged.{AreDistinct};

    ghost invariant = { λ k. AreDistinct (map plain_judged k.list.items) };
}

impl Kept {
    fn new(alloc: Global) -> Self
        ensures { result ≡ [] }
    {
        Kept {
            list: Series::new(alloc),
        }
    }

    fn len(&self) -> usize
        ensures { result ≡ length self.now }
    {
        self.list.len()
    }

    fn get(&self, place: usize) -> Option<&Judged>
        ensures value { option_map (λ j. plain_judged j.now) result ≡ slice_get self.now place }
        ensures distinct { AreDistinct self.now }
    {
        self.list.get(place)
    }

    // Each verdict that is kept has its cause.
    fn causes(&self)
        ensures { All IsCaused self.now }
    {
        let _ = &self.list;
    }

    // The verdict on a text, if it was judged, with its cause.
    fn verdict(&self, text: &[u8]) -> Option<Verdict>
        ensures value { result
            ≡ option_map (λ j. j.verdict) (judged_of self.now text.now) }
        ensures cause { IfSome result (HasCause text.now) }
    {
        for judged in self.list.as_slice() {
            if judged.text.as_slice() == text {
                return Some(judged.verdict);
            }
        }
        None
    }

    fn add(&mut self, judged: Judged) -> Result<(), NoMemory>
        requires { judged_of self.old judged.text.items ≡ None }
        ensures ok { OnOk result (self.new ≡ self.old ++ plain_judged judged ∷ []) }
        ensures err { OnErr result (self.new ≡ self.old) }
    {
        self.list.push(judged)
    }
}

/// The verdicts on texts, with the builder that gives them.
#[derive(Drop)]
pub struct Verdicts {
    pub kept: Kept,
    pub builder: Box<dyn Builder>,
}

impl Verdicts {
    pub fn new(alloc: Global, builder: Box<dyn Builder>) -> Self
        ensures kept { result.kept ≡ [] }
        ensures builder { result.builder ≡ builder }
    {
        Verdicts {
            kept: Kept::new(alloc),
            builder,
        }
    }

    pub fn len(&self) -> usize
        ensures { result ≡ length self.now.kept }
    {
        self.kept.len()
    }

    pub fn get(&self, place: usize) -> Option<&Judged>
        ensures value { option_map (λ j. plain_judged j.now) result
            ≡ slice_get self.now.kept place }
        ensures distinct { AreDistinct self.now.kept }
    {
        self.kept.get(place)
    }

    /// Does nothing: it stands for the law that each verdict that is kept has its cause.
    pub fn causes(&self)
        ensures { All IsCaused self.now.kept }
    {
        self.kept.causes()
    }

    /// What searches for an expression that is no literal. Its first verdict stays: where the
    /// builder refuses what was good, memory is short.
    pub(crate) fn judge(&mut self, alloc: Global, text: &str) -> Result<Regex, ExprError>
        requires { spec.is_literal text.now ≡ false }
        ensures built { IfOk result (IsBuilt (spec.is_folded text.now) text.now) }
        ensures reads { Reads text.now result self.old.kept self.new.kept
            (refused self.old.builder) (refused self.new.builder) }
    {
        match self.kept.verdict(text.as_bytes()) {
            Some(Verdict::Good) => self.build_again(alloc, text),
            Some(Verdict::Syntax) => Err(ExprError::Syntax),
            Some(Verdict::Size) => Err(ExprError::Size),
            None => self.judge_first(alloc, text),
        }
    }

    fn ask(&mut self, alloc: Global, text: &str) -> Answer
        ensures tells { Tells text.now result (refused self.old.builder)
            (refused self.new.builder) }
        ensures same { self.new.kept ≡ self.old.kept }
    {
        ask(&mut *self.builder, alloc, text)
    }

    fn build_again(&mut self, alloc: Global, text: &str) -> Result<Regex, ExprError>
        ensures built { IfOk result (IsBuilt (spec.is_folded text.now) text.now) }
        ensures only { IfErr result (λ e. e ≡ ExprError.NoMemory) }
        ensures same { self.new.kept ≡ self.old.kept }
        ensures later { refused self.old.builder ≤ refused self.new.builder }
    {
        match self.ask(alloc, text).result {
            Ok(regex) => Ok(regex),
            Err(_) => Err(ExprError::NoMemory),
        }
    }

    fn judge_first(&mut self, alloc: Global, text: &str) -> Result<Regex, ExprError>
        requires literal { spec.is_literal text.now ≡ false }
        requires first { judged_of self.old.kept text.now ≡ None }
        ensures built { IfOk result (IsBuilt (spec.is_folded text.now) text.now) }
        ensures reads { Reads text.now result self.old.kept self.new.kept
            (refused self.old.builder) (refused self.new.builder) }
    {
        let answer = self.ask(alloc, text);
        let Some(verdict) = verdict_in(&answer.result) else {
            return Err(ExprError::NoMemory);
        };
        let judged = Judged {
            text: Bytes::copy_of(alloc, text.as_bytes())?,
            verdict,
            before: answer.before,
            after: answer.after,
        };
        self.kept.add(judged)?;
        answer.result
    }
}
