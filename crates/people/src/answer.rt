//! What a builder answers, with its counts of refusals.

ghost use Rattle.std.specs.Prelude.{◌≡◌};
ghost use Rattle.people.specs.Answer.{Tells};
ghost use Rattle.people.specs.Judged.{verdict_of};

use crate::literal::is_folded;
use crate::{Builder, ExprError, Verdict};
use regex::Regex;
use std::alloc::Global;

/// An answer of a builder, with its refusals before and after.
#[derive(Drop)]
pub struct Answer {
    pub result: Result<Regex, ExprError>,
    pub before: u64,
    pub after: u64,
}

/// The builder's answer for a text.
pub fn ask(builder: &mut dyn Builder, alloc: Global, text: &str) -> Answer
    ensures { Tells text.now result (refused builder.old) (refused builder.new) }
{
    let before = builder.refusals();
    let result = builder.build(alloc, text, is_folded(text.as_bytes()));
    let after = builder.refusals();
    Answer {
        result,
        before,
        after,
    }
}

/// The verdict that an answer is, if it is one.
pub fn verdict_in(answer: &Result<Regex, ExprError>) -> Option<Verdict>
    ensures { result ≡ verdict_of answer.now }
{
    match answer {
        Ok(_) => Some(Verdict::Good),
        Err(ExprError::Syntax) => Some(Verdict::Syntax),
        Err(ExprError::Size) => Some(Verdict::Size),
        Err(ExprError::NoMemory) => None,
    }
}
