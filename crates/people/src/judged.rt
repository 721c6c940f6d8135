//! Verdicts on texts.

ghost use Rattle.std.specs.Prelude.{◌≡◌, ◌≤◌, true};
ghost use Rattle.people.specs.Cause.{is_caused};

use mail_base::Bytes;

/// What became of a text when it was first read.
#[derive(Clone, Copy, Debug, PartialEq, Eq)]
pub enum Verdict {
    /// It is an expression.
    Good,
    /// It is out of form, or nests too deep.
    Syntax,
    /// It is too large.
    Size,
}

/// A text that was read, with its verdict.
#[derive(Drop)]
pub struct Judged {
    pub text: Bytes,
    pub verdict: Verdict,
    /// The builder's refusals before it was read.
    pub before: u64,
    /// The same after it was read.
    pub after: u64,
    ghost cause: { is_caused verdict text.items before after ≡ true },
    ghost later: { before ≤ after },
}
