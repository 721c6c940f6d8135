//! The builder over the regex crate.

ghost use Rattle.std.specs.Prelude.{◌≡◌, ◌≤◌, [], IfOk, IsErrOf};
ghost use Rattle.std.specs.List.{list_any};
ghost use Rattle.std.specs.Str.{bytes_eq};
ghost use Rattle.mail_base.specs.Faults.{counted_up};
ghost use Rattle.mail_base.specs.Series.{plain_texts};
ghost use Rattle.people.specs.RegexBuild as spec;

use crate::{Builder, ExprError};
use mail_base::{Bytes, Names};
use regex::{Error, Regex, RegexBuilder};
use std::alloc::Global;
use std::marker::Model;

/// Builds expressions by the regex crate.
#[derive(Drop)]
pub struct RegexBuild {
    sizes: Names,
    refusals: u64,
}

impl Model for RegexBuild {
    ghost use Rattle.mail_base.specs.Series.{plain_texts};
    ghost use Rattle.people.specs.RegexBuild.{PlainBuild};

    ghost Value = { PlainBuild };

    ghost view = { λ b. record { sizes = plain_texts b.sizes; refusals = b.refusals } };
}

impl RegexBuild {
    /// A builder that refuses these texts for their size.
    pub fn new(sizes: Names) -> Self
        ensures { result ≡ record { sizes = plain_texts sizes; refusals = 0 } }
    {
        RegexBuild { sizes, refusals: 0 }
    }

    fn is_sized(&self, text: &str) -> bool
        ensures { result ≡ spec.is_sized self.now text.now }
    {
        is_among(self.sizes.as_slice(), text.as_bytes())
    }

    // What is answered for a text that is too large.
    fn refuse(&mut self) -> ExprError
        ensures error { result ≡ ExprError.Size }
        ensures counted { self.new ≡ record self.old { refusals = counted_up self.old.refusals } }
        ensures later { self.old.refusals ≤ self.new.refusals }
    {
        self.refusals = self.refusals.saturating_add(1);
        ExprError::Size
    }
}

fn is_among(texts: &[Bytes], text: &[u8]) -> bool
    ensures { result ≡ list_any (λ t. bytes_eq t.items text.now) texts.now }
{
    texts.iter().any(|t| t.as_slice() == text)
}

impl Builder for RegexBuild {
    ghost use Rattle.std.specs.Prelude.{◌≤◌, false, IfOk, IsErrOf};
    ghost use Rattle.mail_base.specs.Faults.{Rose};
    ghost use Rattle.people.specs.Expr.{IsBuilt, is_pattern};
    ghost use Rattle.people.specs.declared.error.ExprError.TheVariants as error;

    ghost refused = { λ b. b.refusals };

    fn refusals(&self) -> u64 {
        self.refusals
    }

    fn build(&mut self, alloc: Global, text: &str, fold: bool) -> Result<Regex, ExprError>
        ensures built { IfOk result (IsBuilt fold text.now) }
        ensures syntax { IsErrOf result error.Syntax → is_pattern fold text.now ≡ false }
        ensures size { IsErrOf result error.Size → Rose self.old.refusals self.new.refusals }
        ensures later { self.old.refusals ≤ self.new.refusals }
        ensures builds { spec.Builds fold text.now result self.old self.new }
    {
        if self.is_sized(text) {
            return Err(self.refuse());
        }
        match RegexBuilder::new(text).case_insensitive(fold).build(alloc) {
            Ok(regex) => Ok(regex),
            Err(Error::Syntax(_)) => Err(ExprError::Syntax),
            Err(Error::OutOfMemory) => Err(ExprError::NoMemory),
            Err(Error::CompiledTooBig) => Err(self.refuse()),
            Err(Error::Internal) => Err(self.refuse()),
        }
    }
}
