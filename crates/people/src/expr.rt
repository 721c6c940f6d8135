//! Expressions.

ghost use Rattle.std.specs.Prelude.{◌≡◌, true, false, IsOk, IfOk, IfSome, IfNone};
ghost use Rattle.mail_base.specs.Shown.{utf8_text};
ghost use Rattle.people.specs.Expr as spec;
ghost use Rattle.people.specs.Judged.{Reads};
ghost use Rattle.regex.specs.Strings.{regex_source};

use crate::literal::{is_literal, literal_found};
use crate::{ExprError, Verdicts};
use mail_base::{Line, NoMemory, append_utf8};
use regex::Regex;
use std::alloc::Global;
use std::marker::Model;

/// What is searched for, which contracts see as its text.
#[derive(Drop)]
pub struct Expr {
    alloc: Global,
    text: Line,
    pattern: Option<Regex>,
}

impl Model for Expr {
    ghost use Rattle.std.specs.Prelude.{ℕ, List};

    ghost Value = { List ℕ };

    ghost view = { λ e. e.text.items };

    ghost use Rattle.people.specs.Inner.{IsReadable};

    ghost invariant = { IsReadable };
}

impl Expr {
    /// Reads a text, in which each malformed byte counts as a `?`.
    pub fn read(alloc: Global, text: &[u8], verdicts: &mut Verdicts) -> Result<Expr, ExprError>
        ensures value { IfOk result (λ e. e ≡ utf8_text text.now) }
        ensures reads { Reads (utf8_text text.now) result verdicts.old.kept verdicts.new.kept
            (refused verdicts.old.builder) (refused verdicts.new.builder) }
    {
        let mut line = Line::new(alloc);
        append_utf8(&mut line, text)?;
        let pattern = if is_literal(line.as_slice()) {
            None
        } else {
            Some(verdicts.judge(alloc, line.as_str())?)
        };
        Ok(Expr {
            alloc,
            text: line,
            pattern,
        })
    }

    /// The text that is searched for as it stands, where it is a literal.
    pub fn literal(&self) -> Option<&[u8]>
        ensures some { IfSome result
            (λ text. (text.now ≡ self.now) × (spec.is_literal self.now ≡ true)) }
        ensures none { IfNone result (spec.is_literal self.now ≡ false) }
    {
        match &self.pattern {
            None => Some(self.text.as_slice()),
            Some(_) => None,
        }
    }

    /// Whether it is found in the text, in which each malformed byte counts as a `?`.
    pub fn finds(&mut self, text: &[u8]) -> Result<bool, NoMemory>
        ensures value { IfOk result (λ found. found ≡ spec.finds self.old text.now) }
        ensures same { self.new ≡ self.old }
        ensures literal { spec.is_literal self.old ≡ true → IsOk result }
    {
        self.search(text)
    }

    /// The same, of an expression that is lent to be read alone.
    pub fn search(&self, text: &[u8]) -> Result<bool, NoMemory>
        ensures value { IfOk result (λ found. found ≡ spec.finds self.now text.now) }
        ensures literal { spec.is_literal self.now ≡ true → IsOk result }
    {
        match &self.pattern {
            None => Ok(literal_found(self.text.as_slice(), text)),
            Some(regex) => pattern_found_in(self.alloc, regex, text),
        }
    }
}

// Whether the pattern of a text has a match.
fn pattern_found(alloc: Global, regex: &Regex, text: &str) -> Result<bool, NoMemory>
    requires { spec.IsBuilt (spec.is_folded (regex_source regex.now)) (regex_source regex.now)
        regex.now }
    ensures { IfOk result
        (λ found. found ≡ spec.pattern_found (regex_source regex.now) text.now) }
{
    let mut matcher = regex.matcher(alloc)?;
    Ok(matcher.is_match(text))
}

// The same in bytes, which are shown as UTF-8.
fn pattern_found_in(alloc: Global, regex: &Regex, text: &[u8]) -> Result<bool, NoMemory>
    requires { spec.IsBuilt (spec.is_folded (regex_source regex.now)) (regex_source regex.now)
        regex.now }
    ensures { IfOk result
        (λ found. found ≡ spec.pattern_found (regex_source regex.now) (utf8_text text.now)) }
{
    let mut line = Line::new(alloc);
    append_utf8(&mut line, text)?;
    pattern_found(alloc, regex, line.as_str())
}
