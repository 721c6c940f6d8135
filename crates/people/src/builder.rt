//! What builds expressions.

ghost use Rattle.std.specs.Prelude.{◌≡◌, ◌≤◌, ℕ, false, IfOk, IsErrOf};
ghost use Rattle.mail_base.specs.Faults.{Rose};
ghost use Rattle.people.specs.Expr.{IsBuilt, is_pattern};
ghost use Rattle.people.specs.declared.error.ExprError.TheVariants as error;

use crate::ExprError;
use regex::Regex;
use std::alloc::Global;

/// Builds expressions, and counts those that it refuses for another cause than their form or want
/// of memory.
pub trait Builder: Drop {
    /// How many it has refused so.
    ghost refused: { Self → ℕ };

    fn refusals(&self) -> u64
        ensures { result ≡ refused self.now };

    /// What searches for the expression, without regard to case where `fold` is set.
    fn build(&mut self, alloc: Global, text: &str, fold: bool) -> Result<Regex, ExprError>
        ensures built { IfOk result (IsBuilt fold text.now) }
        ensures syntax { IsErrOf result error.Syntax → is_pattern fold text.now ≡ false }
        ensures size { IsErrOf result error.Size → Rose (refused self.old) (refused self.new) }
        ensures later { refused self.old ≤ refused self.new };
}
