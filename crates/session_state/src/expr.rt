//! Expressions that commands name.

ghost use Rattle.std.specs.Prelude.{List};
ghost use Rattle.patterns.specs.Causes.{Keeps};
ghost use Rattle.people.specs.Judged.{PlainJudged};
ghost use Rattle.rc_lang.specs.Settings.{Answers};
ghost use Rattle.session_state.specs.Exprs as spec;

use people::{Expr, ExprError, Verdicts};
use rc_lang::{RcError, RcFault};
use std::alloc::Global;

/// The expression that a text is; or the word in which it stands is at fault.
pub fn read_expr(
    alloc: Global,
    text: &[u8],
    word: &[u8],
    verdicts: &mut Verdicts,
) -> Result<Expr, RcError>
    requires { spec.IsLent verdicts.old.kept }
    ensures keeps { Keeps verdicts.old.kept verdicts.new.kept }
    ensures value { (later : List PlainJudged) → Keeps verdicts.new.kept later
        → Answers (λ e. e) result (spec.expr_of later text.now word.now) }
{
    match Expr::read(alloc, text, verdicts) {
        Ok(expr) => Ok(expr),
        Err(ExprError::Syntax) => Err(RcError::new(alloc, RcFault::BadExpression, word)),
        Err(ExprError::Size) => Err(RcError::new(alloc, RcFault::BadExpression, word)),
        Err(ExprError::NoMemory) => Err(RcError::no_memory(alloc)),
    }
}
