//! What the variables say of checks.

ghost use Rattle.std.specs.Prelude.{◌≡◌, ◌≤ℤ◌, pos};
ghost use Rattle.session_screen.specs.Checks as spec;

use rc_lang::{Settings, Variable};

/// Whether a moment is as many seconds behind the last check as `$mail_check` says.
pub fn is_over(settings: &Settings, checked: i64, moment: i64) -> bool
    requires low { pos 0 ≤ℤ checked }
    requires high { checked ≤ℤ pos 253_000_000_000 }
    ensures { result ≡ spec.is_over settings.now checked moment }
{
    checked + settings.number(Variable::MailCheck) <= moment
}
