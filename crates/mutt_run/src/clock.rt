//! The moments of a run.

ghost use Rattle.std.specs.Prelude.{◌∷◌, [], ◌≤ℤ◌, pos};
ghost use Rattle.mutt_run.specs.Taken.{Gives};

use mail_base::{Clock, LAST_MOMENT};

/// The clock's moment, brought into range.
pub fn now<C: Clock>(clock: &mut C) -> i64
    ensures gives { Gives (C.moments clock.old) (C.moments clock.new) (result ∷ []) }
    ensures range { (pos 0 ≤ℤ result) × (result ≤ℤ pos 253_000_000_000) }
{
    clock.now().clamp(0, LAST_MOMENT)
}
