//! A clock for cases.

use mail_base::{Clock, MemoryClock};

/// A clock in memory that is some seconds behind, so that it can say moments before 1970.
#[derive(Drop)]
pub struct LateClock {
    pub clock: MemoryClock,
    pub behind: i64,
}

impl Clock for LateClock {
    ghost use Rattle.std.specs.Prelude.{None};

    ghost moments = { λ _. None };

    fn now(&mut self) -> i64 {
        self.clock.now().saturating_sub(self.behind)
    }
}
