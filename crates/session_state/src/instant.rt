//! Moments.

ghost use Rattle.std.specs.Prelude.{◌≡◌, ◌≤ℤ◌, pos, neg_ℤ};
ghost use Rattle.session_state.specs.Instants.{IsInstant, IsMoment};

/// A moment, in seconds since 1970 UTC.
#[derive(Clone, Copy, Debug, PartialEq, Eq)]
pub struct Moment(pub i64);

/// A moment, in seconds since 1970 UTC, and the reader's offset from UTC, in seconds.
#[derive(Clone, Copy, Debug, PartialEq, Eq)]
pub struct Instant {
    pub seconds: i64,
    pub offset: i32,
}

impl Moment {
    /// The moment for a reader whose clock is that many seconds ahead of UTC.
    pub fn with_offset(self, offset: i32) -> Instant
        requires moment { IsMoment self.0 }
        requires west { neg_ℤ (pos 86_400) ≤ℤ offset }
        requires east { offset ≤ℤ pos 86_400 }
        ensures value { result ≡ record { seconds = self.0; offset = offset } }
        ensures is { IsInstant result }
    {
        Instant {
            seconds: self.0,
            offset,
        }
    }
}
