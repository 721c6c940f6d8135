//! The texts of the letters of a format.

ghost use Rattle.std.specs.Prelude.{◌≡◌, ℕ, List, IfOk};

use mail_base::{Line, NoMemory};
use std::alloc::Global;

/// The texts of the letters of a format.
pub trait Values {
    // The text of each letter and format of a date.
    ghost texts: { Self → ℕ → List ℕ → List ℕ };

    /// The text of a letter. `inner` is the format of a date behind the letters `{` and `[`, and is
    /// empty behind all others.
    fn text(&self, alloc: Global, letter: u8, inner: &[u8]) -> Result<Line, NoMemory>
        ensures { IfOk result (λ line. line.items ≡ texts self.now letter inner.now) };
}
