//! What a case file is about.

use crate::{Answer, Case, CaseFault};
use std::alloc::Global;

/// What a case file is about: which words begin the keys of its inputs, and which call it makes of
/// them.
pub trait Subject {
    /// The first words of keys that are inputs. All other keys are what is expected.
    fn inputs(&self) -> &[&[u8]];

    /// Makes the call of a case, and puts what it answers.
    fn answer(&self, alloc: Global, case: &Case, answer: &mut Answer) -> Result<(), CaseFault>;
}
