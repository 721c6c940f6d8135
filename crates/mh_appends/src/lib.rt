//! Adding a message to an MH folder, so that a stop at any disk call costs no message, and taking
//! away what a call that was stopped left over (mh-mail(5), mh-sequence(5)).
#![tactic(auto)]

mod appending;
mod leftovers;
mod number;
mod places;
mod put;
mod recovering;
mod replacing;

pub use appending::append;
pub use recovering::recover;
