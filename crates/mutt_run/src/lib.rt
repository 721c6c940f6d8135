//! A whole run of the reader: words, keys and moments come in, screens go out. Call `run`, which
//! has the theorem; `Status` is its answer, and the `Trace` of a session tells what happened.
#![tactic(auto)]

mod clock;
mod note;
mod printing;
mod reader;
mod status;
mod task;
mod told;
mod turning;

pub use reader::run;
pub use status::Status;
