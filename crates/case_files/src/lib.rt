//! Case files: worked rows as plain text. `play` reads one, makes each case's call by a `Subject`,
//! and reports.
#![tactic(auto)]

mod answer;
mod case;
mod comparison;
mod console;
mod escape;
mod fault;
mod reading;
mod report;
mod runner;
mod subject;

pub use answer::Answer;
pub use case::{Case, Entry, read_number};
pub use console::{play_file, print_report};
pub use escape::{shown, unescaped};
pub use fault::{CaseFault, FileFault};
pub use reading::read_cases;
pub use report::Report;
pub use runner::play;
pub use subject::Subject;
