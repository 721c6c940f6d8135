//! Expressions that are searched for, which of them were refused, and the tables of people: mailing
//! lists, one's own addresses, and aliases. Make a `Verdicts` of a boxed `RegexBuild`, read each
//! expression by `Expr::read`, put it into `People`, and ask `is_in` or `to_char`.
#![tactic(auto)]

mod answer;
mod builder;
mod error;
mod expr;
mod judged;
mod literal;
mod people;
mod regex_build;
mod verdicts;

pub use builder::Builder;
pub use error::ExprError;
pub use expr::Expr;
pub use judged::{Judged, Verdict};
pub use literal::literal_found;
pub use people::{People, PeopleTable};
pub use regex_build::RegexBuild;
pub use verdicts::{Kept, Verdicts};
