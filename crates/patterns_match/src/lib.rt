//! Patterns that are asked of messages, and scores. Implement `Table` for a listing, call `matches`
//! for whether one of its messages satisfies a pattern, `all_matches` for which of them do, and
//! `Scores::score` for what one scores.
#![tactic(auto)]

mod all;
mod asked;
mod asking;
mod asks;
mod body;
mod dates;
mod entry;
mod found;
mod kept;
mod laws;
mod letter;
mod may_score;
mod operation;
mod pattern;
mod range;
mod relation;
mod row;
mod score_entry;
mod score_error;
mod scores;
mod searched;
mod table;
mod tells;

pub use all::all_matches;
pub use asked::{Asked, Sought};
pub use asking::matches;
pub use laws::operations_answer;
pub use letter::{Day, Field, Letter, Mark, Number, read_letter};
pub use operation::{Operation, with_last};
pub use pattern::Pattern;
pub use range::Range;
pub use relation::Relation;
pub use row::Row;
pub use score_entry::ScoreEntry;
pub use score_error::ScoreError;
pub use scores::{GREATEST_SCORE, MOST_SCORES, Scores};
pub use table::Table;
