//! What messages are judged by.

use patterns_match::{Pattern, Scores};
use people::People;

/// What messages are judged by: the tables of people, the entries of scores, and the limit, if
/// there is one.
#[derive(Drop)]
pub struct Tables {
    pub people: People,
    pub scores: Scores,
    pub limit: Option<Pattern>,
}
