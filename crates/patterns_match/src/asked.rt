//! What a term asks, with its expression read.

use crate::letter::{Day, Field, Mark, Number};
use crate::range::Range;
use jiff::civil::Date;
use mail_base::Bytes;
use people::Expr;

/// What is searched for.
#[derive(Drop)]
pub enum Sought {
    Plain(Bytes),
    Expression(Expr),
}

/// What a term asks.
#[derive(Drop)]
pub enum Asked {
    Tells(Mark),
    Searches(Field, Sought),
    Dated(Day, Range<Date>),
    Counts(Number, Range<u64>),
}
