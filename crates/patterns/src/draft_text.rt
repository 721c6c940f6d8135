//! Texts of patterns, read whole.

ghost use Rattle.std.specs.Prelude.{◌≡◌, ◌+◌, ◌≤◌, ◌<◌, ◌^◌, length, Ok, IfOk};
ghost use Rattle.std.specs.List.{list_any};
ghost use Rattle.patterns.specs.Dates.{days_of};
ghost use Rattle.patterns.specs.Patterns as spec;
ghost use Rattle.patterns.specs.States.{Gives, plain_state, tree_in};
ghost use Rattle.patterns.specs.Tokens.{token_at};

use crate::draft::Draft;
use crate::fault::Fault;
use crate::need::Need;
use crate::read_error::ReadError;
use crate::state::State;
use crate::token::{Leaf, read_token};
use jiff::civil::Date;
use mail_base::{NoMemory, is_blank};
use patterns_match::Field;
use std::alloc::Global;

fn begins_term(byte: u8) -> bool
    ensures { result ≡ spec.begins_term byte }
{
    byte == b'~' || byte == b'=' || byte == b'%'
}

fn has_term(text: &[u8]) -> bool
    ensures { result ≡ list_any spec.begins_term text.now }
{
    text.iter().any(|b| begins_term(*b))
}

// A text without these is searched for in From and Subject.
fn is_simple(text: &[u8]) -> bool
    ensures { result ≡ spec.is_simple text.now }
{
    !has_term(text)
}

fn simple(alloc: Global, text: &[u8]) -> Result<Draft, NoMemory>
    ensures { IfOk result (λ d. tree_in d ≡ spec.simple text.now) }
{
    let from = Need::of(alloc, &Leaf::Searches(Field::From, false, text))?;
    let subject = Need::of(alloc, &Leaf::Searches(Field::Subject, false, text))?;
    Draft::ask(alloc, from)?.or(Draft::ask(alloc, subject)?)
}

// What was read behind the token that a byte begins, and how many bytes it takes behind that.
fn step_at(
    alloc: Global,
    today: Date,
    state: State,
    place: usize,
    first: u8,
    rest: &[u8],
) -> Result<(State, usize), ReadError>
    requires within { place + 1 + length rest.now < 2 ^ 64 }
    requires place { place + 2 < 2 ^ 64 }
    requires nots { state.side.nots + 1 < 2 ^ 64 }
    ensures value { Gives (λ p. plain_state p.0) result (spec.stepped place (plain_state state)
        (token_at (days_of today) place first rest.now)) }
    ensures more { IfOk result (λ p. p.1
        ≡ spec.more_of rest.now (token_at (days_of today) place first rest.now)) }
    ensures within { IfOk result (λ p. p.1 ≤ length rest.now) }
    ensures nots { IfOk result (λ p. p.0.side.nots ≤ state.side.nots + 1) }
{
    match read_token(today, place, first, rest) {
        Ok((token, behind)) => {
            let more = rest.len().saturating_sub(behind.len());
            Ok((state.step(alloc, place, &token)?, more))
        }
        Err(fault) => Err(ReadError::Fault(fault)),
    }
}

fn read_terms(alloc: Global, today: Date, text: &[u8]) -> Result<Draft, ReadError>
    ensures { Gives tree_in result
        (spec.read_from (days_of today) 0 0 (Ok spec.at_first) text.now) }
{
    let mut state = State::new(alloc);
    let mut left = text;
    while let Some((first, rest)) = left.split_first() {
        if is_blank(*first) {
            left = rest;
        } else {
            let place = text.len() - left.len();
            let (next, more) = step_at(alloc, today, state, place, *first, rest)?;
            state = next;
            left = rest.split_at(more).1;
        }
    }
    state.end()
}

/// The pattern that a text is, where this day is today.
pub fn read_draft(alloc: Global, today: Date, text: &[u8]) -> Result<Draft, ReadError>
    ensures { Gives tree_in result (spec.pattern_of (days_of today) text.now) }
{
    if text.is_empty() {
        return Err(ReadError::Fault(Fault::Empty));
    }
    if is_simple(text) {
        return Ok(simple(alloc, text)?);
    }
    read_terms(alloc, today, text)
}
