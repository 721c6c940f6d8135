//! What was read of a pattern, with the parentheses that are open.

ghost use Rattle.std.specs.Prelude.{◌≡◌, ◌+◌, ◌≤◌, ◌<◌, ◌^◌, ◌++◌, ◌∷◌, [], IfOk};
ghost use Rattle.patterns.specs.Patterns as spec;
ghost use Rattle.patterns.specs.States.{Gives, first_place, plain_side, plain_state, tree_in};
ghost use Rattle.patterns.specs.Tokens.{Open, Close, Bar, Bang, Term, plain_leaf, plain_token};
ghost use Rattle.patterns_match.specs.Trees.{negated};

use crate::draft::Draft;
use crate::fault::Fault;
use crate::need::Need;
use crate::read_error::ReadError;
use crate::token::{Leaf, Token};
use mail_base::NoMemory;
use patterns_match::Relation;
use std::alloc::Global;

/// What was read of a pattern, or of what is in a parenthesis.
#[derive(Drop)]
pub struct Side {
    /// The alternatives before the last bar.
    pub either: Option<Draft>,
    /// The terms behind it.
    pub both: Option<Draft>,
    /// The exclamation marks behind these.
    pub nots: usize,
}

/// An open parenthesis.
#[derive(Drop)]
pub struct Opened {
    pub place: usize,
    pub relation: Option<Relation>,
    /// What was read before it.
    pub before: Side,
}

/// What was read so far.
#[derive(Drop)]
pub struct State {
    pub side: Side,
    /// The open parentheses, the last one at the end.
    pub opened: Vec<Opened>,
}

// How many parentheses may be open.
const MOST_OPEN: usize = 64;

// So many exclamation marks before a term.
fn negated(nots: usize, term: Draft) -> Result<Draft, NoMemory>
    ensures { IfOk result (λ d. tree_in d ≡ negated nots (tree_in term)) }
{
    let mut draft = term;
    for _ in 0..nots {
        draft = draft.negate()?;
    }
    Ok(draft)
}

impl Side {
    pub fn new() -> Self
        ensures { plain_side result ≡ spec.nothing_read }
    {
        Side {
            either: None,
            both: None,
            nots: 0,
        }
    }

    // A further term.
    fn with_term(self, term: Draft) -> Result<Self, NoMemory>
        ensures value { IfOk result (λ s. plain_side s
            ≡ spec.with_term (plain_side self) (tree_in term)) }
        ensures nots { IfOk result (λ s. s.nots ≡ 0) }
    {
        let Side { either, both, nots } = self;
        let term = negated(nots, term)?;
        let both = match both {
            Some(before) => before.and(term)?,
            None => term,
        };
        Ok(Side {
            either,
            both: Some(both),
            nots: 0,
        })
    }

    // What was read as one pattern.
    fn into_draft(self) -> Result<Draft, ReadError>
        ensures { Gives tree_in result (spec.tree_of (plain_side self)) }
    {
        let Side { either, both, nots } = self;
        let Some(both) = both else {
            return Err(ReadError::Fault(Fault::Empty));
        };
        if nots > 0 {
            return Err(ReadError::Fault(Fault::Empty));
        }
        match either {
            Some(before) => Ok(before.or(both)?),
            None => Ok(both),
        }
    }
}

// A parenthesis with what is in it.
fn closed(alloc: Global, relation: Option<Relation>, draft: Draft) -> Result<Draft, NoMemory>
    ensures { IfOk result (λ d. tree_in d ≡ spec.closed relation (tree_in draft)) }
{
    match relation {
        Some(relation) => draft.relate(alloc, relation),
        None => draft.group(),
    }
}

// The place of the parenthesis of a token, which stands behind the sign of a relation.
fn parenthesis_at(place: usize, relation: Option<Relation>) -> usize
    requires { place + 2 < 2 ^ 64 }
    ensures { result ≡ spec.parenthesis_at place relation }
{
    match relation {
        None => place,
        Some(Relation::Thread) => place + 1,
        Some(Relation::Parent | Relation::Child) => place + 2,
    }
}

// The parentheses with a further one.
fn with_opened(mut opened: Vec<Opened>, last: Opened) -> Result<Vec<Opened>, NoMemory>
    ensures { IfOk result (λ v. v.items ≡ opened.items ++ last ∷ []) }
{
    opened.push(last)?;
    Ok(opened)
}

// The place of the first parenthesis.
fn first_place(opened: &[Opened]) -> Option<usize>
    ensures { result ≡ first_place opened.now }
{
    match opened {
        [first, ..] => Some(first.place),
        [] => None,
    }
}

impl State {
    pub fn new(alloc: Global) -> Self
        ensures value { plain_state result ≡ spec.at_first }
        ensures nots { result.side.nots ≡ 0 }
    {
        State {
            side: Side::new(),
            opened: Vec::new(alloc),
        }
    }

    #[tactic(auto, using(crate::proofs::StateLemmas::opened_last, crate::proofs::StateLemmas::opened_length))]
    fn open(self, place: usize, relation: Option<Relation>) -> Result<Self, ReadError>
        requires { place + 2 < 2 ^ 64 }
        ensures value { Gives plain_state result
            (spec.step place (plain_state self) (Open relation)) }
        ensures nots { IfOk result (λ s. s.side.nots ≡ 0) }
    {
        if self.opened.len() >= MOST_OPEN {
            return Err(ReadError::Fault(Fault::TooDeep));
        }
        let State { side, opened } = self;
        let last = Opened {
            place: parenthesis_at(place, relation),
            relation,
            before: side,
        };
        Ok(State {
            side: Side::new(),
            opened: with_opened(opened, last)?,
        })
    }

    #[tactic(auto, using(crate::proofs::StateLemmas::opened_last))]
    fn close(self, alloc: Global, place: usize) -> Result<Self, ReadError>
        ensures value { Gives plain_state result (spec.step place (plain_state self) Close) }
        ensures nots { IfOk result (λ s. s.side.nots ≡ 0) }
    {
        let State { side, mut opened } = self;
        let Some(last) = opened.pop() else {
            return Err(ReadError::Fault(Fault::Unbalanced(place)));
        };
        let draft = closed(alloc, last.relation, side.into_draft()?)?;
        Ok(State {
            side: last.before.with_term(draft)?,
            opened,
        })
    }

    fn bar(self, place: usize) -> Result<Self, ReadError>
        ensures value { Gives plain_state result (spec.step place (plain_state self) Bar) }
        ensures nots { IfOk result (λ s. s.side.nots ≡ 0) }
    {
        let State { side, opened } = self;
        let side = Side {
            either: Some(side.into_draft()?),
            both: None,
            nots: 0,
        };
        Ok(State { side, opened })
    }

    fn bang(self, place: usize) -> Self
        requires { self.side.nots + 1 < 2 ^ 64 }
        ensures value { spec.step place (plain_state self) Bang ≡ Ok (plain_state result) }
        ensures nots { result.side.nots ≡ self.side.nots + 1 }
    {
        let State { mut side, opened } = self;
        side.nots += 1;
        State { side, opened }
    }

    fn term(self, alloc: Global, place: usize, leaf: &Leaf<'_>) -> Result<Self, ReadError>
        ensures value { Gives plain_state result
            (spec.step place (plain_state self) (Term (plain_leaf leaf.now))) }
        ensures nots { IfOk result (λ s. s.side.nots ≡ 0) }
    {
        let State { side, opened } = self;
        let term = Draft::ask(alloc, Need::of(alloc, leaf)?)?;
        Ok(State {
            side: side.with_term(term)?,
            opened,
        })
    }

    /// What was read behind a token that stands at a place.
    pub fn step(self, alloc: Global, place: usize, token: &Token<'_>) -> Result<Self, ReadError>
        requires place { place + 2 < 2 ^ 64 }
        requires nots { self.side.nots + 1 < 2 ^ 64 }
        ensures value { Gives plain_state result
            (spec.step place (plain_state self) (plain_token token.now)) }
        ensures nots { IfOk result (λ s. s.side.nots ≤ self.side.nots + 1) }
    {
        match token {
            Token::Open(relation) => self.open(place, *relation),
            Token::Close => self.close(alloc, place),
            Token::Bar => self.bar(place),
            Token::Bang => Ok(self.bang(place)),
            Token::Term(leaf) => self.term(alloc, place, leaf),
        }
    }

    /// The pattern at the end of a text.
    #[tactic(auto, using(crate::proofs::StateLemmas::ended_open, crate::proofs::StateLemmas::none_open))]
    pub fn end(self) -> Result<Draft, ReadError>
        ensures { Gives tree_in result
            (spec.ended (plain_state self).side (plain_state self).opened) }
    {
        let State { side, opened } = self;
        match first_place(&opened) {
            Some(place) => Err(ReadError::Fault(Fault::Unbalanced(place))),
            None => side.into_draft(),
        }
    }
}
