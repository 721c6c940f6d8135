//! Cases of patterns that are asked of messages, and of scores.

use crate::listing::{Listed, Listing};
use case_files::{Answer, Case, CaseFault, Entry, Subject, read_number};
use headers::read_header;
use mail_base::{Bytes, Flags, Id, Names, NoMemory};
use patterns::{Pattern, PatternError, read_pattern};
use patterns_match::{Row, ScoreError, Scores, Table, matches};
use people::{Expr, ExprError, People, PeopleTable, RegexBuild, Verdicts};
use std::alloc::Global;

/// Each `message MARKS` is listed; its marks are letters, s seen, a aged, r replied, f flagged, d
/// deleted, t tagged, c in a shut thread, u with the id of an earlier one, or `-`; `under` is the
/// place of its parent, `received` when it came and `score` what it has scored. `lists`,
/// `subscribed` and `mine` are expressions of the tables of people. `at` are the places of the
/// messages that satisfy each `pattern`, or `-`. `add VALUE` and `last VALUE` add the pattern of a
/// score, and `many NUMBER` so many of 1; `added` tells what each answers. `score` is what each
/// message scores in the end.
pub struct MatchedCases;

impl Subject for MatchedCases {
    fn inputs(&self) -> &[&[u8]] {
        &[
            b"message",
            b"under",
            b"received",
            b"scored",
            b"lists",
            b"subscribed",
            b"mine",
            b"pattern",
            b"add",
            b"last",
            b"many",
        ]
    }

    fn answer(&self, alloc: Global, case: &Case, answer: &mut Answer) -> Result<(), CaseFault> {
        let builder = Box::new(alloc, RegexBuild::new(Names::new(alloc)))?;
        let mut verdicts = Verdicts::new(alloc, builder);
        let mut stage = Stage::new(alloc);
        for entry in case.entries.as_slice() {
            let value = entry.value.as_slice();
            match table_of(entry) {
                Some(table) => stage.add_expr(table, Expr::read(alloc, value, &mut verdicts))?,
                None => stage.act(alloc, entry, &mut verdicts, answer)?,
            }
        }
        stage.put_scores(alloc, answer)
    }
}

// What an entry does.
#[derive(Clone, Copy)]
enum Step {
    List,
    PutUnder,
    PutReceived,
    PutScored,
    Ask,
    AddScore { last: bool },
    AddMany,
    Nothing,
}

fn step_named(name: &[u8]) -> Step {
    match name {
        b"message" => Step::List,
        b"under" => Step::PutUnder,
        b"received" => Step::PutReceived,
        b"scored" => Step::PutScored,
        b"pattern" => Step::Ask,
        b"add" => Step::AddScore { last: false },
        b"last" => Step::AddScore { last: true },
        b"many" => Step::AddMany,
        _ => Step::Nothing,
    }
}

// What a case has made so far.
struct Stage {
    listing: Listing,
    people: People,
    scores: Scores,
    is_scored: bool,
}

impl Drop for Stage {
    fn drop(self) {
        let Stage {
            listing: _,
            people: _,
            scores: _,
            is_scored: _,
        } = self;
    }
}

impl Stage {
    fn new(alloc: Global) -> Stage {
        Stage {
            listing: Listing {
                messages: Vec::new(alloc),
            },
            people: People::new(alloc),
            scores: Scores::new(alloc),
            is_scored: false,
        }
    }

    fn act(
        &mut self,
        alloc: Global,
        entry: &Entry,
        verdicts: &mut Verdicts,
        answer: &mut Answer,
    ) -> Result<(), CaseFault> {
        let value = entry.value.as_slice();
        match step_named(entry.role()) {
            Step::List => self.list(alloc, entry.about(), value),
            Step::PutUnder => self.put_under(value),
            Step::PutReceived => self.put_received(value),
            Step::PutScored => self.put_scored(value),
            Step::Ask => self.ask(alloc, value, verdicts, answer),
            Step::AddScore { last } => self.add_score(alloc, entry, last, verdicts, answer),
            Step::AddMany => self.add_many(alloc, entry, verdicts, answer),
            Step::Nothing => Ok(()),
        }
    }

    fn list(&mut self, alloc: Global, marks: &[u8], raw: &[u8]) -> Result<(), CaseFault> {
        let message = listed(alloc, marks, self.listing.messages.len(), raw)?;
        self.listing.messages.push(message)?;
        Ok(())
    }

    fn put_under(&mut self, value: &[u8]) -> Result<(), CaseFault> {
        let Ok(parent) = usize::try_from(read_number(value)?) else {
            return Err(CaseFault::BadInput);
        };
        let Some(above) = self.listing.messages.get(parent) else {
            return Err(CaseFault::BadInput);
        };
        let root = above.root;
        if let Some(last) = self.listing.messages.last_mut() {
            last.parent = Some(parent);
            last.root = root;
        }
        Ok(())
    }

    fn put_received(&mut self, value: &[u8]) -> Result<(), CaseFault> {
        let Ok(received) = i64::try_from(read_number(value)?) else {
            return Err(CaseFault::BadInput);
        };
        if let Some(last) = self.listing.messages.last_mut() {
            last.row.received = received;
        }
        Ok(())
    }

    fn put_scored(&mut self, value: &[u8]) -> Result<(), CaseFault> {
        let score = read_number(value)?;
        if let Some(last) = self.listing.messages.last_mut() {
            last.row.score = score;
        }
        Ok(())
    }

    fn add_expr(
        &mut self,
        table: PeopleTable,
        read: Result<Expr, ExprError>,
    ) -> Result<(), CaseFault> {
        match read {
            Ok(expr) => Ok(self.people.add(table, expr)?),
            Err(ExprError::NoMemory) => Err(CaseFault::NoMemory),
            Err(_) => Err(CaseFault::BadInput),
        }
    }

    // Puts the places of the messages that satisfy a pattern.
    fn ask(
        &mut self,
        alloc: Global,
        text: &[u8],
        verdicts: &mut Verdicts,
        answer: &mut Answer,
    ) -> Result<(), CaseFault> {
        let mut places = Bytes::new(alloc);
        self.write_places(alloc, text, verdicts, &mut places)?;
        let places = places.as_slice().trim_ascii();
        answer.put(b"at", if places.is_empty() { b"-" } else { places })
    }

    fn write_places(
        &mut self,
        alloc: Global,
        text: &[u8],
        verdicts: &mut Verdicts,
        places: &mut Bytes,
    ) -> Result<(), CaseFault> {
        let mut pattern = read(alloc, text, verdicts)?;
        self.write_each(alloc, &mut pattern, places)
    }

    fn write_each(
        &mut self,
        alloc: Global,
        pattern: &mut Pattern,
        places: &mut Bytes,
    ) -> Result<(), CaseFault> {
        for place in 0..self.listing.messages.len() {
            if is_at(alloc, pattern, place, &self.listing, &mut self.people)? {
                places.append(format!(in alloc; " {place}")?.as_bytes())?;
            }
        }
        Ok(())
    }

    fn add_score(
        &mut self,
        alloc: Global,
        entry: &Entry,
        last: bool,
        verdicts: &mut Verdicts,
        answer: &mut Answer,
    ) -> Result<(), CaseFault> {
        let value = signed_number(entry.about())?;
        let pattern = read(alloc, entry.value.as_slice(), verdicts)?;
        self.is_scored = true;
        put_added(alloc, self.scores.add(pattern, value, last), answer)
    }

    fn add_many(
        &mut self,
        alloc: Global,
        entry: &Entry,
        verdicts: &mut Verdicts,
        answer: &mut Answer,
    ) -> Result<(), CaseFault> {
        let mut added = 0usize;
        for _entry in 0..read_number(entry.about())? {
            if self.add_one(alloc, entry.value.as_slice(), verdicts)? {
                added = added.saturating_add(1);
            }
        }
        self.is_scored = true;
        answer.put_count(b"added", added)
    }

    fn add_one(
        &mut self,
        alloc: Global,
        text: &[u8],
        verdicts: &mut Verdicts,
    ) -> Result<bool, CaseFault> {
        let pattern = read(alloc, text, verdicts)?;
        Ok(self.scores.add(pattern, 1, false).is_ok())
    }

    // Puts what each message scores, where scores were added.
    fn put_scores(&mut self, alloc: Global, answer: &mut Answer) -> Result<(), CaseFault> {
        if !self.is_scored {
            return Ok(());
        }
        for place in 0..self.listing.messages.len() {
            self.put_score(alloc, place, answer)?;
        }
        Ok(())
    }

    fn put_score(
        &mut self,
        alloc: Global,
        place: usize,
        answer: &mut Answer,
    ) -> Result<(), CaseFault> {
        let score = score_at(
            alloc,
            &mut self.scores,
            place,
            &self.listing,
            &mut self.people,
        )?;
        answer.put(b"score", format!(in alloc; "{score}")?.as_bytes())
    }
}

// A message with these marks, without a parent.
fn listed(alloc: Global, marks: &[u8], place: usize, raw: &[u8]) -> Result<Listed, NoMemory> {
    let copy = Bytes::copy_of(alloc, raw)?;
    let header = read_header(alloc, raw)?;
    Ok(Listed {
        row: row_of(marks, place, raw.len()),
        header,
        raw: copy,
        parent: None,
        root: place,
        duplicate: marks.contains(&b'u'),
    })
}

fn put_added(
    alloc: Global,
    added: Result<(), ScoreError>,
    answer: &mut Answer,
) -> Result<(), CaseFault> {
    match added {
        Ok(()) => answer.put_text(b"added", "yes"),
        Err(ScoreError::NoMemory) => Err(CaseFault::NoMemory),
        Err(error) => answer.put(b"added", format!(in alloc; "{error}")?.as_bytes()),
    }
}

// The table to which an entry adds.
fn table_of(entry: &Entry) -> Option<PeopleTable> {
    table_named(entry.role())
}

fn table_named(name: &[u8]) -> Option<PeopleTable> {
    match name {
        b"lists" => Some(PeopleTable::Lists),
        b"subscribed" => Some(PeopleTable::Subscribed),
        b"mine" => Some(PeopleTable::Mine),
        _ => None,
    }
}

// The pattern of a text, read on the first of January 2026.
fn read(alloc: Global, text: &[u8], verdicts: &mut Verdicts) -> Result<Pattern, CaseFault> {
    match read_pattern(alloc, text, 1_767_225_600, 0, verdicts) {
        Ok(pattern) => Ok(pattern),
        Err(PatternError::NoMemory) => Err(CaseFault::NoMemory),
        Err(_) => Err(CaseFault::BadInput),
    }
}

// Whether the message at a place satisfies the pattern; none is past the end.
fn is_at(
    alloc: Global,
    pattern: &mut Pattern,
    place: usize,
    listing: &Listing,
    people: &mut People,
) -> Result<bool, NoMemory> {
    if place >= listing.len() {
        return Ok(false);
    }
    matches(alloc, pattern, place, listing, people)
}

// What the message at a place scores; nothing past the end.
fn score_at(
    alloc: Global,
    scores: &mut Scores,
    place: usize,
    listing: &Listing,
    people: &mut People,
) -> Result<u64, NoMemory> {
    if place >= listing.len() {
        return Ok(0);
    }
    scores.score(alloc, place, listing, people)
}

fn signed_number(text: &[u8]) -> Result<i64, CaseFault> {
    let Ok(digits) = str::from_utf8(text) else {
        return Err(CaseFault::BadInput);
    };
    match digits.parse::<i64>() {
        Ok(number) => Ok(number),
        Err(_) => Err(CaseFault::BadInput),
    }
}

fn row_of(marks: &[u8], place: usize, size: usize) -> Row {
    Row {
        id: Id(0),
        number: (place as u64).saturating_add(1),
        flags: Flags {
            seen: marks.contains(&b's'),
            aged: marks.contains(&b'a'),
            replied: marks.contains(&b'r'),
            flagged: marks.contains(&b'f'),
            ..Flags::NONE
        },
        deleted: marks.contains(&b'd'),
        tagged: marks.contains(&b't'),
        collapsed: marks.contains(&b'c'),
        score: 0,
        received: 0,
        size: size as u64,
    }
}
