//! Cases of the tables of people and of aliases.

use case_files::{Answer, Case, CaseFault, Entry, Subject};
use headers::read_header;
use mail_base::{Names, NoMemory};
use people::{Expr, ExprError, People, PeopleTable, RegexBuild, Verdicts};
use std::alloc::Global;

/// `lists`, `subscribed` and `mine` are expressions of the three tables, and each `alias NAME` is
/// the value of a name, added in the order of the case. `value` is what each `name` stands for, or
/// `none`; `tables` are the tables in which each `address` is, each by its first letter, or `-`;
/// `place` is the place in `to_chars` of each `header`.
pub struct PeopleCalls;

impl Subject for PeopleCalls {
    fn inputs(&self) -> &[&[u8]] {
        &[
            b"lists",
            b"subscribed",
            b"mine",
            b"alias",
            b"name",
            b"address",
            b"header",
        ]
    }

    fn answer(&self, alloc: Global, case: &Case, answer: &mut Answer) -> Result<(), CaseFault> {
        let builder = Box::new(alloc, RegexBuild::new(Names::new(alloc)))?;
        let mut verdicts = Verdicts::new(alloc, builder);
        let mut people = People::new(alloc);
        for entry in case.entries.as_slice() {
            let value = entry.value.as_slice();
            match table_of(entry) {
                Some(table) => add(&mut people, table, Expr::read(alloc, value, &mut verdicts))?,
                None => play(alloc, entry, &mut people, answer)?,
            }
        }
        Ok(())
    }
}

/// The table to which an entry adds.
pub fn table_of(entry: &Entry) -> Option<PeopleTable> {
    table_named(entry.role())
}

fn table_named(name: &[u8]) -> Option<PeopleTable> {
    match name {
        b"lists" => Some(PeopleTable::Lists),
        b"subscribed" => Some(PeopleTable::Subscribed),
        b"mine" => Some(PeopleTable::Mine),
        _ => None,
    }
}

/// Adds an expression that was read.
pub fn add(
    people: &mut People,
    table: PeopleTable,
    read: Result<Expr, ExprError>,
) -> Result<(), CaseFault> {
    match read {
        Ok(expr) => {
            people.add(table, expr)?;
            Ok(())
        }
        Err(ExprError::NoMemory) => Err(CaseFault::NoMemory),
        Err(_) => Err(CaseFault::BadInput),
    }
}

fn play(
    alloc: Global,
    entry: &Entry,
    people: &mut People,
    answer: &mut Answer,
) -> Result<(), CaseFault> {
    let value = entry.value.as_slice();
    match entry.role() {
        b"alias" => {
            people.alias(entry.about(), value)?;
            Ok(())
        }
        b"name" => put_value(people, value, answer),
        b"address" => put_tables(people, value, answer),
        b"header" => put_place(alloc, people, value, answer),
        _ => Ok(()),
    }
}

fn put_value(people: &People, name: &[u8], answer: &mut Answer) -> Result<(), CaseFault> {
    match people.expand_alias(name) {
        Some(value) => answer.put(b"value", value.as_slice()),
        None => answer.put_text(b"value", "none"),
    }
}

fn put_tables(people: &mut People, address: &[u8], answer: &mut Answer) -> Result<(), CaseFault> {
    let lists = people.is_in(PeopleTable::Lists, address)?;
    let subscribed = people.is_in(PeopleTable::Subscribed, address)?;
    let mine = people.is_in(PeopleTable::Mine, address)?;
    answer.put_joined(
        b"tables",
        &[
            if lists { "l" } else { "-" },
            if subscribed { "s" } else { "-" },
            if mine { "m" } else { "-" },
        ],
    )
}

fn put_place(
    alloc: Global,
    people: &mut People,
    text: &[u8],
    answer: &mut Answer,
) -> Result<(), CaseFault> {
    let place = place_of(alloc, people, text)?;
    answer.put_number(b"place", i64::from(place))
}

// The place of the header of a text in `to_chars`.
fn place_of(alloc: Global, people: &mut People, text: &[u8]) -> Result<u8, NoMemory> {
    let header = read_header(alloc, text)?;
    people.to_char(&header)
}
