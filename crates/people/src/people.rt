//! The tables of people.

ghost use Rattle.std.specs.Prelude.{◌≡◌, ◌||◌, ◌+◌, ◌==◌, length, map, option_map, IfOk, OnOk};
ghost use Rattle.std.specs.Prelude.{OnErr};
ghost use Rattle.headers.specs.Header.{plain_header};
ghost use Rattle.headers.specs.Person.{plain_person, plain_persons};
ghost use Rattle.people.specs.People as spec;

use crate::Expr;
use headers::{Header, Person, Persons};
use indexmap::IndexMap;
use mail_base::{Bytes, NoMemory};
use std::alloc::Global;
use std::marker::Model;

/// Which addresses a table holds.
#[derive(Clone, Copy, Debug, PartialEq, Eq)]
pub enum PeopleTable {
    /// Known mailing lists.
    Lists,
    /// Lists to which the reader subscribes; each is a known one too.
    Subscribed,
    /// Addresses of the reader.
    Mine,
}

/// The tables of people, and aliases.
#[derive(Drop)]
pub struct People {
    alloc: Global,
    lists: Vec<Expr>,
    subscribed: Vec<Expr>,
    mine: Vec<Expr>,
    aliases: IndexMap<Vec<u8>, Bytes>,
}

impl Model for People {
    ghost use Rattle.std.specs.Prelude.{map};
    ghost use Rattle.people.specs.People.{PlainPeople, plain_alias};

    ghost Value = { PlainPeople };

    ghost view = { λ p. record {
      lists = p.lists.items;
      subscribed = p.subscribed.items;
      mine = p.mine.items;
      aliases = map plain_alias p.aliases.entries;
    } };
}

// Whether some expression is found in the text.
fn any_finds(exprs: &[Expr], text: &[u8]) -> Result<bool, NoMemory>
    ensures { IfOk result (λ found. found ≡ spec.any_finds exprs.now text.now) }
{
    for expr in exprs {
        if expr.search(text)? {
            return Ok(true);
        }
    }
    Ok(false)
}

impl People {
    pub fn new(alloc: Global) -> Self
        ensures { result ≡ spec.no_people }
    {
        People {
            alloc,
            lists: Vec::new(alloc),
            subscribed: Vec::new(alloc),
            mine: Vec::new(alloc),
            aliases: IndexMap::new(alloc),
        }
    }

    /// Adds an expression at the end of a table.
    pub fn add(&mut self, table: PeopleTable, expr: Expr) -> Result<(), NoMemory>
        ensures ok { OnOk result (self.new ≡ spec.with_expr self.old table expr) }
        ensures err { OnErr result (self.new ≡ self.old) }
    {
        match table {
            PeopleTable::Lists => self.lists.push(expr)?,
            PeopleTable::Subscribed => self.subscribed.push(expr)?,
            PeopleTable::Mine => self.mine.push(expr)?,
        }
        Ok(())
    }

    /// Takes the last expression out of a table, if it has one, as if it had not been added.
    pub fn drop_last(&mut self, table: PeopleTable)
        ensures { self.new ≡ spec.without_last self.old table }
    {
        match table {
            PeopleTable::Lists => self.lists.pop(),
            PeopleTable::Subscribed => self.subscribed.pop(),
            PeopleTable::Mine => self.mine.pop(),
        };
    }

    /// Gives a name its value, in place of the one that it has.
    pub fn alias(&mut self, name: &[u8], value: &[u8]) -> Result<(), NoMemory>
        ensures ok { OnOk result (self.new
            ≡ record self.old { aliases = spec.with_alias self.old.aliases name.now value.now }) }
        ensures err { OnErr result (self.new ≡ self.old) }
    {
        let name = Vec::from_slice(self.alloc, name)?;
        let value = Bytes::copy_of(self.alloc, value)?;
        self.aliases.insert(name, value)?;
        Ok(())
    }

    /// What the name stands for.
    pub fn expand_alias(&self, name: &[u8]) -> Option<&Bytes>
        ensures { option_map (λ b. b.now.items) result ≡ spec.alias_of self.now.aliases name.now }
    {
        self.aliases.get(name)
    }

    /// Whether the address is in the table.
    pub fn is_in(&mut self, table: PeopleTable, address: &[u8]) -> Result<bool, NoMemory>
        ensures value { IfOk result (λ found. found ≡ spec.is_in self.old table address.now) }
        ensures same { self.new ≡ self.old }
    {
        self.holds(table, address)
    }

    fn holds(&self, table: PeopleTable, address: &[u8]) -> Result<bool, NoMemory>
        ensures { IfOk result (λ found. found ≡ spec.is_in self.now table address.now) }
    {
        match table {
            PeopleTable::Lists => {
                Ok(any_finds(&self.lists, address)? || any_finds(&self.subscribed, address)?)
            }
            PeopleTable::Subscribed => any_finds(&self.subscribed, address),
            PeopleTable::Mine => any_finds(&self.mine, address),
        }
    }

    // Whether the table holds the address of one of the persons.
    fn holds_any(&self, table: PeopleTable, persons: &[Person]) -> Result<bool, NoMemory>
        ensures { IfOk result
            (λ found. found ≡ spec.any_in self.now table (map plain_person persons.now)) }
    {
        for person in persons {
            if self.holds(table, person.address.as_slice())? {
                return Ok(true);
            }
        }
        Ok(false)
    }

    /// What the message is to its reader, as a place in `to_chars`: 1 to the reader alone, 2 to
    /// others too, 3 a copy, 4 from the reader, 5 to a list that the reader subscribes to, else 0.
    pub fn to_char(&mut self, header: &Header) -> Result<u8, NoMemory>
        ensures value { IfOk result
            (λ place. place ≡ spec.to_char self.old (plain_header header.now)) }
        ensures same { self.new ≡ self.old }
    {
        let to = header.to.as_slice();
        let cc = header.cc.as_slice();
        if self.holds_any(PeopleTable::Mine, first_person(&header.authors))? {
            Ok(4)
        } else if self.holds_any(PeopleTable::Mine, to)? {
            Ok(if is_alone(to, cc) { 1 } else { 2 })
        } else if self.holds_any(PeopleTable::Mine, cc)? {
            Ok(3)
        } else if self.holds_any(PeopleTable::Subscribed, to)?
            || self.holds_any(PeopleTable::Subscribed, cc)?
        {
            Ok(5)
        } else {
            Ok(0)
        }
    }
}

fn first_person(persons: &Persons) -> &[Person]
    ensures { map plain_person result.now ≡ spec.first_person (plain_persons persons.now) }
{
    match persons.as_slice() {
        [first, ..] => std::slice::from_ref(first),
        [] => &[],
    }
}

// Whether both lists together hold one person.
fn is_alone(to: &[Person], cc: &[Person]) -> bool
    ensures { result ≡ (length to.now + length cc.now == 1) }
{
    match (to, cc) {
        ([_], []) => true,
        ([], [_]) => true,
        _ => false,
    }
}
