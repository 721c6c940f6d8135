//! A person of an address field.

use mail_base::{Bytes, Line, Series};

/// A person of an address field: the name as it is shown, and the address as it is written.
#[derive(Drop)]
pub struct Person {
    pub name: Line,
    pub address: Bytes,
}

/// A list of persons.
pub type Persons = Series<Person>;
