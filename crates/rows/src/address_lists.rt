//! Cases of address lists (RFC 5322, section 3.4).

use case_files::{Answer, Case, CaseFault, Subject};
use headers::{Person, Persons, read_people};
use mail_base::{Bytes, NoMemory};
use std::alloc::Global;

/// `value` is an unfolded value; each `person` is `NAME <ADDRESS>`, with a blank first where there
/// is no name.
pub struct People;

impl Subject for People {
    fn inputs(&self) -> &[&[u8]] {
        &[b"value"]
    }

    fn answer(&self, alloc: Global, case: &Case, answer: &mut Answer) -> Result<(), CaseFault> {
        let persons = read_people(alloc, case.need(b"value")?)?;
        answer.put_count(b"persons", persons.len())?;
        put_persons(alloc, answer, b"person", &persons)
    }
}

/// Puts each person under the key.
pub fn put_persons(
    alloc: Global,
    answer: &mut Answer,
    key: &[u8],
    persons: &Persons,
) -> Result<(), CaseFault> {
    for person in persons.as_slice() {
        let mut shown = Bytes::new(alloc);
        append_person(&mut shown, person)?;
        answer.put(key, shown.as_slice())?;
    }
    Ok(())
}

fn append_person(shown: &mut Bytes, person: &Person) -> Result<(), NoMemory> {
    shown.append(person.name.as_slice())?;
    shown.append(b" <")?;
    shown.append(person.address.as_slice())?;
    shown.append(b">")
}
