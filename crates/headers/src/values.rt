//! The values of fields by their names (RFC 5322, section 3.6).

ghost use Rattle.std.specs.Prelude.{◌≡◌, map, option_map, IfOk};
ghost use Rattle.std.specs.List.{find};
ghost use Rattle.headers.specs.FoldedField.{plain_folded};
ghost use Rattle.headers.specs.Person.{plain_persons};
ghost use Rattle.headers.specs.Values as spec;

use crate::decode::decode_words;
use crate::folded_field::FoldedField;
use crate::ids::{FoundId, bracketed};
use crate::people::{add_people, persons_of};
use crate::person::Persons;
use crate::sent_date::SentDate;
use mail_base::{Bytes, Line, NoMemory, is_same_name};
use std::alloc::Global;

// The first field of the name.
fn first_named<'a>(fields: &[FoldedField<'a>], name: &[u8]) -> Option<FoldedField<'a>>
    ensures { option_map plain_folded result
        ≡ find (spec.is_named name.now) (map plain_folded fields.now) }
{
    let mut left = fields;
    while let [first, rest @ ..] = left {
        if is_same_name(first.name, name) {
            return Some(*first);
        }
        left = rest;
    }
    None
}

/// The persons of all fields of the name.
pub fn people_of(
    alloc: Global,
    fields: &[FoldedField<'_>],
    name: &[u8],
) -> Result<Persons, NoMemory>
    ensures { IfOk result
        (λ p. plain_persons p ≡ spec.persons name.now (map plain_folded fields.now)) }
{
    let mut persons = Vec::new(alloc);
    let mut left = fields;
    while let [first, rest @ ..] = left {
        if is_same_name(first.name, name) {
            let value = first.unfold(alloc)?;
            add_people(alloc, &mut persons, value.as_slice())?;
        }
        left = rest;
    }
    Ok(persons_of(persons))
}

/// The first id of the first field of the name.
pub fn id_in(
    alloc: Global,
    fields: &[FoldedField<'_>],
    name: &[u8],
) -> Result<Option<Bytes>, NoMemory>
    ensures { IfOk result
        (λ o. option_map (λ id. id.items) o ≡ spec.id_in name.now (map plain_folded fields.now)) }
{
    let Some(field) = first_named(fields, name) else {
        return Ok(None);
    };
    match FoundId::find(field.unfold(alloc)?.as_slice()) {
        Some(found) => Ok(Some(bracketed(alloc, found.inside)?)),
        None => Ok(None),
    }
}

/// The subject as it is shown; a message without one has an empty subject.
pub fn subject_of(alloc: Global, fields: &[FoldedField<'_>]) -> Result<Line, NoMemory>
    ensures { IfOk result (λ l. l.items ≡ spec.subject (map plain_folded fields.now)) }
{
    match first_named(fields, b"subject") {
        Some(field) => decode_words(alloc, field.unfold(alloc)?.as_slice()),
        None => decode_words(alloc, &[]),
    }
}

/// The date of the first Date field.
pub fn sent_in(alloc: Global, fields: &[FoldedField<'_>]) -> Result<Option<SentDate>, NoMemory>
    ensures { IfOk result (λ sent. sent ≡ spec.sent (map plain_folded fields.now)) }
{
    match first_named(fields, b"date") {
        Some(field) => Ok(SentDate::read(field.unfold(alloc)?.as_slice())),
        None => Ok(None),
    }
}
