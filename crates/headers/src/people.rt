//! The persons of address fields (RFC 5322, section 3.4).

ghost use Rattle.std.specs.Prelude.{◌≡◌, ◌++◌, ◌∷◌, [], ◌<◌, not, filter, length, position, IfOk};
ghost use Rattle.std.specs.Prelude.{OnOk, IfSome, IfNone, false, map, option_map, option_to_list};
ghost use Rattle.std.specs.List.{list_all, slice_split, before_first, after_first, after_last};
ghost use Rattle.mail_base.specs.Blanks as blanks;
ghost use Rattle.mail_base.specs.Places.{IsLastPlace};
ghost use Rattle.headers.specs.AddressByte as address;
ghost use Rattle.headers.specs.Decode.{decoded_words};
ghost use Rattle.headers.specs.People as spec;
ghost use Rattle.headers.specs.Person.{plain_person, plain_persons};

use crate::address_byte::{AddressByte, Role};
use crate::address_state::read_address_bytes;
use crate::decode::decode_words;
use crate::person::{Person, Persons};
use mail_base::{Bytes, Line, NoMemory, is_blank, split_around, trimmed};
use std::alloc::Global;

/// The brackets of an address, with what stands before, in and behind them.
#[derive(Clone, Copy)]
pub struct Brackets<'a> {
    pub before: &'a [AddressByte],
    pub inside: &'a [AddressByte],
    pub behind: &'a [AddressByte],
}

fn bytes_of(alloc: Global, bytes: &[AddressByte]) -> Result<Vec<u8>, NoMemory>
    ensures { IfOk result (λ v. v.items ≡ address.bytes_of bytes.now) }
{
    Ok(bytes.iter().map(|b| b.byte).collect(alloc)?)
}

// The place of the first byte of the role.
fn first_with(bytes: &[AddressByte], role: Role) -> Option<usize>
    ensures value { result ≡ position (address.has role) bytes.now }
    ensures within { IfSome result (λ at. at < length bytes.now) }
{
    bytes.iter().position(|b| b.has(role))
}

// The place of the last byte of the role.
fn last_with(bytes: &[AddressByte], role: Role) -> Option<usize>
    ensures value { IsLastPlace (address.has role) bytes.now result }
    ensures within { IfSome result (λ at. at < length bytes.now) }
{
    bytes.iter().rposition(|b| b.has(role))
}

// The piece before the first separator, and what stands behind it.
fn split_piece(bytes: &[AddressByte]) -> Option<(&[AddressByte], &[AddressByte])>
    ensures none { IfNone result
        (slice_split (address.has Role.Separator) bytes.now ≡ bytes.now ∷ []) }
    ensures some { IfSome result
        (λ p. slice_split (address.has Role.Separator) bytes.now
        ≡ p.0.now ∷ slice_split (address.has Role.Separator) p.1.now) }
    ensures shorter { IfSome result (λ p. length p.1.now < length bytes.now) }
{
    match first_with(bytes, Role::Separator) {
        Some(place) => Some(split_around(bytes, place)),
        None => None,
    }
}

// What stands behind the name of a group.
fn behind_group(bytes: &[AddressByte]) -> &[AddressByte]
    ensures { result.now ≡ after_last (address.has Role.GroupEnd) bytes.now }
{
    match last_with(bytes, Role::GroupEnd) {
        Some(place) => split_around(bytes, place).1,
        None => bytes,
    }
}

fn first_comment(bytes: &[AddressByte]) -> &[AddressByte]
    ensures { result.now ≡ spec.first_comment bytes.now }
{
    match first_with(bytes, Role::CommentStart) {
        Some(place) => before_comment_end(split_around(bytes, place).1),
        None => &[],
    }
}

fn before_comment_end(bytes: &[AddressByte]) -> &[AddressByte]
    ensures { result.now ≡ before_first (address.has Role.CommentEnd) bytes.now }
{
    match first_with(bytes, Role::CommentEnd) {
        Some(place) => split_around(bytes, place).0,
        None => bytes,
    }
}

// What stands in brackets that have begun, and behind them.
fn split_brackets(bytes: &[AddressByte]) -> (&[AddressByte], &[AddressByte])
    ensures inside { result.0.now ≡ before_first (address.has Role.AngleEnd) bytes.now }
    ensures behind { result.1.now ≡ after_first (address.has Role.AngleEnd) bytes.now }
{
    match first_with(bytes, Role::AngleEnd) {
        Some(place) => split_around(bytes, place),
        None => (bytes, &[]),
    }
}

impl<'a> Brackets<'a> {
    fn read(bytes: &'a [AddressByte]) -> Option<Brackets<'a>>
        ensures { option_map spec.plain_brackets result ≡ spec.brackets_of bytes.now }
    {
        match last_with(bytes, Role::AngleStart) {
            Some(place) => {
                let (before, tail) = split_around(bytes, place);
                let (inside, behind) = split_brackets(tail);
                Some(Brackets {
                    before,
                    inside,
                    behind,
                })
            }
            None => None,
        }
    }
}

// The bytes without the blanks at their ends.
fn trimmed_bytes(alloc: Global, mut bytes: Vec<u8>) -> Result<Bytes, NoMemory>
    ensures { IfOk result (λ b. b.items ≡ blanks.trimmed bytes.items) }
{
    if has_blank_end(&bytes) {
        return Bytes::copy_of(alloc, trimmed(&bytes));
    }
    bytes.shrink_to_fit();
    Ok(Bytes::from_vec(bytes))
}

// Whether blanks stand at an end.
fn has_blank_end(bytes: &[u8]) -> bool
    ensures { result ≡ false → blanks.trimmed bytes.now ≡ bytes.now }
{
    trimmed(bytes).len() < bytes.len()
}

fn shown_name(alloc: Global, bytes: &[u8]) -> Result<Line, NoMemory>
    ensures { IfOk result (λ l. l.items ≡ decoded_words (blanks.trimmed bytes.now)) }
{
    decode_words(alloc, trimmed(bytes))
}

fn without_comments(alloc: Global, bytes: &[AddressByte]) -> Result<Vec<u8>, NoMemory>
    ensures { IfOk result (λ v. v.items
        ≡ address.bytes_of (filter (λ b. not (address.is_comment b)) bytes.now)) }
{
    let kept = bytes.iter().filter(|b| !b.is_comment());
    Ok(kept.map(|b| b.byte).collect(alloc)?)
}

// Adds the bytes that are no quotes at the end.
fn append_unquoted(name: &mut Vec<u8>, bytes: &[AddressByte]) -> Result<(), NoMemory>
    ensures { OnOk result (name.new.items ≡ name.old.items
        ++ address.bytes_of (filter (λ b. not (address.has Role.Quote b)) bytes.now)) }
{
    let mut left = bytes;
    while let [first, rest @ ..] = left {
        if !first.has(Role::Quote) {
            name.push(first.byte)?;
        }
        left = rest;
    }
    Ok(())
}

impl Brackets<'_> {
    // What stands round the brackets, without quotes.
    fn name(&self, alloc: Global) -> Result<Vec<u8>, NoMemory>
        ensures { IfOk result (λ v. v.items
            ≡ address.bytes_of (filter (λ b. not (address.has Role.Quote b))
            (self.now.before.now ++ self.now.behind.now))) }
    {
        let room = self.before.len().saturating_add(self.behind.len());
        let mut name = Vec::with_capacity(alloc, room)?;
        append_unquoted(&mut name, self.before)?;
        append_unquoted(&mut name, self.behind)?;
        Ok(name)
    }

    fn to_person(self, alloc: Global) -> Result<Person, NoMemory>
        ensures { IfOk result
            (λ p. plain_person p ≡ spec.bracketed (spec.plain_brackets self.entry)) }
    {
        Ok(Person {
            name: shown_name(alloc, &self.name(alloc)?)?,
            address: trimmed_bytes(alloc, bytes_of(alloc, self.inside)?)?,
        })
    }
}

fn unbracketed(alloc: Global, bytes: &[AddressByte]) -> Result<Person, NoMemory>
    ensures { IfOk result (λ p. plain_person p ≡ spec.unbracketed bytes.now) }
{
    Ok(Person {
        name: shown_name(alloc, &bytes_of(alloc, first_comment(bytes))?)?,
        address: trimmed_bytes(alloc, without_comments(alloc, bytes)?)?,
    })
}

fn person_of(alloc: Global, bytes: &[AddressByte]) -> Result<Person, NoMemory>
    ensures { IfOk result
        (λ p. plain_person p ≡ spec.person_of bytes.now (spec.brackets_of bytes.now)) }
{
    match Brackets::read(bytes) {
        Some(form) => form.to_person(alloc),
        None => unbracketed(alloc, bytes),
    }
}

fn is_all_blank(bytes: &[AddressByte]) -> bool
    ensures { result ≡ list_all (λ b. blanks.is_blank b.byte) bytes.now }
{
    bytes.iter().all(|b| is_blank(b.byte))
}

fn add_person(
    alloc: Global,
    persons: &mut Vec<Person>,
    piece: &[AddressByte],
) -> Result<(), NoMemory>
    ensures { OnOk result (map plain_person persons.new.items
        ≡ map plain_person persons.old.items ++ option_to_list (spec.person_in piece.now)) }
{
    let bytes = behind_group(piece);
    if is_all_blank(bytes) {
        return Ok(());
    }
    // Most fields have one person.
    if persons.is_empty() {
        persons.reserve_exact(1)?;
    }
    persons.push(person_of(alloc, bytes)?)?;
    Ok(())
}

/// Adds the persons of an address field at the end of the list.
pub fn add_people(alloc: Global, persons: &mut Vec<Person>, value: &[u8]) -> Result<(), NoMemory>
    ensures { OnOk result (map plain_person persons.new.items
        ≡ map plain_person persons.old.items ++ spec.people value.now) }
{
    let bytes = read_address_bytes(alloc, value)?;
    let mut left = bytes.as_slice();
    while let Some((piece, rest)) = split_piece(left) {
        add_person(alloc, persons, piece)?;
        left = rest;
    }
    add_person(alloc, persons, left)
}

/// A list with no more room than it needs.
pub fn persons_of(mut persons: Vec<Person>) -> Persons
    ensures { result.items ≡ persons.items }
{
    persons.shrink_to_fit();
    Persons::from_vec(persons)
}

/// The persons of an address field (RFC 5322, section 3.4); no address is refused.
pub fn read_people(alloc: Global, value: &[u8]) -> Result<Persons, NoMemory>
    ensures { IfOk result (λ p. plain_persons p ≡ spec.people value.now) }
{
    let mut persons = Vec::new(alloc);
    add_people(alloc, &mut persons, value)?;
    Ok(persons_of(persons))
}
