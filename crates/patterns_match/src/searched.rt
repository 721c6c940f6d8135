//! What a pattern searches for, in the texts of a message.

ghost use Rattle.std.specs.Prelude.{◌≡◌, ◌++◌, ◌∷◌, [], true, codes, map, option_map, IfOk, IsOk};
ghost use Rattle.std.specs.List.{list_any};
ghost use Rattle.mail_base.specs.Lines.{message_fields};
ghost use Rattle.headers.specs.FoldedField.{plain_folded};
ghost use Rattle.headers.specs.Ids.{ids};
ghost use Rattle.headers.specs.Person.{plain_person, plain_persons};
ghost use Rattle.headers.specs.Values.{first_value};
ghost use Rattle.patterns_match.specs.Asked.{plain_search};
ghost use Rattle.patterns_match.specs.Entries.{plain_entry};
ghost use Rattle.joined_texts.specs.Joined.{whole};
ghost use Rattle.patterns_match.specs.Kept.{IsKept};
ghost use Rattle.patterns_match.specs.Leaves as leaves;
ghost use Rattle.patterns_match.specs.Listings as spec;
ghost use Rattle.patterns_match.specs.Sought.{is_sought_literal, sought_found};

use crate::asked::Sought;
use crate::body::{body_found, kind_found};
use crate::entry::Entry;
use crate::kept::Kept;
use crate::letter::Field;
use headers::{FoldedField, Header, Person};
use joined_texts::Joined;
use mail_base::{NoMemory, is_same_name};
use std::alloc::Global;

fn person_found(alloc: Global, sought: &Sought, person: &Person) -> Result<bool, NoMemory>
    ensures value { IfOk result (λ found. found
        ≡ sought_found sought.now (spec.person_text (plain_person person.now))) }
    ensures memory { is_sought_literal sought.now ≡ true → IsOk result }
{
    let text = Joined {
        first: person.name.as_slice(),
        rest: &[b" <", person.address.as_slice(), b">"],
        lines: &[],
        last: None,
    };
    sought.is_found_in(alloc, text)
}

// Whether it is found in the id of a message.
fn id_found(sought: &Sought, header: &Header) -> Result<bool, NoMemory>
    ensures value { IfOk result (λ found. found ≡ list_any (sought_found sought.now)
        (spec.all_of (option_map (λ id. id.items) header.now.message_id))) }
    ensures memory { is_sought_literal sought.now ≡ true → IsOk result }
{
    match &header.message_id {
        Some(id) => sought.is_found(id.as_slice()),
        None => Ok(false),
    }
}

// Whether it is found in one of the persons.
fn any_person(alloc: Global, sought: &Sought, persons: &[Person]) -> Result<bool, NoMemory>
    ensures value { IfOk result (λ found. found
        ≡ list_any (sought_found sought.now) (spec.person_texts (map plain_person persons.now))) }
    ensures memory { is_sought_literal sought.now ≡ true → IsOk result }
{
    let mut left = persons;
    while let [first, rest @ ..] = left {
        if person_found(alloc, sought, first)? {
            return Ok(true);
        }
        left = rest;
    }
    Ok(false)
}

fn line_found(alloc: Global, sought: &Sought, field: FoldedField<'_>) -> Result<bool, NoMemory>
    ensures value { IfOk result (λ found. found
        ≡ sought_found sought.now (spec.field_text (plain_folded field.entry))) }
    ensures memory { is_sought_literal sought.now ≡ true → IsOk result }
{
    let text = Joined {
        first: field.name,
        rest: &[b": ", field.value],
        lines: field.lines,
        last: None,
    };
    sought.is_found_in(alloc, text)
}

// Whether it is found in one of the header lines of a message.
fn any_line(alloc: Global, sought: &Sought, raw: &[u8]) -> Result<bool, NoMemory>
    ensures value { IfOk result (λ found. found
        ≡ list_any (sought_found sought.now) (map spec.field_text (message_fields raw.now))) }
    ensures memory { is_sought_literal sought.now ≡ true → IsOk result }
{
    let mut left = raw;
    while let Some((field, rest)) = FoldedField::next(left) {
        if line_found(alloc, sought, field)? {
            return Ok(true);
        }
        left = rest;
    }
    Ok(false)
}

// Whether it is found in the X-Label of a message.
fn label_found(alloc: Global, sought: &Sought, raw: &[u8]) -> Result<bool, NoMemory>
    ensures value { IfOk result (λ found. found ≡ list_any (sought_found sought.now)
        (spec.all_of (first_value (codes "x-label") (message_fields raw.now)))) }
    ensures memory { is_sought_literal sought.now ≡ true → IsOk result }
{
    let Some(field) = FoldedField::named(raw, b"x-label") else {
        return Ok(false);
    };
    sought.is_found_in(alloc, Joined::of(field))
}

// Whether it is found in one of the message ids of a text.
fn any_id(alloc: Global, sought: &Sought, text: Joined<'_>) -> Result<bool, NoMemory>
    ensures value { IfOk result
        (λ found. found ≡ list_any (sought_found sought.now) (ids (whole text.entry))) }
    ensures memory { is_sought_literal sought.now ≡ true → IsOk result }
{
    let mut left = text;
    while let Some((id, rest)) = left.next_id() {
        if sought.is_found_in(alloc, id)? {
            return Ok(true);
        }
        left = rest;
    }
    Ok(false)
}

// Whether it is found in one of the message ids of a field, if that has the name.
fn id_in_field(
    alloc: Global,
    sought: &Sought,
    name: &[u8],
    field: FoldedField<'_>,
) -> Result<bool, NoMemory>
    ensures value { IfOk result (λ found. found ≡ list_any (sought_found sought.now)
        (spec.ids_named name.now (plain_folded field.entry ∷ []))) }
    ensures memory { is_sought_literal sought.now ≡ true → IsOk result }
{
    if !is_same_name(field.name, name) {
        return Ok(false);
    }
    any_id(alloc, sought, Joined::of(field))
}

// Whether it is found in one of the message ids of the fields of the name.
fn id_in_fields(alloc: Global, sought: &Sought, name: &[u8], raw: &[u8]) -> Result<bool, NoMemory>
    ensures value { IfOk result (λ found. found ≡ list_any (sought_found sought.now)
        (spec.ids_named name.now (message_fields raw.now))) }
    ensures memory { is_sought_literal sought.now ≡ true → IsOk result }
{
    let mut left = raw;
    while let Some((field, rest)) = FoldedField::next(left) {
        if id_in_field(alloc, sought, name, field)? {
            return Ok(true);
        }
        left = rest;
    }
    Ok(false)
}

// Whether it is found in one of the ids to which a message refers.
fn reference_found(alloc: Global, sought: &Sought, raw: &[u8]) -> Result<bool, NoMemory>
    ensures value { IfOk result (λ found. found ≡ list_any (sought_found sought.now)
        (spec.answered_ids (message_fields raw.now))) }
    ensures memory { is_sought_literal sought.now ≡ true → IsOk result }
{
    if id_in_fields(alloc, sought, b"references", raw)? {
        return Ok(true);
    }
    id_in_fields(alloc, sought, b"in-reply-to", raw)
}

// Whether it is found in one of the persons of either list.
fn any_of_both(
    alloc: Global,
    sought: &Sought,
    persons: &[Person],
    others: &[Person],
) -> Result<bool, NoMemory>
    ensures value { IfOk result (λ found. found ≡ list_any (sought_found sought.now)
        (spec.person_texts (map plain_person persons.now ++ map plain_person others.now))) }
    ensures memory { is_sought_literal sought.now ≡ true → IsOk result }
{
    if any_person(alloc, sought, persons)? {
        return Ok(true);
    }
    any_person(alloc, sought, others)
}

fn anyone_found(alloc: Global, sought: &Sought, header: &Header) -> Result<bool, NoMemory>
    ensures value { IfOk result (λ found. found ≡ list_any (sought_found sought.now)
        (spec.person_texts (plain_persons header.now.authors ++ plain_persons header.now.senders
        ++ plain_persons header.now.to ++ plain_persons header.now.cc))) }
    ensures memory { is_sought_literal sought.now ≡ true → IsOk result }
{
    if any_of_both(
        alloc,
        sought,
        header.authors.as_slice(),
        header.senders.as_slice(),
    )? {
        return Ok(true);
    }
    any_of_both(alloc, sought, header.to.as_slice(), header.cc.as_slice())
}

// Whether it is found in a header line or a line of the body.
fn whole_found(kept: &mut Kept, sought: &Sought, entry: &Entry<'_>) -> Result<bool, NoMemory>
    requires { IsKept (plain_entry entry.now).raw kept.old }
    ensures value { IfOk result (λ found. found ≡ list_any (sought_found sought.now)
        (spec.header_texts (plain_entry entry.now) ++ spec.body_texts (plain_entry entry.now))) }
    ensures kept { IfOk result (λ _. IsKept (plain_entry entry.now).raw kept.new) }
{
    if any_line(kept.alloc, sought, entry.raw)? {
        return Ok(true);
    }
    body_found(kept, sought, entry.raw, entry.header.body_at)
}

/// Whether it is found where a letter searches in a message.
pub fn is_searched(
    kept: &mut Kept,
    field: Field,
    sought: &Sought,
    entry: &Entry<'_>,
) -> Result<bool, NoMemory>
    requires { IsKept (plain_entry entry.now).raw kept.old }
    ensures value { IfOk result (λ found. found ≡ list_any (sought_found sought.now)
        (spec.texts_of field (plain_entry entry.now))) }
    ensures kept { IfOk result (λ _. IsKept (plain_entry entry.now).raw kept.new) }
    ensures memory { leaves.takes_none (plain_search field sought.now) ≡ true → IsOk result }
{
    let header = entry.header;
    let alloc = kept.alloc;
    match field {
        Field::Body => body_found(kept, sought, entry.raw, header.body_at),
        Field::Whole => whole_found(kept, sought, entry),
        Field::Header => any_line(alloc, sought, entry.raw),
        Field::Cc => any_person(alloc, sought, header.cc.as_slice()),
        Field::Recipients => {
            any_of_both(alloc, sought, header.to.as_slice(), header.cc.as_slice())
        }
        Field::To => any_person(alloc, sought, header.to.as_slice()),
        Field::From => any_person(alloc, sought, header.authors.as_slice()),
        Field::Sender => any_person(alloc, sought, header.senders.as_slice()),
        Field::Anyone => anyone_found(alloc, sought, header),
        Field::Id => id_found(sought, header),
        Field::Subject => sought.is_found(header.subject.as_slice()),
        Field::References => reference_found(alloc, sought, entry.raw),
        Field::Label => label_found(alloc, sought, entry.raw),
        Field::ContentType => kind_found(kept, sought, entry.raw),
    }
}
