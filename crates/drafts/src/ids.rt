//! The ids that a reply takes from the message that it answers (RFC 5322, section 3.6.4).

ghost use Rattle.std.specs.Prelude.{◌≡◌, ◌++◌, ◌∷◌, [], ◌<◌, length, map, filter, option_map};
ghost use Rattle.std.specs.Prelude.{option_to_list, IfOk, OnOk, IfSome};
ghost use Rattle.std.specs.List.{list_all};
ghost use Rattle.mail_base.specs.Series.{plain_texts};
ghost use Rattle.headers.specs.Field.{plain_field};
ghost use Rattle.headers.specs.Ids.{first_id, id_of, ids as ids_in};
ghost use Rattle.headers.specs.Values.{references};
ghost use Rattle.drafts.specs.PlainDraft as plain;
ghost use Rattle.drafts.specs.Reply as spec;

use crate::line_state::is_id_byte;
use headers::Field;
use mail_base::{Bytes, Names, NoMemory, is_same_name, split_once};
use std::alloc::Global;

fn all_id_bytes(id: &[u8]) -> bool
    ensures { result ≡ list_all plain.is_id_byte id.now }
{
    id.iter().all(|b| is_id_byte(*b))
}

// Whether a draft may have the id.
fn is_id(id: &[u8]) -> bool
    ensures { result ≡ plain.is_id id.now }
{
    id.len() > 0 && all_id_bytes(id)
}

// What stands in the brackets of the first id of a text, and what follows it.
fn next_id(text: &[u8]) -> Option<(&[u8], &[u8])>
    ensures value { option_map (λ p. spec.found_id p.0.now p.1.now) result ≡ first_id text.now }
    ensures shorter { IfSome result (λ p. length p.1.now < length text.now) }
{
    let (_, tail) = split_once(b'<', text)?;
    split_once(b'>', tail)
}

// The id with its brackets.
fn bracketed(alloc: Global, inside: &[u8]) -> Result<Bytes, NoMemory>
    ensures { IfOk result (λ id. id.items ≡ id_of inside.now) }
{
    let mut id = Bytes::copy_of(alloc, b"<")?;
    id.append(inside)?;
    id.push(b'>')?;
    Ok(id)
}

// Adds the id at the end, where a draft may have it.
fn push_id(names: &mut Names, id: Bytes) -> Result<(), NoMemory>
    ensures { OnOk result (plain_texts names.new
        ≡ plain_texts names.old ++ filter plain.is_id (id.items ∷ [])) }
{
    if !is_id(id.as_slice()) {
        return Ok(());
    }
    names.push(id)?;
    Ok(())
}

// Adds the ids of a text at the end.
fn push_ids(alloc: Global, names: &mut Names, text: &[u8]) -> Result<(), NoMemory>
    ensures { OnOk result (plain_texts names.new
        ≡ plain_texts names.old ++ filter plain.is_id (ids_in text.now)) }
{
    let mut left = text;
    while let Some((inside, rest)) = next_id(left) {
        push_id(names, bracketed(alloc, inside)?)?;
        left = rest;
    }
    Ok(())
}

// Adds the ids of all References fields at the end.
fn push_references(alloc: Global, names: &mut Names, fields: &[Field]) -> Result<(), NoMemory>
    ensures { OnOk result (plain_texts names.new
        ≡ plain_texts names.old
        ++ filter plain.is_id (references (map plain_field fields.now))) }
{
    let mut left = fields;
    while let [first, rest @ ..] = left {
        if is_same_name(first.name.as_slice(), b"references") {
            push_ids(alloc, names, first.value.as_slice())?;
        }
        left = rest;
    }
    Ok(())
}

/// The ids before a reply to a message with these fields and this id.
pub fn ids_before(alloc: Global, fields: &[Field], own: &Option<Bytes>) -> Result<Names, NoMemory>
    ensures { IfOk result (λ names. plain_texts names
        ≡ filter plain.is_id (references (map plain_field fields.now)
        ++ option_to_list (option_map (λ id. id.items) own.now))) }
{
    let mut names = Names::new(alloc);
    push_references(alloc, &mut names, fields)?;
    if let Some(id) = own {
        push_id(&mut names, Bytes::copy_of(alloc, id.as_slice())?)?;
    }
    Ok(names)
}

/// The id, where a draft may have it.
pub fn kept_id(alloc: Global, own: &Option<Bytes>) -> Result<Option<Bytes>, NoMemory>
    ensures { IfOk result (λ o. option_map (λ id. id.items) o
        ≡ spec.kept_id (option_map (λ id. id.items) own.now)) }
{
    match own {
        Some(id) if is_id(id.as_slice()) => Ok(Some(Bytes::copy_of(alloc, id.as_slice())?)),
        _ => Ok(None),
    }
}
