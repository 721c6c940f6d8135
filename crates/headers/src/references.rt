//! The ids of References fields, of which the last 64 count.

ghost use Rattle.std.specs.Prelude.{◌≡◌, ◌≤◌, ◌++◌, ◌∷◌, [], length, map, reverse, IfOk, OnOk};
ghost use Rattle.mail_base.specs.Series.{plain_texts};
ghost use Rattle.headers.specs.FoldedField.{plain_folded};
ghost use Rattle.headers.specs.Ids.{ids};
ghost use Rattle.headers.specs.References.{last_ids};
ghost use Rattle.headers.specs.Values.{references};

use crate::folded_field::FoldedField;
use crate::ids::{FoundId, bracketed};
use mail_base::{Bytes, Names, NoMemory, is_same_name};
use std::alloc::Global;

// How many ids count.
const MOST: usize = 64;

// Adds an id at the end. Where enough are there, the first goes.
fn push_last(names: &mut Names, id: Bytes) -> Result<(), NoMemory>
    requires { length names.old.items ≤ 64 }
    ensures value { OnOk result
        (last_ids (plain_texts names.new) ≡ last_ids (plain_texts names.old ++ id.items ∷ [])) }
    ensures few { OnOk result (length names.new.items ≤ 64) }
{
    if names.len() < MOST {
        names.push(id)?;
        return Ok(());
    }
    names.remove_first();
    names.push(id)?;
    Ok(())
}

// Adds the ids of a text at the end.
fn add_ids(alloc: Global, names: &mut Names, text: &[u8]) -> Result<(), NoMemory>
    requires { length names.old.items ≤ 64 }
    ensures value { OnOk result
        (last_ids (plain_texts names.new) ≡ last_ids (plain_texts names.old ++ ids text.now)) }
    ensures few { OnOk result (length names.new.items ≤ 64) }
{
    let mut left = text;
    while let Some(found) = FoundId::find(left) {
        push_last(names, bracketed(alloc, found.inside)?)?;
        left = found.rest;
    }
    Ok(())
}

// Adds the ids of a References field at the end; another field has none.
fn add_field(alloc: Global, names: &mut Names, field: &FoldedField<'_>) -> Result<(), NoMemory>
    requires { length names.old.items ≤ 64 }
    ensures value { OnOk result (last_ids (plain_texts names.new)
        ≡ last_ids (plain_texts names.old ++ references (plain_folded field.now ∷ []))) }
    ensures few { OnOk result (length names.new.items ≤ 64) }
{
    if !is_same_name(field.name, b"references") {
        return Ok(());
    }
    add_ids(alloc, names, field.unfold(alloc)?.as_slice())?;
    Ok(())
}

/// The last 64 ids of all References fields, in the order in which they stand.
pub fn last_references(alloc: Global, fields: &[FoldedField<'_>]) -> Result<Names, NoMemory>
    ensures { IfOk result
        (λ n. reverse (plain_texts n) ≡ last_ids (references (map plain_folded fields.now))) }
{
    let mut names = Names::new(alloc);
    let mut left = fields;
    while let [first, rest @ ..] = left {
        add_field(alloc, &mut names, first)?;
        left = rest;
    }
    Ok(names)
}
