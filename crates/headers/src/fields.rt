//! The fields of a header block (RFC 5322, section 2.2).

ghost use Rattle.std.specs.Prelude.{◌≡◌, map, option_map, IfOk};
ghost use Rattle.mail_base.specs.Lines.{message_fields};
ghost use Rattle.headers.specs.Field.{plain_field, plain_fields};
ghost use Rattle.headers.specs.FoldedField.{plain_folded};
ghost use Rattle.headers.specs.Values as spec;

use crate::field::{Field, Fields};
use crate::folded_field::FoldedField;
use mail_base::{NoMemory, is_same_name};
use std::alloc::Global;

// Room that is enough for most header blocks.
const ROOM: usize = 16;

/// The fields of the message's header block as they stand there.
pub fn folded_fields(alloc: Global, raw: &[u8]) -> Result<Vec<FoldedField<'_>>, NoMemory>
    ensures { IfOk result (λ f. map plain_folded f.items ≡ message_fields raw.now) }
{
    let mut fields = Vec::with_capacity(alloc, ROOM)?;
    let mut left = raw;
    while let Some((field, rest)) = FoldedField::next(left) {
        fields.push(field)?;
        left = rest;
    }
    Ok(fields)
}

/// Copies of the fields, each with its value on one line.
pub fn copies_of(alloc: Global, fields: &[FoldedField<'_>]) -> Result<Fields, NoMemory>
    ensures { IfOk result (λ f. plain_fields f ≡ map plain_folded fields.now) }
{
    let mut copies = Vec::with_capacity(alloc, fields.len())?;
    let mut left = fields;
    while let [first, rest @ ..] = left {
        copies.push(first.to_field(alloc)?)?;
        left = rest;
    }
    Ok(Fields::from_vec(copies))
}

/// The fields of the message's header block.
pub fn read_fields(alloc: Global, raw: &[u8]) -> Result<Fields, NoMemory>
    ensures { IfOk result (λ f. plain_fields f ≡ message_fields raw.now) }
{
    let fields = folded_fields(alloc, raw)?;
    copies_of(alloc, fields.as_slice())
}

/// The value of the first field of the name.
pub fn first_value<'a>(fields: &'a [Field], name: &[u8]) -> Option<&'a [u8]>
    ensures { option_map (λ r. r.now) result
        ≡ spec.first_value name.now (map plain_field fields.now) }
{
    let mut left = fields;
    while let [first, rest @ ..] = left {
        if is_same_name(first.name.as_slice(), name) {
            return Some(first.value.as_slice());
        }
        left = rest;
    }
    None
}
