//! The header of a message as it is shown.

ghost use Rattle.std.specs.Prelude.{◌≡◌, ◌++◌, ◌∷◌, [], filter, map, IfOk, OnOk};
ghost use Rattle.mail_base.specs.Series.{plain_texts};
ghost use Rattle.headers.specs.Field.{plain_field};
ghost use Rattle.headers.specs.Values.{is_named};
ghost use Rattle.message_text.specs.Header as spec;
ghost use Rattle.message_text.specs.Weeding.{in_order, plain_weeding};

use crate::weeding::{Weeding, others};
use headers::{Field, decode_words, read_fields};
use mail_base::{Bytes, Line, Lines, NoMemory, append_utf8, is_same_name};
use std::alloc::Global;

// A field on one line.
fn field_line(alloc: Global, field: &Field) -> Result<Line, NoMemory>
    ensures { IfOk result (λ l. l.items ≡ spec.field_line (plain_field field.now)) }
{
    let mut line = Line::new(alloc);
    append_utf8(&mut line, field.name.as_slice())?;
    line.append(": ")?;
    line.append(decode_words(alloc, field.value.as_slice())?.as_str())?;
    Ok(line)
}

fn add_field(alloc: Global, lines: &mut Lines, field: &Field) -> Result<(), NoMemory>
    ensures { OnOk result (plain_texts lines.new
        ≡ plain_texts lines.old ++ spec.field_line (plain_field field.now) ∷ []) }
{
    lines.push(field_line(alloc, field)?)
}

// Adds the fields of the name.
fn add_named(
    alloc: Global,
    lines: &mut Lines,
    fields: &[&Field],
    name: &[u8],
) -> Result<(), NoMemory>
    ensures { OnOk result (plain_texts lines.new ≡ plain_texts lines.old ++ map spec.field_line
        (filter (is_named name.now) (map (λ f. plain_field f.now) fields.now))) }
{
    let mut left = fields;
    while let [first, rest @ ..] = left {
        if is_same_name(first.name.as_slice(), name) {
            add_field(alloc, lines, first)?;
        }
        left = rest;
    }
    Ok(())
}

fn add_fields(alloc: Global, lines: &mut Lines, fields: &[&Field]) -> Result<(), NoMemory>
    ensures { OnOk result (plain_texts lines.new ≡ plain_texts lines.old
        ++ map spec.field_line (map (λ f. plain_field f.now) fields.now)) }
{
    let mut left = fields;
    while let [first, rest @ ..] = left {
        add_field(alloc, lines, first)?;
        left = rest;
    }
    Ok(())
}

// Adds fields, those of the names first.
fn add_in_order(
    alloc: Global,
    lines: &mut Lines,
    names: &[Bytes],
    mut fields: Vec<&Field>,
) -> Result<(), NoMemory>
    ensures { OnOk result (plain_texts lines.new ≡ plain_texts lines.old ++ map spec.field_line
        (in_order (map (λ n. n.items) names.now)
        (map (λ f. plain_field f.now) fields.entry.items))) }
{
    let mut left = names;
    while let [first, rest @ ..] = left {
        let name = first.as_slice();
        add_named(alloc, lines, fields.as_slice(), name)?;
        fields = others(alloc, fields.as_slice(), name)?;
        left = rest;
    }
    add_fields(alloc, lines, fields.as_slice())
}

/// Adds the header of a message that has the text.
pub fn add_header(
    alloc: Global,
    lines: &mut Lines,
    text: &[u8],
    weed: &Weeding,
) -> Result<(), NoMemory>
    ensures { OnOk result (plain_texts lines.new
        ≡ plain_texts lines.old ++ spec.header_lines (plain_weeding weed.now) text.now) }
{
    let fields = read_fields(alloc, text)?;
    let kept = weed.kept(alloc, fields.as_slice())?;
    add_in_order(alloc, lines, weed.names(), kept)
}
