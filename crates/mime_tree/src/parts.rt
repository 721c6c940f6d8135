//! The parts of a message in the order of reading (RFC 2046, section 5).

ghost use Rattle.std.specs.Prelude.{◌≡◌, ◌+◌, ◌++◌, ◌<◌, ◌^◌, length, All, option_map, Some, None};
ghost use Rattle.std.specs.Prelude.{IfOk, OnOk, IsErrOf};
ghost use Rattle.mime_tree.specs.Order.{AreInOrder, StandsWithin};
ghost use Rattle.mime_tree.specs.Parts as spec;
ghost use Rattle.mime_tree.specs.Part.{plain_parts};
ghost use Rattle.mime_tree.specs.Section.{plain_section};

use crate::dash_lines::read_dash_starts;
use crate::entity::{Entity, holds_parts, named_type, part_of};
use crate::part::Parts;
use crate::section::Section;
use headers::read_fields;
use mail_base::NoMemory;
use std::alloc::Global;
use thiserror::Error;

// How many levels of parts a message may have: the message itself, and 32 below it.
const LEVELS: u32 = 33;

/// Why the parts of a message are not read.
#[derive(Clone, Copy, Debug, PartialEq, Eq, Error)]
pub enum MimeError {
    /// A part stands in more than 32 others.
    #[error("nesting too deep")]
    TooDeep,
    /// Memory ran out.
    #[error("no memory")]
    NoMemory,
}

impl From<NoMemory> for MimeError {
    ghost use Rattle.mime_tree.specs.declared.parts.MimeError.TheVariants as MimeError;

    ghost from_gives = { λ _ e. e ≡ MimeError.NoMemory };

    fn from(_: NoMemory) -> Self {
        MimeError::NoMemory
    }
}

// Adds the part of a section and those that stand in it, which may be so many levels deep with
// itself.
fn add_parts(
    alloc: Global,
    parts: &mut Parts,
    section: Section<'_>,
    levels: u32,
    nesting: u32,
) -> Result<(), MimeError>
    requires { levels + nesting < 2 ^ 32 }
    ensures ok { OnOk result (option_map (λ more. plain_parts parts.old ++ more)
        (spec.parts_in levels nesting (plain_section section.entry))
        ≡ Some (plain_parts parts.new)) }
    ensures too_deep { IsErrOf result MimeError.TooDeep
        → spec.parts_in levels nesting (plain_section section.entry) ≡ None }
{
    if levels == 0 {
        return Err(MimeError::TooDeep);
    }
    let Entity { part, children } = Entity::read(alloc, section, nesting)?;
    parts.push(part)?;
    let mut left = children.as_slice();
    while let [first, rest @ ..] = left {
        add_parts(alloc, parts, *first, levels - 1, nesting + 1)?;
        left = rest;
    }
    Ok(())
}

// Adds the parts of a message, and those that stand in it.
fn add_message(alloc: Global, parts: &mut Parts, raw: &[u8]) -> Result<(), MimeError>
    ensures ok { OnOk result (option_map (λ more. plain_parts parts.old ++ more)
        (spec.parts_of raw.now) ≡ Some (plain_parts parts.new)) }
    ensures too_deep { IsErrOf result MimeError.TooDeep → spec.parts_of raw.now ≡ None }
{
    let dashes = read_dash_starts(alloc, raw)?;
    let whole = Section {
        start: 0,
        text: raw,
        in_digest: false,
        dashes: dashes.as_slice(),
    };
    add_parts(alloc, parts, whole, LEVELS, 0)
}

/// The parts of a message in the order of reading, each before those that stand in it (RFC 2046,
/// section 5).
pub fn read_parts(alloc: Global, raw: &[u8]) -> Result<Parts, MimeError>
    ensures parts { IfOk result (λ p. spec.parts_of raw.now ≡ Some (plain_parts p)) }
    ensures too_deep { IsErrOf result MimeError.TooDeep → spec.parts_of raw.now ≡ None }
    ensures order { IfOk result (λ p. AreInOrder (plain_parts p)) }
    ensures within { IfOk result (λ p. All (StandsWithin (length raw.now)) p.items) }
{
    let mut parts = Parts::new(alloc);
    let fields = read_fields(alloc, raw)?;
    let content = named_type(alloc, fields.as_slice(), false)?;
    if holds_parts(content.as_slice()) {
        add_message(alloc, &mut parts, raw)?;
        return Ok(parts);
    }
    // No part stands in this one, so that its lines are not looked at.
    parts.push(part_of(alloc, 0, raw, 0, fields.as_slice(), content)?)?;
    Ok(parts)
}
