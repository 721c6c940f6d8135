//! What a pattern searches for, in the parts of a message.

ghost use Rattle.std.specs.Prelude.{◌≡◌, ◌++◌, ◌∷◌, [], All, drop, length, map, unwrap_or, IfOk};
ghost use Rattle.std.specs.List.{count_by, flat_map, list_any};
ghost use Rattle.bstr.specs.Text.{lines_of, without_terminator};
ghost use Rattle.mime_tree.specs.Order.{StandsWithin};
ghost use Rattle.mime_tree.specs.Part.{plain_part};
ghost use Rattle.mime_tree.specs.Parts.{parts_of};
ghost use Rattle.patterns_match.specs.Kept.{AreFirst, IsKept, lines_in};
ghost use Rattle.patterns_match.specs.Listings as spec;
ghost use Rattle.patterns_match.specs.Sought.{sought_found};

use crate::asked::Sought;
use crate::kept::{Kept, KeptParts, lines_of};
use bstr::ByteSlice;
use mail_base::{Line, Lines, NoMemory, behind_line};
use mime_tree::Part;
use std::alloc::Global;

// Whether it is found in one of the lines.
fn any_found(sought: &Sought, lines: &[Line]) -> Result<bool, NoMemory>
    ensures { IfOk result (λ found. found
        ≡ list_any (sought_found sought.now) (map (λ l. l.items) lines.now)) }
{
    let mut left = lines;
    while let [first, rest @ ..] = left {
        if sought.is_found(first.as_slice())? {
            return Ok(true);
        }
        left = rest;
    }
    Ok(false)
}

// Whether it is found in a line of those that were decoded.
fn any_decoded(sought: &Sought, decoded: &[Lines]) -> Result<bool, NoMemory>
    ensures { IfOk result (λ found. found
        ≡ list_any (list_any (sought_found sought.now)) (lines_in decoded.now)) }
{
    let mut left = decoded;
    while let [first, rest @ ..] = left {
        if any_found(sought, first.as_slice())? {
            return Ok(true);
        }
        left = rest;
    }
    Ok(false)
}

// Whether it is found in a line of a part, which is decoded and kept behind those before it.
fn next_found(
    alloc: Global,
    sought: &Sought,
    raw: &[u8],
    part: &Part,
    decoded: &mut Vec<Lines>,
) -> Result<bool, NoMemory>
    requires { StandsWithin (length raw.now) part.now }
    ensures value { IfOk result (λ found. found ≡ list_any (sought_found sought.now)
        (spec.part_lines raw.now (plain_part part.now))) }
    ensures kept { IfOk result (λ _. lines_in decoded.new.items
        ≡ lines_in decoded.old.items ++ spec.part_lines raw.now (plain_part part.now) ∷ []) }
{
    let lines = lines_of(alloc, raw, part)?;
    let found = any_found(sought, lines.as_slice())?;
    decoded.push(lines)?;
    Ok(found)
}

// Whether it is found in a line of one of the parts, of which the first are decoded. Others are
// decoded up to the one that has it.
fn any_part(
    alloc: Global,
    sought: &Sought,
    raw: &[u8],
    parts: &[Part],
    decoded: &mut Vec<Lines>,
) -> Result<bool, NoMemory>
    requires within { All (StandsWithin (length raw.now)) parts.now }
    requires first { AreFirst raw.now (map plain_part parts.now) decoded.old.items }
    ensures value { IfOk result (λ found. found ≡ list_any (sought_found sought.now)
        (flat_map (spec.part_lines raw.now) (map plain_part parts.now))) }
    ensures kept { IfOk result
        (λ _. AreFirst raw.now (map plain_part parts.now) decoded.new.items) }
{
    if any_decoded(sought, decoded.as_slice())? {
        return Ok(true);
    }
    while let Some(part) = parts.get(decoded.len()) {
        if next_found(alloc, sought, raw, part, decoded)? {
            return Ok(true);
        }
    }
    Ok(false)
}

// Whether it is found in a line of a body that is not decoded.
fn raw_found(sought: &Sought, body: &[u8]) -> Result<bool, NoMemory>
    ensures { IfOk result (λ found. found ≡ list_any (sought_found sought.now)
        (map without_terminator (lines_of body.now))) }
{
    for line in body.lines() {
        if sought.is_found(line)? {
            return Ok(true);
        }
    }
    Ok(false)
}

// What stands from a place on.
fn text_from(text: &[u8], place: usize) -> &[u8]
    ensures { result.now ≡ drop place text.now }
{
    let (_, rest) = text.split_at(place.min(text.len()));
    rest
}

/// Whether it is found in a line of the body, which begins at the empty line at a place.
pub fn body_found(
    kept: &mut Kept,
    sought: &Sought,
    raw: &[u8],
    body_at: usize,
) -> Result<bool, NoMemory>
    requires { IsKept raw.now kept.old }
    ensures value { IfOk result (λ found. found ≡ list_any (sought_found sought.now)
        (spec.body_lines raw.now body_at (parts_of raw.now))) }
    ensures kept { IfOk result (λ _. IsKept raw.now kept.new) }
{
    kept.read(raw)?;
    match &kept.parts {
        KeptParts::Read(parts) => {
            any_part(kept.alloc, sought, raw, parts.as_slice(), &mut kept.decoded)
        }
        _ => raw_found(sought, behind_line(text_from(raw, body_at))),
    }
}

fn any_kind(sought: &Sought, parts: &[Part]) -> Result<bool, NoMemory>
    ensures { IfOk result (λ found. found ≡ list_any (sought_found sought.now)
        (map (λ p. p.content) (map plain_part parts.now))) }
{
    let mut left = parts;
    while let [first, rest @ ..] = left {
        if sought.is_found(first.content.as_slice())? {
            return Ok(true);
        }
        left = rest;
    }
    Ok(false)
}

/// Whether it is found in the type of a part.
pub fn kind_found(kept: &mut Kept, sought: &Sought, raw: &[u8]) -> Result<bool, NoMemory>
    requires { IsKept raw.now kept.old }
    ensures value { IfOk result (λ found. found ≡ list_any (sought_found sought.now)
        (map (λ p. p.content) (unwrap_or (parts_of raw.now) []))) }
    ensures kept { IfOk result (λ _. IsKept raw.now kept.new) }
{
    kept.read(raw)?;
    match &kept.parts {
        KeptParts::Read(parts) => any_kind(sought, parts.as_slice()),
        _ => Ok(false),
    }
}

fn attached(parts: &[Part]) -> usize
    ensures { result ≡ count_by (λ p. p.attachment) parts.now }
{
    parts.iter().filter(|part| part.attachment).count()
}

/// How many parts are attachments.
pub fn attachments(kept: &mut Kept, raw: &[u8]) -> Result<u64, NoMemory>
    requires { IsKept raw.now kept.old }
    ensures value { IfOk result (λ count. count
        ≡ count_by (λ p. p.attachment) (unwrap_or (parts_of raw.now) [])) }
    ensures kept { IfOk result (λ _. IsKept raw.now kept.new) }
{
    kept.read(raw)?;
    match &kept.parts {
        KeptParts::Read(parts) => Ok(attached(parts.as_slice()) as u64),
        _ => Ok(0),
    }
}
