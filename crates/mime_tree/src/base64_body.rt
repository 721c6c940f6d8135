//! Bodies in base64 (RFC 2045, section 6.8).

ghost use Rattle.std.specs.Prelude.{◌≡◌, ◌++◌, ◌<◌, length, filter, not, position, IfOk, IfSome};
ghost use Rattle.std.specs.Prelude.{nat_lt, IfNone, OnOk};
ghost use Rattle.std.specs.List.{list_all};
ghost use Rattle.mime_tree.specs.Base64Body as spec;

use mail_base::{Bytes, NoMemory, decode_base64, is_blank, split_around, split_once};
use std::alloc::Global;

fn is_solid(byte: u8) -> bool
    ensures { result ≡ spec.is_solid byte }
{
    !(is_blank(byte) || byte == b'\n' || byte == b'\r')
}

// The place of the first white space.
fn space_at(text: &[u8]) -> Option<usize>
    ensures value { result ≡ position (λ b. not (spec.is_solid b)) text.now }
    ensures within { IfSome result (λ at. at < length text.now) }
{
    text.iter().position(|b| !is_solid(*b))
}

// What stands before and behind the first white space.
fn split_at_space(text: &[u8]) -> Option<(&[u8], &[u8])>
    ensures none { IfNone result (filter spec.is_solid text.now ≡ text.now) }
    ensures some { IfSome result
        (λ p. filter spec.is_solid text.now ≡ p.0.now ++ filter spec.is_solid p.1.now) }
    ensures shorter { IfSome result (λ p. length p.1.now < length text.now) }
{
    match space_at(text) {
        Some(place) => Some(split_around(text, place)),
        None => None,
    }
}

// Whether each byte is above the blank in US-ASCII, so that none is white space. No byte ends the
// loop, so that many are tested at once.
fn is_above_blank(text: &[u8]) -> bool
    ensures { result ≡ list_all (λ b. nat_lt 32 b) text.now }
{
    let mut all = true;
    for b in text {
        all &= *b > b' ';
    }
    all
}

// Adds the runs of a text between its white space.
fn append_runs(solid: &mut Bytes, text: &[u8]) -> Result<(), NoMemory>
    ensures { OnOk result (solid.new.items ≡ solid.old.items ++ filter spec.is_solid text.now) }
{
    let mut left = text;
    while let Some((run, rest)) = split_at_space(left) {
        solid.append(run)?;
        left = rest;
    }
    solid.append(left)
}

// Adds a text without its white space. Most lines have none, and that is the faster test.
fn append_solid(solid: &mut Bytes, text: &[u8]) -> Result<(), NoMemory>
    ensures { OnOk result (solid.new.items ≡ solid.old.items ++ filter spec.is_solid text.now) }
{
    if is_above_blank(text) {
        solid.append(text)
    } else {
        append_runs(solid, text)
    }
}

// Room for the whole text is made first, since most of it is no white space.
fn without_white_space(alloc: Global, text: &[u8]) -> Result<Bytes, NoMemory>
    ensures { IfOk result (λ b. b.items ≡ filter spec.is_solid text.now) }
{
    let mut solid = Bytes::new(alloc);
    solid.reserve(text.len())?;
    let mut left = text;
    while let Some((line, rest)) = split_once(b'\n', left) {
        append_solid(&mut solid, line)?;
        left = rest;
    }
    append_solid(&mut solid, left)?;
    Ok(solid)
}

/// The bytes of a body in base64 (RFC 2045, section 6.8); one that does not decode stays as
/// written.
pub fn decode_base64_body(alloc: Global, text: &[u8]) -> Result<Bytes, NoMemory>
    ensures { IfOk result (λ b. b.items ≡ spec.from_base64 text.now) }
{
    let solid = without_white_space(alloc, text)?;
    match decode_base64(alloc, solid.as_slice())? {
        Some(bytes) => Ok(bytes),
        None => Bytes::copy_of(alloc, text),
    }
}
