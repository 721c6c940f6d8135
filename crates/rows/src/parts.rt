//! Cases of the parts of a message (RFC 2045, RFC 2046).

ghost use Rattle.std.specs.Prelude.{◌≤◌, length};

use crate::bodies::put_text;
use case_files::{Answer, Case, CaseFault, Subject};
use mail_base::{Bytes, NoMemory};
use mime_tree::{Encoding, MimeError, Part, Parts, kind_list, read_parts};
use std::alloc::Global;

/// `message` is the raw message. Each `part` is its nesting and its type, and behind semicolons
/// what else is known of it; `place N` is the range of the part of that number, from 1, and `lines
/// N` its text, where it is text.
pub struct MessageParts;

impl Subject for MessageParts {
    fn inputs(&self) -> &[&[u8]] {
        &[b"message"]
    }

    fn answer(&self, alloc: Global, case: &Case, answer: &mut Answer) -> Result<(), CaseFault> {
        let raw = case.need(b"message")?;
        let parts = match read_parts(alloc, raw) {
            Ok(parts) => parts,
            Err(MimeError::TooDeep) => return answer.put(b"refused", b"too deep"),
            Err(MimeError::NoMemory) => return Err(CaseFault::NoMemory),
        };
        put_kinds(alloc, answer, &parts)?;
        let mut number = 0usize;
        for part in parts.as_slice() {
            number = number.saturating_add(1);
            put_all_of(alloc, answer, number, raw, part)?;
        }
        Ok(())
    }
}

fn put_kinds(alloc: Global, answer: &mut Answer, parts: &Parts) -> Result<(), CaseFault> {
    answer.put_count(b"parts", parts.len())?;
    for kind in kind_list(alloc, parts)?.as_slice() {
        answer.put(b"kind", kind.as_slice())?;
    }
    Ok(())
}

// What the part of this number is, where it stands, and its text.
fn put_all_of(
    alloc: Global,
    answer: &mut Answer,
    number: usize,
    raw: &[u8],
    part: &Part,
) -> Result<(), CaseFault>
    requires order { part.now.body_at ≤ part.now.body_end }
    requires within { part.now.body_end ≤ length raw.now }
{
    put_part(alloc, answer, part)?;
    put_place(alloc, answer, number, part)?;
    if part.content.as_slice().starts_with(b"text/") {
        let key = format!(in alloc; "lines {number}")?;
        put_text(alloc, answer, key.as_bytes(), raw, part)?;
    }
    Ok(())
}

fn put_part(alloc: Global, answer: &mut Answer, part: &Part) -> Result<(), CaseFault> {
    let nesting = part.nesting;
    let mut shown = Bytes::copy_of(alloc, format!(in alloc; "{nesting} ")?.as_bytes())?;
    append_part(&mut shown, part)?;
    answer.put(b"part", shown.as_slice())
}

fn append_part(shown: &mut Bytes, part: &Part) -> Result<(), NoMemory> {
    shown.append(part.content.as_slice())?;
    if part.charset.len() > 0 {
        shown.append(b"; charset=")?;
        shown.append(part.charset.as_slice())?;
    }
    if part.filename.len() > 0 {
        shown.append(b"; file=")?;
        shown.append(part.filename.as_slice())?;
    }
    match part.encoding {
        Encoding::Plain => {}
        Encoding::Base64 => shown.append(b"; base64")?,
        Encoding::Quoted => shown.append(b"; quoted-printable")?,
    }
    if part.attachment {
        shown.append(b"; attachment")?;
    }
    Ok(())
}

fn put_place(
    alloc: Global,
    answer: &mut Answer,
    number: usize,
    part: &Part,
) -> Result<(), CaseFault> {
    let start = part.body_at;
    let end = part.body_end;
    let key = format!(in alloc; "place {number}")?;
    let place = format!(in alloc; "{start} {end}")?;
    answer.put(key.as_bytes(), place.as_bytes())
}
