//! Bodies in quoted-printable (RFC 2045, section 6.7).

ghost use Rattle.std.specs.Prelude.{◌≡◌, ◌++◌, ◌≤◌, length, IfOk, OnOk};
ghost use Rattle.mime_tree.specs.Quoted as spec;

use bstr::ByteSlice;
use mail_base::{
    Bytes, NoMemory, read_hex_byte, split_once, without_last_blanks, without_line_end,
};
use std::alloc::Global;

// The byte that an `=` and what follows it write, and what follows that; a `=` that means nothing
// is itself.
fn escaped_byte(rest: &[u8]) -> (u8, &[u8])
    ensures byte { result.0 ≡ (spec.escaped_byte rest.now).0 }
    ensures text { spec.unquoted_from (spec.escaped_byte rest.now).1 rest.now
        ≡ spec.unquoted result.1.now }
    ensures shorter { length result.1.now ≤ length rest.now }
{
    read_hex_byte(rest).unwrap_or((b'=', rest))
}

// Adds a text with its quoted bytes decoded.
fn append_unquoted(bytes: &mut Bytes, text: &[u8]) -> Result<(), NoMemory>
    ensures { OnOk result (bytes.new.items ≡ bytes.old.items ++ spec.unquoted text.now) }
{
    let mut left = text;
    while let Some((plain, rest)) = split_once(b'=', left) {
        let (byte, rest) = escaped_byte(rest);
        bytes.append(plain)?;
        bytes.push(byte)?;
        left = rest;
    }
    bytes.append(left)?;
    Ok(())
}

// Adds the text of a line and its line end.
fn append_joined(bytes: &mut Bytes, text: &[u8], end: &[u8]) -> Result<(), NoMemory>
    ensures { OnOk result (bytes.new.items ≡ bytes.old.items ++ spec.joined text.now end.now) }
{
    if let [front @ .., b'='] = text {
        return append_unquoted(bytes, front);
    }
    append_unquoted(bytes, text)?;
    bytes.append(end)
}

// Adds the line whose text is given, without its line end.
fn append_ended(bytes: &mut Bytes, text: &[u8], line: &[u8]) -> Result<(), NoMemory>
    requires { length text.now ≤ length line.now }
    ensures { OnOk result (bytes.new.items
        ≡ bytes.old.items ++ spec.quoted_with text.now line.now) }
{
    if text.len() == line.len() {
        return append_unquoted(bytes, line);
    }
    let (_, end) = line.split_at(text.len());
    append_joined(bytes, without_last_blanks(text), end)
}

fn append_line(bytes: &mut Bytes, line: &[u8]) -> Result<(), NoMemory>
    ensures { OnOk result (bytes.new.items ≡ bytes.old.items ++ spec.quoted_line line.now) }
{
    append_ended(bytes, without_line_end(line), line)
}

/// The bytes of a body in quoted-printable (RFC 2045, section 6.7); a `=` that means nothing stands
/// as written.
pub fn decode_quoted(alloc: Global, text: &[u8]) -> Result<Bytes, NoMemory>
    ensures { IfOk result (λ b. b.items ≡ spec.from_quoted text.now) }
{
    let mut bytes = Bytes::new(alloc);
    bytes.reserve(text.len())?;
    for line in text.lines_with_terminator() {
        append_line(&mut bytes, line)?;
    }
    Ok(bytes)
}
