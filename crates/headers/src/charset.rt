//! Charsets, and bytes shown as UTF-8 by the charset that they are in (RFC 2047, section 2).

ghost use Rattle.std.specs.Prelude.{◌≡◌, ◌++◌, ◌≤◌, IfOk, OnOk, length, encode_utf8};
ghost use Rattle.std.specs.Str.{IsAscii, encode_utf8_all};
ghost use Rattle.headers.specs.Charset as spec;

use bstr::ByteSlice;
use mail_base::{Line, NoMemory, append_utf8, is_same_name};
use std::alloc::Global;

/// A charset that is shown (RFC 2047, section 2); the bytes past ASCII of all others are marked, as
/// those of US-ASCII.
#[derive(Clone, Copy, Debug, PartialEq, Eq)]
pub enum Charset {
    Ascii,
    Utf8,
    Latin1,
}

impl Charset {
    /// The charset of a name, in any case.
    pub fn from_name(name: &[u8]) -> Charset
        ensures { result ≡ spec.charset_of name.now }
    {
        if is_same_name(name, b"utf-8") {
            Charset::Utf8
        } else if is_same_name(name, b"iso-8859-1") {
            Charset::Latin1
        } else {
            Charset::Ascii
        }
    }

    /// Bytes of the charset as a line of UTF-8.
    pub fn line_of(self, alloc: Global, bytes: &[u8]) -> Result<Line, NoMemory>
        ensures { IfOk result (λ l. l.items ≡ spec.text_in self bytes.now) }
    {
        let mut line = Line::new(alloc);
        self.append_to(&mut line, bytes)?;
        Ok(line)
    }

    // Adds the bytes at the end of the line, as UTF-8. For want of memory their front may stand
    // there.
    pub(crate) fn append_to(self, line: &mut Line, bytes: &[u8]) -> Result<(), NoMemory>
        ensures { OnOk result (line.new.items ≡ line.old.items ++ spec.text_in self bytes.now) }
    {
        match self {
            Charset::Ascii => append_ascii(line, bytes),
            Charset::Utf8 => append_utf8(line, bytes),
            Charset::Latin1 => append_latin1(line, bytes),
        }
    }
}

// The bytes before the first that is no ASCII, and those from it on.
fn split_at_high(bytes: &[u8]) -> (&[u8], &[u8])
    ensures whole { bytes.now ≡ result.0.now ++ result.1.now }
    ensures ascii { IsAscii result.0.now }
{
    match bytes.find_non_ascii_byte() {
        Some(at) => bytes.split_at(at),
        None => (bytes, &[]),
    }
}

// The front of the bytes that is ASCII, and what follows it. Most lines are ASCII, and that is the
// faster test.
fn split_ascii(bytes: &[u8]) -> (&[u8], &[u8])
    ensures whole { bytes.now ≡ result.0.now ++ result.1.now }
    ensures ascii { IsAscii result.0.now }
{
    if bytes.is_ascii() {
        (bytes, &[])
    } else {
        split_at_high(bytes)
    }
}

// Adds the front of the bytes that is ASCII, and gives what follows it.
fn append_front<'a>(line: &mut Line, bytes: &'a [u8]) -> Result<&'a [u8], NoMemory>
    ensures ascii { IfOk result (λ rest. line.new.items ++ spec.ascii_text rest.now
        ≡ line.old.items ++ spec.ascii_text bytes.now) }
    ensures latin1 { IfOk result (λ rest. line.new.items ++ encode_utf8_all rest.now
        ≡ line.old.items ++ encode_utf8_all bytes.now) }
    ensures shorter { IfOk result (λ rest. length rest.now ≤ length bytes.now) }
{
    let (front, rest) = split_ascii(bytes);
    line.append_bytes(front)?;
    Ok(rest)
}

fn append_ascii(line: &mut Line, bytes: &[u8]) -> Result<(), NoMemory>
    ensures { OnOk result (line.new.items ≡ line.old.items ++ spec.ascii_text bytes.now) }
{
    let mut left = append_front(line, bytes)?;
    while let [first, rest @ ..] = left {
        line.push(if *first < 128 { *first } else { b'?' })?;
        left = append_front(line, rest)?;
    }
    Ok(())
}

// Room is made first for one character past ASCII among eight, since each of them takes two bytes.
fn append_latin1(line: &mut Line, bytes: &[u8]) -> Result<(), NoMemory>
    ensures { OnOk result (line.new.items ≡ line.old.items ++ encode_utf8_all bytes.now) }
{
    line.reserve(bytes.len().saturating_add(bytes.len() / 8))?;
    let mut left = append_front(line, bytes)?;
    while let [first, rest @ ..] = left {
        line.push_char(char::from(*first))?;
        left = append_front(line, rest)?;
    }
    Ok(())
}
