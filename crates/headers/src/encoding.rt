//! The encodings of encoded words (RFC 2047, section 4).

ghost use Rattle.std.specs.Prelude.{◌≡◌, option_map, IfOk};
ghost use Rattle.headers.specs.Encoding as spec;

use mail_base::{Bytes, NoMemory, decode_base64, read_hex_byte};
use std::alloc::Global;

/// How the text of an encoded word is written (RFC 2047, section 4).
#[derive(Clone, Copy)]
pub enum Encoding {
    Base64,
    Quoted,
}

impl Encoding {
    /// The encoding that a letter names, in either case.
    pub fn from_letter(letter: u8) -> Option<Encoding>
        ensures { result ≡ spec.encoding_of letter }
    {
        match letter {
            b'B' | b'b' => Some(Encoding::Base64),
            b'Q' | b'q' => Some(Encoding::Quoted),
            _ => None,
        }
    }

    /// The bytes of a text, unless it is malformed.
    pub fn decode(self, alloc: Global, text: &[u8]) -> Result<Option<Bytes>, NoMemory>
        ensures { IfOk result (λ o. option_map (λ b. b.items) o ≡ spec.bytes_of self text.now) }
    {
        match self {
            Encoding::Base64 => decode_base64(alloc, text),
            Encoding::Quoted => decode_quoted(alloc, text),
        }
    }
}

// The byte that stands at the front of a text of the "Q" encoding, and what follows it.
fn quoted_byte(first: u8, rest: &[u8]) -> Option<(u8, &[u8])>
    ensures { option_map (λ p. (p.0, p.1.now)) result ≡ spec.quoted_byte first rest.now }
{
    match first {
        b'_' => Some((b' ', rest)),
        b'=' => read_hex_byte(rest),
        byte => Some((byte, rest)),
    }
}

fn decode_quoted(alloc: Global, text: &[u8]) -> Result<Option<Bytes>, NoMemory>
    ensures { IfOk result (λ o. option_map (λ b. b.items) o ≡ spec.quoted_from 0 text.now) }
{
    let mut bytes = Bytes::new(alloc);
    let mut left = text;
    while let [first, rest @ ..] = left {
        let Some((byte, rest)) = quoted_byte(*first, rest) else {
            return Ok(None);
        };
        bytes.push(byte)?;
        left = rest;
    }
    Ok(Some(bytes))
}
