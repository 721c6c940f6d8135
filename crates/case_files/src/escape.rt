//! The escapes of case files: `\n`, `\r`, `\t`, `\\`, `\}`, `\xNN`, and a piece repeated,
//! `\{N:PIECE}`, in which `\#` is the number of the turn, from 1.

use crate::CaseFault;
use mail_base::{Bytes, NoMemory};
use std::alloc::Global;

/// What stands next in a text with escapes.
#[derive(Clone, Copy)]
enum Unit<'a> {
    Byte(u8),
    /// The number of the turn.
    Turn,
    Repeated { times: u64, piece: &'a [u8] },
}

/// The bytes of a text with its escapes replaced.
pub fn unescaped(alloc: Global, text: &[u8]) -> Result<Bytes, CaseFault> {
    let mut bytes = Bytes::new(alloc);
    let mut left = text;
    for _ in 0..text.len() {
        let Some((unit, rest)) = next_unit(left)? else {
            break;
        };
        match unit {
            Unit::Byte(byte) => bytes.push(byte)?,
            Unit::Turn => return Err(CaseFault::Escape),
            Unit::Repeated { times, piece } => put_turns(alloc, times, piece, &mut bytes)?,
        }
        left = rest;
    }
    Ok(bytes)
}

fn put_turns(alloc: Global, times: u64, piece: &[u8], bytes: &mut Bytes) -> Result<(), CaseFault> {
    for turn in 1..=times {
        put_turn(alloc, turn, piece, bytes)?;
    }
    Ok(())
}

fn put_turn(alloc: Global, turn: u64, piece: &[u8], bytes: &mut Bytes) -> Result<(), CaseFault> {
    let mut left = piece;
    for _ in 0..piece.len() {
        let Some((unit, rest)) = next_unit(left)? else {
            break;
        };
        match unit {
            Unit::Byte(byte) => bytes.push(byte)?,
            Unit::Turn => bytes.append(format!(in alloc; "{turn}")?.as_bytes())?,
            Unit::Repeated { .. } => return Err(CaseFault::Escape),
        }
        left = rest;
    }
    Ok(())
}

fn next_unit(text: &[u8]) -> Result<Option<(Unit<'_>, &[u8])>, CaseFault> {
    match text {
        [] => Ok(None),
        [b'\\', b'n', rest @ ..] => Ok(Some((Unit::Byte(b'\n'), rest))),
        [b'\\', b'r', rest @ ..] => Ok(Some((Unit::Byte(b'\r'), rest))),
        [b'\\', b't', rest @ ..] => Ok(Some((Unit::Byte(b'\t'), rest))),
        [b'\\', b'\\', rest @ ..] => Ok(Some((Unit::Byte(b'\\'), rest))),
        [b'\\', b'}', rest @ ..] => Ok(Some((Unit::Byte(b'}'), rest))),
        [b'\\', b'#', rest @ ..] => Ok(Some((Unit::Turn, rest))),
        [b'\\', b'x', high, low, rest @ ..] => {
            let byte = hex_value(*high)?
                .saturating_mul(16)
                .saturating_add(hex_value(*low)?);
            Ok(Some((Unit::Byte(byte), rest)))
        }
        [b'\\', b'{', rest @ ..] => Ok(Some(repeated(rest)?)),
        [b'\\', ..] => Err(CaseFault::Escape),
        [byte, rest @ ..] => Ok(Some((Unit::Byte(*byte), rest))),
    }
}

/// A number, a colon and a piece up to the first `}` that is not escaped.
fn repeated(text: &[u8]) -> Result<(Unit<'_>, &[u8]), CaseFault> {
    let Some(colon) = text.iter().position(|byte| *byte == b':') else {
        return Err(CaseFault::Escape);
    };
    let times = crate::case::read_number(&text[..colon])?;
    let behind = &text[colon + 1..];
    let Some(end) = piece_end(behind) else {
        return Err(CaseFault::Escape);
    };
    let piece = behind.get(..end).unwrap_or(b"");
    let rest = behind.get(end.saturating_add(1)..).unwrap_or(b"");
    Ok((Unit::Repeated { times, piece }, rest))
}

fn piece_end(text: &[u8]) -> Option<usize> {
    let mut is_escaped = false;
    for (place, byte) in text.iter().enumerate() {
        if *byte == b'}' && !is_escaped {
            return Some(place);
        }
        is_escaped = *byte == b'\\' && !is_escaped;
    }
    None
}

fn hex_value(digit: u8) -> Result<u8, CaseFault> {
    match digit {
        b'0'..=b'9' => Ok(digit - b'0'),
        b'a'..=b'f' => Ok(digit - b'a' + 10),
        b'A'..=b'F' => Ok(digit - b'A' + 10),
        _ => Err(CaseFault::Escape),
    }
}

/// Bytes as a case file writes them, on one line.
pub fn shown(alloc: Global, bytes: &[u8]) -> Result<Bytes, NoMemory> {
    let mut text = Bytes::new(alloc);
    for byte in bytes {
        match *byte {
            b'\n' => text.append(b"\\n")?,
            b'\r' => text.append(b"\\r")?,
            b'\t' => text.append(b"\\t")?,
            b'\\' => text.append(b"\\\\")?,
            b' '..=b'~' => text.push(*byte)?,
            _ => text.append(format!(in alloc; "\\x{byte:02x}")?.as_bytes())?,
        }
    }
    Ok(text)
}
