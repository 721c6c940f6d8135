//! What a tail file and a lock hold.

ghost use Rattle.std.specs.Prelude.{◌≡◌, IfOk, None, Some, if◌then◌else◌, option_map};
ghost use Rattle.folder_tails.specs.Tails as spec;

use mail_base::{Bytes, NoMemory};
use std::alloc::Global;

/// What is written into a tail file.
pub fn tail_text(alloc: Global, head: &[u8], at: u64, tail: &[u8]) -> Result<Bytes, NoMemory>
    ensures { IfOk result (λ text. text.items ≡ spec.tail_text head.now at tail.now) }
{
    let mut text = Bytes::new(alloc);
    text.append(head)?;
    text.append(at.to_string(alloc)?.as_bytes())?;
    text.push(b'\n')?;
    text.append(tail)?;
    Ok(text)
}

/// What is written into a lock.
pub fn owner_line(alloc: Global, owner: &[u8]) -> Result<Bytes, NoMemory>
    ensures { IfOk result (λ line. line.items ≡ spec.line_of owner.now) }
{
    let mut line = Bytes::copy_of(alloc, owner)?;
    line.push(b'\n')?;
    Ok(line)
}

// The number with one digit more, where it stays one of 64 bits.
fn with_digit(number: u64, digit: u8) -> Option<u64>
    ensures { result ≡ (if spec.is_next_digit number digit then Some (spec.with_digit number digit)
        else None) }
{
    if !digit.is_ascii_digit() {
        return None;
    }
    number.checked_mul(10)?.checked_add((digit - b'0') as u64)
}

// The number up to the end of the line, and what stands behind it.
fn number_line(bytes: &[u8]) -> Option<(u64, &[u8])>
    ensures { option_map (λ found. (found.0, found.1.now)) result ≡ spec.number_line 0 bytes.now }
{
    let mut number = 0;
    let mut left = bytes;
    while let [byte, rest @ ..] = left {
        if *byte == b'\n' {
            return Some((number, rest));
        }
        number = with_digit(number, *byte)?;
        left = rest;
    }
    None
}

/// The offset and the bytes that a tail file holds.
pub fn read_tail(bytes: &[u8]) -> Option<(u64, &[u8])>
    ensures { option_map (λ found. (found.0, found.1.now)) result ≡ spec.read_tail bytes.now }
{
    let Some((head, rest)) = bytes.split_at_checked(5) else {
        return None;
    };
    if head != b"mbox ".as_slice() && head != b"mmdf ".as_slice() {
        return None;
    }
    number_line(rest)
}
