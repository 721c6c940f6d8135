//! Bytes shown as UTF-8, with a `?` in place of each malformed byte.

ghost use Rattle.std.specs.Prelude.{◌≡◌, ◌≤◌, ◌<◌, ◌++◌, None, OnOk, IfSome, length, take, drop};
ghost use Rattle.std.specs.Prelude.{replicate};
ghost use Rattle.std.specs.Str.{IsUtf8};
ghost use Rattle.bstr.specs.Utf8.{decoded};
ghost use Rattle.mail_base.specs.Shown as spec;

use crate::{Line, NoMemory};
use bstr::decode_utf8;

// How many bytes of UTF-8 stand at the front.
fn text_len(bytes: &[u8]) -> usize
    ensures within { result ≤ length bytes.now }
    ensures utf8 { IsUtf8 (take result bytes.now) }
    ensures behind { (decoded (drop result bytes.now)).char ≡ None }
{
    match str::from_utf8(bytes) {
        Ok(_) => bytes.len(),
        Err(fault) => fault.valid_up_to(),
    }
}

// How many bytes of a malformed piece stand at the front.
fn piece_len(bytes: &[u8]) -> usize
    ensures within { result ≤ length bytes.now }
    ensures text { spec.utf8_text bytes.now
        ≡ replicate result 63 ++ spec.utf8_text (drop result bytes.now) }
    ensures some { 0 < length bytes.now → (decoded bytes.now).char ≡ None → 0 < result }
{
    match decode_utf8(bytes) {
        (None, size) => size,
        (Some(_), _) => 0,
    }
}

// How many malformed bytes stand at the front.
fn malformed_len(bytes: &[u8]) -> usize
    ensures within { result ≤ length bytes.now }
    ensures text { spec.utf8_text bytes.now
        ≡ replicate result 63 ++ spec.utf8_text (drop result bytes.now) }
    ensures some { 0 < length bytes.now → (decoded bytes.now).char ≡ None → 0 < result }
{
    let mut len = piece_len(bytes);
    let mut more = len;
    while more > 0 {
        more = piece_len(&bytes[len..]);
        len += more;
    }
    len
}

fn push_marks(line: &mut Line, count: usize) -> Result<(), NoMemory>
    ensures { OnOk result (line.new.items ≡ line.old.items ++ replicate count 63) }
{
    for _i in 0..count {
        line.push(b'?')?;
    }
    Ok(())
}

/// Adds the bytes at the end of the line, as UTF-8 with a `?` in place of each malformed byte. For
/// want of memory their front may stand there.
#[tactic(auto, using(crate::proofs::ShownLemmas::shown_utf8))]
pub fn append_utf8(line: &mut Line, bytes: &[u8]) -> Result<(), NoMemory>
    ensures { OnOk result (line.new.items ≡ line.old.items ++ spec.utf8_text bytes.now) }
{
    match str::from_utf8(bytes) {
        Ok(text) => line.append(text),
        Err(_) => append_runs(line, bytes),
    }
}

// Adds the runs of UTF-8 of the bytes, and a `?` for each byte between them.
fn append_runs(line: &mut Line, bytes: &[u8]) -> Result<(), NoMemory>
    ensures { OnOk result (line.new.items ≡ line.old.items ++ spec.utf8_text bytes.now) }
{
    line.reserve(bytes.len())?;
    let mut left = bytes;
    while !left.is_empty() {
        let (text, behind) = left.split_at(text_len(left));
        let (marked, rest) = behind.split_at(malformed_len(behind));
        line.append_bytes(text)?;
        push_marks(line, marked.len())?;
        left = rest;
    }
    Ok(())
}
