//! The keys of a stream of bytes: UTF-8 and escape forms.

ghost use Rattle.std.specs.Prelude.{◌≡◌, ◌<◌, length};
ghost use Rattle.keymap.specs.Pieces.{plain_piece};
ghost use Rattle.keymap.specs.Stream as spec;

use crate::escape::{Form, is_in_form};
use crate::piece::KeyPiece;
use bstr::decode_utf8;

/// The first key of the bytes, if no more follow.
pub fn first_key(bytes: &[u8]) -> KeyPiece
    requires { 0 < length bytes.now }
    ensures value { plain_piece result ≡ spec.first_key bytes.now }
{
    match Form::find(bytes) {
        Some(Form(text, key)) => KeyPiece {
            key,
            more: text.len().saturating_sub(1),
        },
        None => KeyPiece::read_char(bytes),
    }
}

// Whether a character of several bytes begins with the bytes and goes on.
fn is_in_char(bytes: &[u8]) -> bool
    ensures { result ≡ spec.is_in_char bytes.now }
{
    let (c, size) = decode_utf8(bytes);
    is_lead(bytes) && c.is_none() && size == bytes.len()
}

// Whether the first byte begins a character of several bytes.
fn is_lead(bytes: &[u8]) -> bool
    ensures { result ≡ spec.is_lead bytes.now }
{
    match bytes {
        [] => false,
        [first, ..] => 0xC2 <= *first && *first <= 0xF4,
    }
}

/// Whether the first key depends on the byte that follows.
pub fn is_open(bytes: &[u8]) -> bool
    ensures { result ≡ spec.is_open bytes.now }
{
    bytes.is_empty() || is_in_form(bytes) || is_in_char(bytes)
}
