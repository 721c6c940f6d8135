//! A key at the front of a text.

ghost use Rattle.std.specs.Prelude.{◌≡◌, ◌<◌, drop, length};
ghost use Rattle.keymap.specs.Pieces as spec;

use crate::key::Key;
use bstr::decode_lossy;

/// A key at the front of a text, and how many bytes it takes behind its first.
#[derive(Clone, Copy, Debug)]
pub struct KeyPiece {
    pub key: Key,
    pub more: usize,
}

impl KeyPiece {
    /// The first character as a key.
    pub fn read_char(text: &[u8]) -> KeyPiece
        requires { 0 < length text.now }
        ensures value { spec.plain_piece result ≡ spec.one_char text.now }
        ensures within { result.more < length text.now }
    {
        let (c, size) = decode_lossy(text);
        KeyPiece {
            key: char_key(c),
            more: size - 1,
        }
    }
}

fn char_key(c: char) -> Key
    ensures { result ≡ spec.char_key c }
{
    match c {
        '\n' => Key::Char('\r'),
        _ => Key::Char(c),
    }
}

/// What stands behind the first byte and so many more, or nothing where there are fewer.
pub fn behind_piece(text: &[u8], more: usize) -> &[u8]
    requires { 0 < length text.now }
    ensures value { result.now ≡ drop more (drop 1 text.now) }
    ensures shorter { length result.now < length text.now }
{
    let (_, rest) = text.split_at(1);
    rest.get(more..).unwrap_or(b"")
}
