//! A piece at the front of a text.

ghost use Rattle.std.specs.Prelude.{◌≡◌, ◌<◌, drop, length};
ghost use Rattle.expando.specs.Pieces as spec;

use bstr::decode_utf8;

/// What a piece at the front of a text stands for, and how many bytes it takes behind its first.
#[derive(Drop)]
pub struct Piece<X> {
    pub value: X,
    pub more: usize,
}

/// How many bytes behind its first a piece takes that leaves the rest of a text.
pub fn more_bytes(text: &[u8], rest: &[u8]) -> usize
    ensures { result ≡ spec.more_bytes text.now rest.now }
{
    text.len().saturating_sub(rest.len()).saturating_sub(1)
}

/// The character at the front, or `?` for a byte that is none.
pub fn char_at(text: &[u8]) -> Piece<char>
    ensures { result ≡ spec.char_at text.now }
{
    match decode_utf8(text) {
        (Some(c), size) => Piece {
            value: c,
            more: size.saturating_sub(1),
        },
        (None, _) => Piece {
            value: '?',
            more: 0,
        },
    }
}

/// What stands behind so many bytes, or nothing where there are fewer.
pub fn behind_bytes(text: &[u8], count: usize) -> &[u8]
    ensures { result.now ≡ drop count text.now }
{
    text.get(count..).unwrap_or(b"")
}

/// What stands behind the first byte and so many more.
pub fn behind_piece(text: &[u8], more: usize) -> &[u8]
    requires { 0 < length text.now }
    ensures value { result.now ≡ drop more (drop 1 text.now) }
    ensures shorter { length result.now < length text.now }
{
    let (_, rest) = text.split_at(1);
    behind_bytes(rest, more)
}
