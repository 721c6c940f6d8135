//! Formats of lines.

ghost use Rattle.std.specs.Prelude.{◌≡◌, ◌+◌, ◌<◌, ◌^◌, length, map};
ghost use Rattle.expando.specs.Formats as spec;
ghost use Rattle.expando.specs.Pieces.{Gives, piece_map};

use crate::choice::{Choice, read_choice};
use crate::error::FormatError;
use crate::leaf::{Leaf, read_leaf};
use crate::piece::{Piece, behind_piece};
use mail_base::{Bytes, Series, behind_text};
use std::alloc::Global;
use std::marker::Model;

/// A piece of a format.
#[derive(Drop)]
pub enum FormatPiece {
    Simple(Leaf<Bytes>),
    Either(Choice),
}

/// A format, which contracts see as its pieces.
#[derive(Drop)]
pub struct Format {
    pieces: Series<FormatPiece>,
}

impl Model for Format {
    ghost use Rattle.std.specs.Prelude.{List};
    ghost use Rattle.expando.specs.Formats.{PlainPiece, plain_pieces};

    ghost Value = { List PlainPiece };

    ghost view = { λ f. plain_pieces f.pieces };
}

impl Format {
    pub(crate) fn pieces(&self) -> &[FormatPiece]
        ensures { map spec.plain_piece result.now ≡ self.now }
    {
        self.pieces.as_slice()
    }
}

// The first piece of a text that stands at a place.
fn read_piece(
    alloc: Global,
    text: &[u8],
    letters: &[u8],
    place: usize,
) -> Result<Piece<FormatPiece>, FormatError>
    requires { place + length text.now < 2 ^ 64 }
    ensures { Gives (piece_map spec.plain_piece) result
        (spec.first_piece letters.now place text.now) }
{
    if begins_condition(text) {
        let Piece { value, more } = read_choice(alloc, text, letters, place)?;
        return Ok(Piece {
            value: FormatPiece::Either(value),
            more,
        });
    }
    let Piece { value, more } = read_leaf(alloc, text, letters, place)?;
    Ok(Piece {
        value: FormatPiece::Simple(value),
        more,
    })
}

fn begins_condition(text: &[u8]) -> bool
    ensures { result ≡ spec.begins_condition text.now }
{
    behind_text(b"%?", text).is_some()
}

/// The format that a text is with these letters. Where it is none, the fault is at the first
/// percent sign that begins nothing of a format, or that begins a field of another letter, of more
/// than 500 columns, or of a date whose format has a percent sign before a letter that is none of
/// a date.
pub fn read_format(alloc: Global, text: &[u8], letters: &[u8]) -> Result<Format, FormatError>
    ensures { Gives (λ format. format) result (spec.format_of letters.now text.now) }
{
    let mut pieces = Series::new(alloc);
    let mut left = text;
    while !left.is_empty() {
        let place = text.len() - left.len();
        let piece = read_piece(alloc, left, letters, place)?;
        pieces.push(piece.value)?;
        left = behind_piece(left, piece.more);
    }
    Ok(Format { pieces })
}
