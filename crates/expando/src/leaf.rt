//! The pieces of a format that stand outside conditions and in their branches.

ghost use Rattle.std.specs.Prelude.{◌≡◌, ◌+◌, ◌<◌, ◌^◌, length, option_map, IfOk};
ghost use Rattle.expando.specs.Leaves as spec;
ghost use Rattle.expando.specs.Pieces.{Gives, piece_map};

use crate::error::FormatError;
use crate::field::{Field, field_at, owned_field};
use crate::piece::{Piece, behind_bytes, behind_piece, char_at, more_bytes};
use mail_base::{Bytes, NoMemory, Series};
use std::alloc::Global;

/// A piece of a format that is no condition.
#[derive(Drop)]
pub enum Leaf<I> {
    Text(char),
    Value(Field<I>),
    /// Fills with the character, so that what follows ends at the last column.
    Fill(char),
    /// Fills with the character up to the last column.
    ToEnd(char),
}

// The character that fills, and what follows.
fn filler_at(text: &[u8]) -> Option<(char, &[u8])>
    ensures { option_map (λ p. (p.0, p.1.now)) result ≡ spec.filler_at text.now }
{
    let (_, rest) = text.split_first()?;
    let Piece { value: c, more } = char_at(text);
    Some((c, behind_bytes(rest, more)))
}

// What a percent sign begins that stands before the text.
fn behind_percent<'a>(text: &'a [u8], letters: &[u8]) -> Option<(Leaf<&'a [u8]>, &'a [u8])>
    ensures { option_map (λ p. (spec.leaf_map (λ i. i.now) p.0, p.1.now)) result
        ≡ spec.behind_percent letters.now text.now }
{
    match text {
        [] => None,
        [b'%', rest @ ..] => Some((Leaf::Text('%'), rest)),
        [b'>', rest @ ..] => {
            let (c, rest) = filler_at(rest)?;
            Some((Leaf::Fill(c), rest))
        }
        [b'|', rest @ ..] => {
            let (c, rest) = filler_at(rest)?;
            Some((Leaf::ToEnd(c), rest))
        }
        _ => {
            let (field, rest) = field_at(text, letters)?;
            Some((Leaf::Value(field), rest))
        }
    }
}

// The first leaf of a text, or nothing where its percent sign begins none.
fn leaf_at<'a>(text: &'a [u8], letters: &[u8]) -> Option<Piece<Leaf<&'a [u8]>>>
    ensures { option_map (piece_map (spec.leaf_map (λ i. i.now))) result
        ≡ spec.leaf_at letters.now text.now }
{
    match text {
        [] => None,
        [b'%', behind @ ..] => {
            let (value, rest) = behind_percent(behind, letters)?;
            Some(Piece {
                value,
                more: more_bytes(text, rest),
            })
        }
        _ => {
            let Piece { value: c, more } = char_at(text);
            Some(Piece {
                value: Leaf::Text(c),
                more,
            })
        }
    }
}

fn owned_leaf(alloc: Global, leaf: Leaf<&[u8]>) -> Result<Leaf<Bytes>, NoMemory>
    ensures { IfOk result (λ l. spec.leaf_map (λ i. i.items) l
        ≡ spec.leaf_map (λ i. i.now) leaf.entry) }
{
    match leaf {
        Leaf::Text(c) => Ok(Leaf::Text(c)),
        Leaf::Fill(c) => Ok(Leaf::Fill(c)),
        Leaf::ToEnd(c) => Ok(Leaf::ToEnd(c)),
        Leaf::Value(field) => Ok(Leaf::Value(owned_field(alloc, field)?)),
    }
}

/// The first leaf of a text that stands at a place.
pub fn read_leaf(
    alloc: Global,
    text: &[u8],
    letters: &[u8],
    place: usize,
) -> Result<Piece<Leaf<Bytes>>, FormatError>
    ensures { Gives (piece_map (spec.leaf_map (λ i. i.items))) result
        (spec.first_leaf letters.now place text.now) }
{
    let Some(Piece { value, more }) = leaf_at(text, letters) else {
        return Err(FormatError::BadFormat(place));
    };
    let value = owned_leaf(alloc, value)?;
    Ok(Piece { value, more })
}

/// The leaves of a text that stands at a place.
pub fn read_leaves(
    alloc: Global,
    text: &[u8],
    letters: &[u8],
    place: usize,
) -> Result<Series<Leaf<Bytes>>, FormatError>
    requires { place + length text.now < 2 ^ 64 }
    ensures { Gives spec.plain_leaves result (spec.leaves letters.now place text.now) }
{
    let mut leaves = Series::new(alloc);
    let mut left = text;
    while !left.is_empty() {
        let at = place + (text.len() - left.len());
        let piece = read_leaf(alloc, left, letters, at)?;
        leaves.push(piece.value)?;
        left = behind_piece(left, piece.more);
    }
    Ok(leaves)
}
