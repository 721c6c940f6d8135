//! Conditions of a format.

ghost use Rattle.std.specs.Prelude.{◌+◌, ◌<◌, ◌^◌, length};
ghost use Rattle.expando.specs.Formats as spec;
ghost use Rattle.expando.specs.Letters.{letter_map};
ghost use Rattle.expando.specs.Pieces.{Gives, piece_map};

use crate::condition::{Condition, branches, condition_at};
use crate::error::FormatError;
use crate::leaf::{Leaf, read_leaves};
use crate::letter::{Letter, owned_letter};
use crate::piece::{Piece, more_bytes};
use mail_base::{Bytes, Series};
use std::alloc::Global;

/// A condition: what is shown where the letter's text is something, and where it is nothing.
#[derive(Drop)]
pub struct Choice {
    pub test: Letter<Bytes>,
    pub some: Series<Leaf<Bytes>>,
    pub none: Series<Leaf<Bytes>>,
}

// The condition with this letter, and with the branches that stand at a place.
fn read_branches(
    alloc: Global,
    test: Letter<&[u8]>,
    inner: &[u8],
    letters: &[u8],
    place: usize,
) -> Result<Choice, FormatError>
    requires { place + length inner.now + 1 < 2 ^ 64 }
    ensures { Gives spec.plain_choice result (spec.choice_of letters.now place
        (letter_map (λ i. i.now) test.entry) (spec.branches inner.now)) }
{
    let (some, none) = branches(inner);
    let none_at = place + some.len() + 1;
    let some = read_leaves(alloc, some, letters, place)?;
    let none = read_leaves(alloc, none, letters, none_at)?;
    let test = owned_letter(alloc, test)?;
    Ok(Choice { test, some, none })
}

/// The condition at the front of a text that stands at a place.
pub fn read_choice(
    alloc: Global,
    text: &[u8],
    letters: &[u8],
    place: usize,
) -> Result<Piece<Choice>, FormatError>
    requires { place + length text.now < 2 ^ 64 }
    ensures { Gives (piece_map spec.plain_choice) result
        (spec.first_choice letters.now place text.now) }
{
    let Some(condition) = condition_at(text, letters) else {
        return Err(FormatError::BadFormat(place));
    };
    let Condition {
        test,
        inner,
        front,
        rest,
    } = condition;
    let value = read_branches(alloc, test, inner, letters, place + front)?;
    Ok(Piece {
        value,
        more: more_bytes(text, rest),
    })
}
