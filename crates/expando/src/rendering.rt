//! Lines made of formats.

ghost use Rattle.std.specs.Prelude.{◌≡◌, ◌≤◌, ◌++◌, map, not, true, IfOk, OnOk};
ghost use Rattle.std.specs.List.{list_all};
ghost use Rattle.expando.specs.Columns.{columns_in, is_control};
ghost use Rattle.expando.specs.Drawing as spec;
ghost use Rattle.expando.specs.Formats.{plain_choice, plain_piece};
ghost use Rattle.expando.specs.Leaves.{leaf_map, plain_leaves};
ghost use Rattle.expando.specs.Letters.{letter_map};
ghost use Rattle.expando.specs.Fields.{field_map};
ghost use Rattle.expando.specs.declared.cell.Cell.TheVariants.{Shown};

use crate::cell::{Cell, Cells};
use crate::choice::Choice;
use crate::columns::{push_padded, shown_char};
use crate::field::Field;
use crate::format::{Format, FormatPiece};
use crate::leaf::Leaf;
use crate::letter::Letter;
use crate::line::push_line;
use crate::values::Values;
use mail_base::{Bytes, Line, NoMemory};
use std::alloc::Global;

fn text_of<V: Values>(alloc: Global, letter: &Letter<Bytes>, values: &V) -> Result<Line, NoMemory>
    ensures { IfOk result (λ line. line.items
        ≡ spec.text_of (V.texts values.now) (letter_map (λ i. i.items) letter.now)) }
{
    values.text(alloc, letter.sign, letter.inner.as_slice())
}

fn draw_field<V: Values>(
    alloc: Global,
    cells: &mut Cells,
    field: &Field<Bytes>,
    values: &V,
) -> Result<(), NoMemory>
    ensures { OnOk result (cells.new.items ≡ cells.old.items ++ map Shown
        (spec.field_chars (V.texts values.now) (field_map (λ i. i.items) field.now))) }
{
    let text = text_of(alloc, &field.letter, values)?;
    push_padded(cells, text.as_str(), field.left, field.width, field.limit)
}

fn draw_leaf<V: Values>(
    alloc: Global,
    cells: &mut Cells,
    leaf: &Leaf<Bytes>,
    values: &V,
) -> Result<(), NoMemory>
    ensures { OnOk result (cells.new.items ≡ cells.old.items
        ++ spec.drawn_leaf (V.texts values.now) (leaf_map (λ i. i.items) leaf.now)) }
{
    match leaf {
        Leaf::Text(c) => cells.push(Cell::Shown(shown_char(*c))),
        Leaf::Value(field) => draw_field(alloc, cells, field, values),
        Leaf::Fill(c) => cells.push(Cell::Gap(shown_char(*c))),
        Leaf::ToEnd(c) => cells.push(Cell::Rest(shown_char(*c))),
    }
}

fn draw_leaves<V: Values>(
    alloc: Global,
    cells: &mut Cells,
    leaves: &[Leaf<Bytes>],
    values: &V,
) -> Result<(), NoMemory>
    ensures { OnOk result (cells.new.items ≡ cells.old.items
        ++ spec.drawn_leaves (V.texts values.now) (map (leaf_map (λ i. i.items)) leaves.now)) }
{
    for leaf in leaves {
        draw_leaf(alloc, cells, leaf, values)?;
    }
    Ok(())
}

// Whether a text is nothing to a condition.
fn is_nothing(text: &[u8]) -> bool
    ensures { result ≡ spec.is_nothing text.now }
{
    match text {
        [] | [b'0'] => true,
        _ => false,
    }
}

// The branch of a condition that is shown.
fn branch_of<'a, V: Values>(
    alloc: Global,
    choice: &'a Choice,
    values: &V,
) -> Result<&'a [Leaf<Bytes>], NoMemory>
    ensures { IfOk result (λ leaves. map (leaf_map (λ i. i.items)) leaves.now
        ≡ spec.branch_of (V.texts values.now) (plain_choice choice.now)) }
{
    let text = text_of(alloc, &choice.test, values)?;
    if is_nothing(text.as_slice()) {
        Ok(choice.none.as_slice())
    } else {
        Ok(choice.some.as_slice())
    }
}

fn draw_piece<V: Values>(
    alloc: Global,
    cells: &mut Cells,
    piece: &FormatPiece,
    values: &V,
) -> Result<(), NoMemory>
    ensures { OnOk result (cells.new.items ≡ cells.old.items
        ++ spec.drawn_piece (V.texts values.now) (plain_piece piece.now)) }
{
    match piece {
        FormatPiece::Simple(leaf) => draw_leaf(alloc, cells, leaf, values),
        FormatPiece::Either(choice) => {
            let leaves = branch_of(alloc, choice, values)?;
            draw_leaves(alloc, cells, leaves, values)
        }
    }
}

fn draw_pieces<V: Values>(
    alloc: Global,
    cells: &mut Cells,
    pieces: &[FormatPiece],
    values: &V,
) -> Result<(), NoMemory>
    ensures { OnOk result (cells.new.items ≡ cells.old.items
        ++ spec.drawn (V.texts values.now) (map plain_piece pieces.now)) }
{
    for piece in pieces {
        draw_piece(alloc, cells, piece, values)?;
    }
    Ok(())
}

fn make_line<V: Values>(
    alloc: Global,
    pieces: &[FormatPiece],
    values: &V,
    cols: usize,
) -> Result<Line, NoMemory>
    ensures { IfOk result (λ line. line.items
        ≡ spec.line cols (V.texts values.now) (map plain_piece pieces.now)) }
{
    let mut cells = Cells::new(alloc);
    draw_pieces(alloc, &mut cells, pieces, values)?;
    let mut line = Line::new(alloc);
    line.reserve(cols)?;
    push_line(&mut line, cells.as_slice(), cols)?;
    Ok(line)
}

/// A line of so many columns, made of a format and the texts of its letters. The characters take
/// no more than the columns together, and none is a control character.
pub fn render<V: Values>(
    alloc: Global,
    format: &Format,
    values: &V,
    cols: u16,
) -> Result<Line, NoMemory>
    ensures line { IfOk result (λ line. line.items
        ≡ spec.line cols (V.texts values.now) format.now) }
    ensures fits { columns_in (spec.shown_line cols (V.texts values.now) format.now) ≤ cols }
    ensures plain { list_all (λ c. not (is_control c))
        (spec.shown_line cols (V.texts values.now) format.now) ≡ true }
{
    make_line(alloc, format.pieces(), values, usize::from(cols))
}
