//! A listing in the order of a sort.

ghost use Rattle.std.specs.Prelude.{◌≡◌, length, map, IfOk};
ghost use Rattle.std.specs.List.{range_with_len};
ghost use Rattle.std.specs.List.Sorted.{IsPermutation};
ghost use Rattle.std.specs.Ordering.{is_lt};
ghost use Rattle.index_order.specs.Inner.{ArePlaced, placed_places, plain_placed};
ghost use Rattle.index_order.specs.Order as spec;

use crate::keys::{Placed, SortKeys, compare_keys};
use crate::options::Sort;
use mail_base::NoMemory;
use std::alloc::Global;
use std::cmp::Ordering;

/// An order, turned round or not.
pub fn turned(reverse: bool, order: Ordering) -> Ordering
    ensures { result ≡ spec.turned reverse order }
{
    if reverse { order.reverse() } else { order }
}

fn compare(reverse: bool, sort: Sort, a: &Placed, b: &Placed) -> Ordering
    ensures { result ≡ spec.sort_cmp reverse sort (plain_placed a.now) (plain_placed b.now) }
{
    turned(reverse, compare_keys(sort, a, b)).then(a.place.cmp(&b.place))
}

fn placed_keys<'a>(alloc: Global, keys: &'a [SortKeys]) -> Result<Vec<Placed<'a>>, NoMemory>
    ensures placed { IfOk result (λ p. ArePlaced keys.now p.items) }
    ensures places { IfOk result
        (λ p. placed_places p.items ≡ range_with_len 0 (length keys.now)) }
{
    let mut placed = Vec::with_capacity(alloc, keys.len())?;
    for place in 0..keys.len() {
        placed.push(Placed {
            place,
            keys: &keys[place],
        })?;
    }
    Ok(placed)
}

/// The messages of a listing in the order of a sort.
pub fn sorted<'a>(
    alloc: Global,
    keys: &'a [SortKeys],
    sort: Sort,
    reverse: bool,
) -> Result<Vec<Placed<'a>>, NoMemory>
    ensures placed { IfOk result (λ p. ArePlaced keys.now p.items) }
    ensures sorted { IfOk result (λ p. placed_places p.items ≡ spec.sorted reverse sort keys.now) }
    ensures moved { IfOk result
        (λ p. IsPermutation (range_with_len 0 (length keys.now)) (placed_places p.items)) }
{
    let mut placed = placed_keys(alloc, keys)?;
    placed.sort_by(
        |a: &Placed, b: &Placed| -> Ordering
            ensures { is_lt result
                ≡ is_lt (spec.sort_cmp reverse sort (plain_placed a.now) (plain_placed b.now)) }
        { compare(reverse, sort, a, b) },
    )?;
    Ok(placed)
}
