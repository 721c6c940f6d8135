//! Of each message and its descendants, the one with the greatest key.

ghost use Rattle.std.specs.Prelude.{◌≡◌, ◌<◌, ℕ, None, Some, length, replicate, IfOk};
ghost use Rattle.index_order.specs.Inner as spec;

use crate::keys::SortKeys;
use crate::options::Sort;
use crate::sorted::sorted;
use mail_base::NoMemory;
use std::alloc::Global;

/// So many places without a value.
pub fn no_values(alloc: Global, count: usize) -> Result<Vec<Option<usize>>, NoMemory>
    ensures { IfOk result (λ v. v.items ≡ replicate count None) }
{
    let mut values = Vec::with_capacity(alloc, count)?;
    for _ in 0..count {
        values.push(None)?;
    }
    Ok(values)
}

// A place, where it has no value yet.
fn without_value(values: &[Option<usize>], place: Option<usize>) -> Option<usize>
    requires { (p : ℕ) → place ≡ Some p → p < length values.now }
    ensures { result ≡ spec.without_value values.now place }
{
    match values[place?] {
        Some(_) => None,
        None => place,
    }
}

// Gives a place as value to itself and to those above it, up to one that has a value.
fn fill(above: &[Option<usize>], values: &mut Vec<Option<usize>>, place: usize)
    requires within { place < length above.now }
    requires values { spec.AreValues above.now values.old.items }
    requires forest { spec.IsForestOf above.now }
    ensures { spec.Fills above.now values.old.items values.new.items place }
{
    let mut next = Some(place);
    while let Some(here) = without_value(values, next) {
        values[here] = Some(place);
        next = above[here];
    }
}

/// Of each message and its descendants the one with the greatest key.
pub fn greatest(
    alloc: Global,
    keys: &[SortKeys],
    above: &[Option<usize>],
    sort: Sort,
) -> Result<Vec<Option<usize>>, NoMemory>
    requires long { length above.now ≡ length keys.now }
    requires forest { spec.IsForestOf above.now }
    ensures { IfOk result (λ g. spec.AreGreatest sort keys.now above.now g.items) }
{
    let mut waiting = sorted(alloc, keys, sort, false)?;
    let mut values = no_values(alloc, keys.len())?;
    while let Some(last) = waiting.pop() {
        fill(above, &mut values, last.place);
    }
    Ok(values)
}
