//! The order of the index.

ghost use Rattle.std.specs.Prelude.{◌≡◌, true, length, map, IfOk, IsSome};
ghost use Rattle.std.specs.List.{range_with_len};
ghost use Rattle.std.specs.List.Sorted.{IsPermutation};
ghost use Rattle.threads.specs.Links.{target};
ghost use Rattle.threads.specs.Order.{ParentsFirst, order_from};
ghost use Rattle.threads.specs.Subjects.{parents};
ghost use Rattle.threads.specs.Threads.{place_of};
ghost use Rattle.index_order.specs.Inner as inner;
ghost use Rattle.index_order.specs.Order as spec;

use crate::keys::{Placed, SortKeys};
use crate::options::{Sort, SortOptions};
use crate::sorted::sorted;
use crate::standing::Standing;
use indexmap::IndexSet;
use mail_base::{Id, Ids, NoMemory};
use std::alloc::Global;
use threads::Threads;

fn ids_of(alloc: Global, placed: &[Placed]) -> Result<Ids, NoMemory>
    ensures { IfOk result (λ ids. ids.items ≡ map (λ p. p.keys.now.id) placed.now) }
{
    let mut ids = Vec::with_capacity(alloc, placed.len())?;
    for p in placed {
        ids.push(p.keys.id())?;
    }
    Ok(Ids::from_vec(ids))
}

// The numbers of the ids of a listing.
fn numbers_of(alloc: Global, keys: &[SortKeys]) -> Result<IndexSet<u32>, NoMemory>
    requires { spec.AreDistinct keys.now }
    ensures { IfOk result (λ n. n.keys ≡ inner.numbers keys.now) }
{
    let mut numbers = IndexSet::with_capacity(alloc, keys.len())?;
    for message in keys {
        numbers.insert(message.id().0)?;
    }
    Ok(numbers)
}

fn parent_place(numbers: &IndexSet<u32>, threads: &Threads, id: Id) -> Option<usize>
    requires finished { threads.now.is_finished ≡ true }
    requires held { IsSome (place_of threads.now.messages id) }
    ensures { result ≡ inner.parent_place numbers.now.keys threads.now id }
{
    numbers.get_index_of(&threads.parent(id)?.id.0)
}

// Where the parent of each message stands.
fn parent_places(
    alloc: Global,
    keys: &[SortKeys],
    numbers: &IndexSet<u32>,
    threads: &Threads,
) -> Result<Vec<Option<usize>>, NoMemory>
    requires threads { spec.AreOf keys.now threads.now }
    requires numbers { numbers.now.keys ≡ inner.numbers keys.now }
    ensures { IfOk result (λ p. p.items
        ≡ map (target (parents threads.now.options threads.now.messages))
        (range_with_len 0 (length keys.now))) }
{
    let mut places = Vec::with_capacity(alloc, keys.len())?;
    for message in keys {
        places.push(parent_place(numbers, threads, message.id()))?;
    }
    Ok(places)
}

// The ids of threads, where roots and siblings stand by a standing.
fn ids_by(alloc: Global, threads: &Threads, standing: &Standing) -> Result<Ids, NoMemory>
    requires { threads.now.is_finished ≡ true }
    ensures order { IfOk result
        (λ ids. ids.items ≡ order_from (inner.comes_before standing.now) threads.now) }
    ensures once { IfOk result
        (λ ids. IsPermutation (map (λ m. m.id) threads.now.messages) ids.items) }
    ensures first { IfOk result (λ ids. ParentsFirst threads.now ids.items) }
{
    threads.order_from(alloc, &|a: Id, b: Id| standing.comes_before(a, b))
}

// The ids of a listing in threads.
fn in_threads(
    alloc: Global,
    keys: &[SortKeys],
    threads: &Threads,
    options: SortOptions,
) -> Result<Ids, NoMemory>
    requires { spec.AreOf keys.now threads.now }
    ensures order { IfOk result (λ ids. ids.items ≡ map (spec.id_at keys.now)
        (spec.in_threads options keys.now (parents threads.now.options threads.now.messages))) }
    ensures once { IfOk result (λ ids. IsPermutation (map (λ k. k.id) keys.now) ids.items) }
    ensures first { IfOk result (λ ids. ParentsFirst threads.now ids.items) }
{
    let numbers = numbers_of(alloc, keys)?;
    let above = parent_places(alloc, keys, &numbers, threads)?;
    let standing = Standing::new(alloc, keys, numbers, above, options)?;
    ids_by(alloc, threads, &standing)
}

// The ids of a listing by the keys of a sort.
fn by_keys(alloc: Global, keys: &[SortKeys], sort: Sort, reverse: bool) -> Result<Ids, NoMemory>
    ensures order { IfOk result
        (λ ids. ids.items ≡ map (spec.id_at keys.now) (spec.sorted reverse sort keys.now)) }
    ensures once { IfOk result (λ ids. IsPermutation (map (λ k. k.id) keys.now) ids.items) }
{
    let placed = sorted(alloc, keys, sort, reverse)?;
    ids_of(alloc, &placed)
}

/// The ids of a listing in the order of the index. Needs the keys of all messages of the listing,
/// in its order, and these messages in threads that are finished.
pub fn order(
    alloc: Global,
    keys: &[SortKeys],
    threads: &Threads,
    options: SortOptions,
) -> Result<Ids, NoMemory>
    requires { spec.AreOf keys.now threads.now }
    ensures order { IfOk result (λ ids. ids.items ≡ spec.order options keys.now threads.now) }
    // Each message once.
    ensures once { IfOk result (λ ids. IsPermutation (map (λ k. k.id) keys.now) ids.items) }
    // In threads each message stands behind its parent.
    ensures first { spec.is_threads options.sort ≡ true
        → IfOk result (λ ids. ParentsFirst threads.now ids.items) }
{
    if options.sort.is_threads() {
        in_threads(alloc, keys, threads, options)
    } else {
        by_keys(alloc, keys, options.sort, options.reverse)
    }
}
