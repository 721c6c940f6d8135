//! Which messages a function means.

ghost use Rattle.std.specs.Prelude.{◌≡◌, IfOk};
ghost use Rattle.session_index.specs.Meant as spec;

use crate::neighbours::root_of;
use crate::sought::{Sought, shows};
use index_view::View;
use mail_base::{Id, Ids, NoMemory};
use std::alloc::Global;

/// The tagged messages that are seen, in order.
pub fn tagged(alloc: Global, view: &View) -> Result<Ids, NoMemory>
    ensures { IfOk result (λ ids. ids.items ≡ spec.tagged_of view.now.answers) }
{
    let mut ids = Ids::new(alloc);
    let mut left = view.visible().as_slice();
    while let [first, rest @ ..] = left {
        if shows(view, Sought::Tagged, *first) {
            ids.push(*first)?;
        }
        left = rest;
    }
    Ok(ids)
}

/// The message on which the cursor stands, or, after a tag-prefix, the tagged ones that are seen.
pub fn meant(alloc: Global, view: &View, prefix: bool) -> Result<Ids, NoMemory>
    ensures { IfOk result
        (λ ids. ids.items ≡ spec.meant prefix view.now.answers view.now.cursor) }
{
    if prefix {
        return tagged(alloc, view);
    }
    let mut ids = Ids::new(alloc);
    if let Some(id) = view.cursor() {
        ids.push(id)?;
    }
    Ok(ids)
}

// The messages with the same root, in order.
fn of_thread(alloc: Global, view: &View, root: u32) -> Result<Ids, NoMemory>
    ensures { IfOk result (λ ids. ids.items ≡ spec.of_thread view.now.answers root) }
{
    let mut ids = Ids::new(alloc);
    let mut left = view.ordered().as_slice();
    while let [first, rest @ ..] = left {
        if root_of(view, *first) == root {
            ids.push(*first)?;
        }
        left = rest;
    }
    Ok(ids)
}

/// All messages of the thread of the one on which the cursor stands, in order, also those that a
/// limit or a shut thread hides.
pub fn thread_ids(alloc: Global, view: &View) -> Result<Ids, NoMemory>
    ensures { IfOk result
        (λ ids. ids.items ≡ spec.thread_ids view.now.answers view.now.cursor) }
{
    match view.cursor() {
        Some(id) => of_thread(alloc, view, root_of(view, id)),
        None => Ok(Ids::new(alloc)),
    }
}
