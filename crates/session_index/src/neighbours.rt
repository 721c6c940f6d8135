//! The threads of the messages that are seen, in the order of their first messages.

ghost use Rattle.std.specs.Prelude.{◌≡◌, IfOk};
ghost use Rattle.session_index.specs.Neighbours as spec;

use index_view::View;
use indexmap::IndexSet;
use mail_base::{Id, NoMemory};
use std::alloc::Global;

/// The number of the root of a message's thread.
pub fn root_of(view: &View, id: Id) -> u32
    ensures { result ≡ spec.root_of view.now.answers id }
{
    match view.thread_of(id) {
        Some(root) => root.0,
        None => 0,
    }
}

// The roots of messages, each once, in the order of their first messages.
fn roots_of(alloc: Global, view: &View, ids: &[Id]) -> Result<IndexSet<u32>, NoMemory>
    ensures { IfOk result
        (λ roots. roots.keys ≡ spec.roots_of (spec.root_of view.now.answers) ids.now) }
{
    let mut roots = IndexSet::new(alloc);
    let mut left = ids;
    while let Some((first, rest)) = left.split_first() {
        roots.insert(root_of(view, *first))?;
        left = rest;
    }
    Ok(roots)
}

// The root behind another one, or before it.
fn root_beside(back: bool, roots: &IndexSet<u32>, root: u32) -> Option<u32>
    ensures { result ≡ spec.root_beside back roots.now.keys root }
{
    let _count = roots.len();
    let place = roots.get_index_of(&root)?;
    let other = if back {
        place.checked_sub(1)?
    } else {
        place + 1
    };
    roots.get_index(other).copied()
}

// The first message of a thread.
fn head_of(view: &View, ids: &[Id], root: u32) -> Option<Id>
    ensures { result ≡ spec.head_of (spec.root_of view.now.answers) ids.now root }
{
    let mut left = ids;
    while let [first, rest @ ..] = left {
        if root_of(view, *first) == root {
            return Some(*first);
        }
        left = rest;
    }
    None
}

/// The first message of the thread behind that of another message, or of the one before it.
pub fn thread_beside(
    alloc: Global,
    view: &View,
    back: bool,
    ids: &[Id],
    id: Id,
) -> Result<Option<Id>, NoMemory>
    ensures { IfOk result (λ head. head
        ≡ spec.thread_beside back (spec.root_of view.now.answers) ids.now id) }
{
    let roots = roots_of(alloc, view, ids)?;
    match root_beside(back, &roots, root_of(view, id)) {
        Some(root) => Ok(head_of(view, ids, root)),
        None => Ok(None),
    }
}
