//! How the thread of the cursor's message is shut or opened.

ghost use Rattle.std.specs.Prelude.{◌≡◌, map, OnOk};
ghost use Rattle.folder_letters.specs.Letters.{plain_letter};
ghost use Rattle.index_view.specs.View.{IsOf};
ghost use Rattle.session_index.specs.Folding as spec;
ghost use Rattle.session_index.specs.Index.{Shows, index_of};

use crate::sought::{Sought, first_shown};
use folder_letters::Archive;
use index_view::View;
use mail_base::{Id, NoMemory};

/// Shuts the thread of the message on which the cursor stands, or opens it where it is shut.
pub fn fold_thread(view: &mut View, archive: &Archive) -> Result<(), NoMemory>
    requires { IsOf (map plain_letter archive.now.items) view.old }
    ensures { OnOk result (Shows (map plain_letter archive.now.items)
        (spec.thread_folded (map plain_letter archive.now.items) (index_of view.old)) view.new) }
{
    match view.cursor() {
        Some(id) => fold_at(view, archive, id),
        None => Ok(()),
    }
}

fn fold_at(view: &mut View, archive: &Archive, id: Id) -> Result<(), NoMemory>
    requires { IsOf (map plain_letter archive.now.items) view.old }
    ensures { OnOk result (Shows (map plain_letter archive.now.items)
        (spec.folded_at (map plain_letter archive.now.items) id (index_of view.old)) view.new) }
{
    match (view.thread_of(id), view.row(id)) {
        (Some(root), Some(row)) => view.collapse(archive, root, !row.collapsed),
        _ => Ok(()),
    }
}

/// Shuts all threads, or opens all where one is shut.
pub fn fold_all(view: &mut View, archive: &Archive) -> Result<(), NoMemory>
    requires { IsOf (map plain_letter archive.now.items) view.old }
    ensures { OnOk result (Shows (map plain_letter archive.now.items)
        (spec.all_folded (map plain_letter archive.now.items) (index_of view.old)) view.new) }
{
    let ids = view.ordered().as_slice();
    let is_shut = first_shown(view, Sought::Collapsed, ids).is_some();
    view.collapse_all(archive, !is_shut)
}
