//! Where motions of the cursor lead.

ghost use Rattle.std.specs.Prelude.{◌≡◌, ◌<◌, ◌++◌, Some, find, length, IfOk, OnErr, OnOk};
ghost use Rattle.session_index.specs.Motions as spec;
ghost use Rattle.index_view.specs.Answers.{parent_of};
ghost use Rattle.session_index.specs.Shown.{seen, shows};

use crate::neighbours::thread_beside;
use crate::sought::{Sought, first_shown, last_shown};
use index_functions::{Motion, Notice, Way, is_in, page_before, page_behind, place_of, way_or};
use index_view::View;
use mail_base::{Id, NoMemory};
use std::alloc::Global;

// The first of messages, and else of others.
fn first_of(view: &View, sought: Sought, ids: &[Id], others: &[Id]) -> Option<Id>
    ensures { result ≡ find (shows sought view.now.answers) (ids.now ++ others.now) }
{
    match first_shown(view, sought, ids) {
        Some(id) => Some(id),
        None => first_shown(view, sought, others),
    }
}

fn next_unread(view: &View, ids: &[Id], others: &[Id]) -> Option<Id>
    ensures { result ≡ spec.next_unread view.now.answers (ids.now ++ others.now) }
{
    match first_of(view, Sought::New, ids, others) {
        Some(id) => Some(id),
        None => first_of(view, Sought::Unread, ids, others),
    }
}

fn way_to_parent(view: &View, id: Id) -> Way
    ensures { result ≡ spec.way_to_parent (seen view.now.answers) (parent_of view.now.answers id) }
{
    match view.parent(id) {
        None => Way::Stays(Notice::NoParent),
        Some(parent) if is_in(view.visible().as_slice(), parent.id) => Way::To(parent.id),
        Some(_) => Way::Stays(Notice::ParentHidden),
    }
}

// Where a motion leads from the message at a place of those that are seen.
fn way_from(
    alloc: Global,
    view: &View,
    size: usize,
    motion: Motion,
    place: usize,
    id: Id,
) -> Result<Way, NoMemory>
    requires size { 0 < size }
    requires place { place < length (seen view.now.answers) }
    ensures { IfOk result (λ way. way ≡ spec.way_from motion size view.now.answers
        (seen view.now.answers) place id) }
{
    let ids = view.visible().as_slice();
    let (front, rest) = ids.split_at(place + 1);
    let before = &ids[..place];
    Ok(match motion {
        Motion::NextUndeleted => {
            way_or(
                Notice::NoUndeleted,
                first_shown(view, Sought::Undeleted, rest),
            )
        }
        Motion::PreviousUndeleted => {
            way_or(
                Notice::NoUndeleted,
                last_shown(view, Sought::Undeleted, before),
            )
        }
        Motion::Next => way_or(Notice::OnLast, rest.first().copied()),
        Motion::Previous => way_or(Notice::OnFirst, before.last().copied()),
        Motion::First => way_or(Notice::NoMessages, ids.first().copied()),
        Motion::Last => way_or(Notice::NoMessages, ids.last().copied()),
        Motion::NextPage => way_or(Notice::OnLast, page_behind(size, place, ids)),
        Motion::PreviousPage => way_or(Notice::OnFirst, page_before(size, place, ids)),
        Motion::NextUnread => way_or(Notice::NoUnread, next_unread(view, rest, front)),
        Motion::NextThread => {
            way_or(
                Notice::NoThread,
                thread_beside(alloc, view, false, ids, id)?,
            )
        }
        Motion::PreviousThread => {
            way_or(Notice::NoThread, thread_beside(alloc, view, true, ids, id)?)
        }
        Motion::ToParent => way_to_parent(view, id),
    })
}

// Where a motion leads from the message on which the cursor stands.
fn way_at(alloc: Global, view: &View, size: usize, motion: Motion, id: Id) -> Result<Way, NoMemory>
    requires { 0 < size }
    ensures { IfOk result (λ way. way ≡ spec.way motion size view.now.answers (Some id)) }
{
    match place_of(view.visible().as_slice(), id) {
        Some(place) => way_from(alloc, view, size, motion, place, id),
        None => Ok(Way::Stays(Notice::NoMessages)),
    }
}

// Where a motion leads, where pages have this size.
fn way(alloc: Global, view: &View, size: usize, motion: Motion) -> Result<Way, NoMemory>
    requires { 0 < size }
    ensures { IfOk result
        (λ way. way ≡ spec.way motion size view.now.answers view.now.cursor) }
{
    match view.cursor() {
        Some(id) => way_at(alloc, view, size, motion, id),
        None => Ok(Way::Stays(Notice::NoMessages)),
    }
}

/// Moves the cursor, where pages have this size, or tells why it stays.
pub fn go(
    alloc: Global,
    view: &mut View,
    size: usize,
    motion: Motion,
) -> Result<Option<Notice>, NoMemory>
    requires { 0 < size }
    ensures way { IfOk result (λ notice. notice ≡ spec.notice_of
        (spec.way motion size view.old.answers view.old.cursor)) }
    ensures gone { OnOk result (view.new
        ≡ spec.gone (spec.way motion size view.old.answers view.old.cursor) view.old) }
    ensures err { OnErr result (view.new ≡ view.old) }
{
    match way(alloc, view, size, motion)? {
        Way::To(id) => {
            view.move_to(id);
            Ok(None)
        }
        Way::Stays(notice) => Ok(Some(notice)),
    }
}
