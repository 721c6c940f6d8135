//! How acts change a view.

ghost use Rattle.std.specs.Prelude.{◌≡◌, Ok, map, nat_eq, true, IfOk, OnOk};
ghost use Rattle.std.specs.List.{IsDistinct, count_by};
ghost use Rattle.folder_letters.specs.Letters.{plain_letter};
ghost use Rattle.index_listed.specs.Cursor.{is_seen};
ghost use Rattle.index_listed.specs.Places.{numbers};
ghost use Rattle.index_view.specs.Staying.{is_still as still, touched};
ghost use Rattle.index_view.specs.View.{IsOf, facts_of, visible_of};
ghost use Rattle.session_index.specs.Acts as spec;
ghost use Rattle.session_index.specs.Hiding as hiding;
ghost use Rattle.session_index.specs.Index.{Shows, index_of};

use crate::hiding::hide_alone;
use crate::staying::is_still;
use folder_letters::Archive;
use index_items::Act;
use index_listed::at_or_last;
use index_view::View;
use mail_base::{Id, NoMemory};
use std::alloc::Global;

/// Does this to messages, one after the other; the cursor goes behind each where it has to. Where
/// nothing that is seen hangs on it, the messages are changed in place, without memory. Else what
/// is seen is worked out once, unless what is done to one message may show it, or hide others.
pub fn act_on(
    alloc: Global,
    view: &mut View,
    archive: &Archive,
    act: Act,
    ids: &[Id],
) -> Result<(), NoMemory>
    requires { IsOf (map plain_letter archive.now.items) view.old }
    ensures acted { OnOk result (Shows (map plain_letter archive.now.items)
        (spec.acted_all (map plain_letter archive.now.items) act ids.now (index_of view.old))
        view.new) }
    ensures still { still (touched act) (facts_of view.old) ≡ true → result ≡ Ok tt }
{
    if is_still(view, act) {
        view.act_still(archive, act, ids);
        return Ok(());
    }
    if ids.len() > 1 && hide_alone(view, ids) {
        return act_on_seen(alloc, view, archive, act, ids);
    }
    act_on_each(view, archive, act, ids)
}

/// Does this to all messages of the index at once; what is seen is worked out once, if at all.
pub fn act_on_all(
    alloc: Global,
    view: &mut View,
    archive: &Archive,
    act: Act,
) -> Result<(), NoMemory>
    requires { IsOf (map plain_letter archive.now.items) view.old }
    ensures { OnOk result (Shows (map plain_letter archive.now.items)
        (spec.all_acted (map plain_letter archive.now.items) act (index_of view.old))
        view.new) }
{
    let ids = view.ordered().as_slice().to_vec(alloc)?;
    if is_still(view, act) {
        view.act_still(archive, act, &ids);
        return Ok(());
    }
    view.act_on(archive, act, &ids)
}

// The messages that are seen before the cursor.
fn before_cursor(alloc: Global, view: &View) -> Result<Vec<Id>, NoMemory>
    ensures { IfOk result
        (λ ids. ids.items ≡ hiding.before_cursor (visible_of view.now) view.now.cursor) }
{
    let seen = view.visible().as_slice();
    let place = view.cursor_place().min(seen.len());
    Ok(seen[..place].to_vec(alloc)?)
}

fn count_seen(view: &View, ids: &[Id]) -> usize
    ensures { result ≡ count_by (is_seen (visible_of view.now)) ids.now }
{
    let mut left = ids;
    let mut count = 0;
    while let [first, rest @ ..] = left {
        if view.is_seen(*first) {
            count += 1;
        }
        left = rest;
    }
    count
}

// Does this to messages that are seen, where it can hide each of them and does no more to what is
// seen. The cursor ends behind those of the messages before it that are seen still.
fn act_on_seen(
    alloc: Global,
    view: &mut View,
    archive: &Archive,
    act: Act,
    ids: &[Id],
) -> Result<(), NoMemory>
    requires is_of { IsOf (map plain_letter archive.now.items) view.old }
    requires alone { hiding.hide_alone (facts_of view.old) view.old.answers ids.now ≡ true }
    requires apart { IsDistinct nat_eq (numbers view.old.answers.sight.order) }
    ensures { OnOk result (Shows (map plain_letter archive.now.items)
        (spec.acted_all (map plain_letter archive.now.items) act ids.now (index_of view.old))
        view.new) }
{
    let before = before_cursor(alloc, view)?;
    view.act_on(archive, act, ids)?;
    let place = count_seen(view, &before);
    if let Some(id) = at_or_last(view.visible().as_slice(), place) {
        view.move_to(id);
    }
    Ok(())
}

// Does this to messages, and works out behind each what is seen.
fn act_on_each(view: &mut View, archive: &Archive, act: Act, ids: &[Id]) -> Result<(), NoMemory>
    requires { IsOf (map plain_letter archive.now.items) view.old }
    ensures { OnOk result (Shows (map plain_letter archive.now.items)
        (spec.acted_all (map plain_letter archive.now.items) act ids.now (index_of view.old))
        view.new) }
{
    let mut left = ids;
    while let Some((first, rest)) = left.split_first() {
        view.act_on(archive, act, &[*first])?;
        left = rest;
    }
    Ok(())
}
