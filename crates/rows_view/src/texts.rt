//! Messages, flags and changes as a case writes them.

use crate::scene::Scene;
use case_files::CaseFault;
use folder_core::{Change, Changed1};
use mail_base::{Bytes, Delta, Flags, Id};
use patterns_match::Row;
use std::alloc::Global;
use threads::{Link, Parent};

const NO_FLAGS: Flags = Flags {
    seen: false,
    aged: false,
    replied: false,
    flagged: false,
    passed: false,
    draft: false,
    trashed: false,
};

/// A further change of a message: flags to add and to clear, and the mark of deletion.
#[derive(Clone, Copy)]
pub struct Alteration {
    pub delta: Delta,
    pub deleted: Option<bool>,
}

/// The change of words: flags behind `+` and `-`, `deleted` and `undeleted`.
pub fn alteration_of(text: &[u8]) -> Result<Alteration, CaseFault> {
    let mut added = NO_FLAGS;
    let mut cleared = NO_FLAGS;
    let mut deleted = None;
    for word in text.split(|byte| *byte == b' ') {
        match word {
            [b'+', letters @ ..] => added = flags_of(letters)?,
            [b'-', letters @ ..] => cleared = flags_of(letters)?,
            b"deleted" => deleted = Some(true),
            b"undeleted" => deleted = Some(false),
            _ => return Err(CaseFault::BadInput),
        }
    }
    match Delta::new(added, cleared) {
        Some(delta) => Ok(Alteration { delta, deleted }),
        None => Err(CaseFault::BadInput),
    }
}

/// The flags of letters: S seen, O old, R replied, F flagged, P passed, D draft, T trashed.
fn flags_of(letters: &[u8]) -> Result<Flags, CaseFault> {
    if letters.iter().any(|letter| !b"SORFPDT".contains(letter)) {
        return Err(CaseFault::BadInput);
    }
    Ok(Flags {
        seen: letters.contains(&b'S'),
        aged: letters.contains(&b'O'),
        replied: letters.contains(&b'R'),
        flagged: letters.contains(&b'F'),
        passed: letters.contains(&b'P'),
        draft: letters.contains(&b'D'),
        trashed: letters.contains(&b'T'),
    })
}

fn put_where(text: &mut Bytes, holds: bool, piece: &[u8]) -> Result<(), CaseFault> {
    if holds {
        text.append(piece)?;
    }
    Ok(())
}

// Adds a piece where something stands before it.
fn put_between(text: &mut Bytes, piece: &[u8]) -> Result<(), CaseFault> {
    let is_behind = !text.as_slice().is_empty();
    put_where(text, is_behind, piece)
}

// Adds the letters of flags behind a sign, where there are any.
fn put_flags(text: &mut Bytes, sign: &[u8], flags: Flags) -> Result<(), CaseFault> {
    put_where(text, flags != NO_FLAGS, sign)?;
    put_where(text, flags.seen, b"S")?;
    put_where(text, flags.aged, b"O")?;
    put_where(text, flags.replied, b"R")?;
    put_where(text, flags.flagged, b"F")?;
    put_where(text, flags.passed, b"P")?;
    put_where(text, flags.draft, b"D")?;
    put_where(text, flags.trashed, b"T")
}

/// Messages, or `-`.
pub fn ids_text(scene: Scene<'_>, ids: &[Id]) -> Result<Bytes, CaseFault> {
    let mut text = Bytes::new(scene.alloc);
    put_ids(scene, ids, &mut text)?;
    Ok(text)
}

fn put_ids(scene: Scene<'_>, ids: &[Id], text: &mut Bytes) -> Result<(), CaseFault> {
    for id in ids {
        put_between(text, b" ")?;
        scene.put_name(*id, text)?;
    }
    put_where(text, ids.is_empty(), b"-")
}

/// A message, or `-`.
pub fn id_text(scene: Scene<'_>, id: Option<Id>) -> Result<Bytes, CaseFault> {
    match id {
        Some(id) => ids_text(scene, &[id]),
        None => ids_text(scene, &[]),
    }
}

/// A message's parent and its link, or `-`.
pub fn parent_text(scene: Scene<'_>, parent: Option<Parent>) -> Result<Bytes, CaseFault> {
    let Some(Parent { id, link }) = parent else {
        return id_text(scene, None);
    };
    let mut text = id_text(scene, Some(id))?;
    text.append(match link {
        Link::Reference => b" reference",
        Link::Duplicate => b" duplicate",
        Link::Subject => b" subject",
    })?;
    Ok(text)
}

/// What a row shows: its number, its flags, its marks, its score and its size.
pub fn row_text(alloc: Global, row: Row) -> Result<Bytes, CaseFault> {
    let mut text = Bytes::new(alloc);
    put_row(alloc, row, &mut text)?;
    Ok(text)
}

fn put_row(alloc: Global, row: Row, text: &mut Bytes) -> Result<(), CaseFault> {
    let Row {
        number,
        score,
        size,
        ..
    } = row;
    text.append(format!(in alloc; "number {number}")?.as_bytes())?;
    put_flags(text, b" ", row.flags)?;
    put_where(text, row.deleted, b" deleted")?;
    put_where(text, row.tagged, b" tagged")?;
    put_where(text, row.collapsed, b" shut")?;
    text.append(format!(in alloc; " score {score} size {size}")?.as_bytes())?;
    Ok(())
}

/// What is to become of messages, or `-`.
pub fn changes_text(scene: Scene<'_>, changes: &[Changed1]) -> Result<Bytes, CaseFault> {
    let mut text = Bytes::new(scene.alloc);
    put_changes(scene, changes, &mut text)?;
    Ok(text)
}

fn put_changes(scene: Scene<'_>, changes: &[Changed1], text: &mut Bytes) -> Result<(), CaseFault> {
    for changed in changes {
        put_between(text, b"; ")?;
        put_change(scene, *changed, text)?;
    }
    put_where(text, changes.is_empty(), b"-")
}

fn put_change(scene: Scene<'_>, changed: Changed1, text: &mut Bytes) -> Result<(), CaseFault> {
    match changed.change {
        Change::Discard => {
            text.append(b"discard ")?;
            scene.put_name(changed.id, text)
        }
        Change::Alter(delta) => {
            text.append(b"alter ")?;
            scene.put_name(changed.id, text)?;
            put_flags(text, b" +", delta.added)?;
            put_flags(text, b" -", delta.cleared)
        }
    }
}
