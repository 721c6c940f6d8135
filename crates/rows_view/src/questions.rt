//! The questions of a case, each answered under its own key.

ghost use Rattle.std.specs.Prelude.{◌≡◌, map, OnOk};
ghost use Rattle.folder_letters.specs.Letters.{plain_letter};
ghost use Rattle.index_view.specs.View.{IsOf};

use crate::scene::Scene;
use crate::step::{Question, question_of};
use crate::steps::pattern_of;
use crate::texts::{changes_text, id_text, ids_text, parent_text, row_text};
use case_files::{Answer, CaseFault, Entry, read_number};
use expando::{Format, read_format};
use index_view::View;
use mail_base::{Bytes, Kind, Line, NoMemory, split_once};
use std::alloc::Global;

/// Puts what a view answers to an entry.
pub fn ask(
    scene: Scene<'_>,
    entry: &Entry,
    view: &mut View,
    answer: &mut Answer,
) -> Result<(), CaseFault>
    requires { IsOf (map plain_letter scene.archive.now.items) view.old }
    ensures { OnOk result (IsOf (map plain_letter scene.entry.archive.now.items) view.new) }
{
    let text = asked_text(scene, entry, view)?;
    answer.put(entry.key.as_slice(), text.as_slice())
}

// What a view answers.
fn asked_text(scene: Scene<'_>, entry: &Entry, view: &mut View) -> Result<Bytes, CaseFault>
    requires { IsOf (map plain_letter scene.archive.now.items) view.old }
    ensures { OnOk result (IsOf (map plain_letter scene.entry.archive.now.items) view.new) }
{
    let about = entry.about();
    match question_of(entry.role()) {
        Question::Move => moved_text(scene, about, view),
        Question::Pick => picked_text(scene, about, view),
        question => told_text(scene, about, question, view),
    }
}

fn moved_text(scene: Scene<'_>, name: &[u8], view: &mut View) -> Result<Bytes, CaseFault>
    requires { IsOf (map plain_letter scene.archive.now.items) view.old }
    ensures { OnOk result (IsOf (map plain_letter scene.entry.archive.now.items) view.new) }
{
    let is_seen = view.move_to(scene.id_of(name)?);
    let text: &[u8] = if is_seen { b"true" } else { b"false" };
    Ok(Bytes::copy_of(scene.alloc, text)?)
}

fn picked_text(scene: Scene<'_>, text: &[u8], view: &mut View) -> Result<Bytes, CaseFault>
    requires { IsOf (map plain_letter scene.archive.now.items) view.old }
    ensures { view.new ≡ view.old }
{
    let mut pattern = pattern_of(scene.alloc, text)?;
    let ids = view.pick(scene.alloc, scene.archive, &mut pattern)?;
    ids_text(scene, ids.as_slice())
}

// What a view tells and stays as it is.
fn told_text(
    scene: Scene<'_>,
    about: &[u8],
    question: Question,
    view: &View,
) -> Result<Bytes, CaseFault>
    requires { IsOf (map plain_letter scene.archive.now.items) view.now }
{
    match question {
        Question::Cursor => id_text(scene, view.cursor()),
        Question::Ordered => ids_text(scene, view.ordered().as_slice()),
        Question::Visible => ids_text(scene, view.visible().as_slice()),
        Question::Row => shown_row(scene, about, view),
        Question::Parent => parent_text(scene, view.parent(scene.id_of(about)?)),
        Question::Thread => id_text(scene, view.thread_of(scene.id_of(about)?)),
        Question::Changes => shown_changes(scene, about, view),
        Question::Expand => shown_alias(scene.alloc, about, view),
        Question::Line => shown_line(scene, about, view),
        Question::Lines => shown_lines(scene, about, view),
        Question::Move | Question::Pick | Question::Unknown => Err(CaseFault::BadInput),
    }
}

fn shown_row(scene: Scene<'_>, name: &[u8], view: &View) -> Result<Bytes, CaseFault> {
    match view.row(scene.id_of(name)?) {
        Some(row) => row_text(scene.alloc, row),
        None => id_text(scene, None),
    }
}

fn shown_changes(scene: Scene<'_>, word: &[u8], view: &View) -> Result<Bytes, CaseFault> {
    let purge = match word {
        b"purge" => true,
        b"keep" => false,
        _ => return Err(CaseFault::BadInput),
    };
    let changes = view.changes(scene.alloc, Kind::Mbox, purge)?;
    changes_text(scene, changes.as_slice())
}

fn shown_alias(alloc: Global, name: &[u8], view: &View) -> Result<Bytes, CaseFault> {
    let value = match view.expand_alias(name) {
        Some(value) => value.as_slice(),
        None => b"-",
    };
    Ok(Bytes::copy_of(alloc, value)?)
}

// A first word and what stands behind it.
fn behind_word(text: &[u8]) -> Result<(&[u8], &[u8]), CaseFault> {
    split_once(b' ', text).ok_or(CaseFault::BadInput)
}

fn short_number(word: &[u8]) -> Result<u16, CaseFault> {
    match u16::try_from(read_number(word)?) {
        Ok(number) => Ok(number),
        Err(_) => Err(CaseFault::BadInput),
    }
}

fn format_of(alloc: Global, text: &[u8]) -> Result<Format, CaseFault> {
    match read_format(alloc, text, b"CmZ{[anFLtisSclNy") {
        Ok(format) => Ok(format),
        Err(_) => Err(CaseFault::BadInput),
    }
}

/// The characters that tell what a message is to its reader, as Mutt has them.
const TO_CHARS: &[u8] = b" +TCFL";

// The row of a message; `about` are the message, the columns and the format.
fn shown_line(scene: Scene<'_>, about: &[u8], view: &View) -> Result<Bytes, CaseFault>
    requires { IsOf (map plain_letter scene.archive.now.items) view.now }
{
    let (name, rest) = behind_word(about)?;
    let (cols, format) = behind_word(rest)?;
    let id = scene.id_of(name)?;
    let cols = short_number(cols)?;
    let format = format_of(scene.alloc, format)?;
    let alloc = scene.alloc;
    match view.line(alloc, scene.archive, id, &format, TO_CHARS, 0, cols)? {
        Some(line) => Ok(Bytes::copy_of(alloc, line.as_slice())?),
        None => id_text(scene, None),
    }
}

// The lines of the page; `about` are the rows, the columns and the format.
fn shown_lines(scene: Scene<'_>, about: &[u8], view: &View) -> Result<Bytes, CaseFault>
    requires { IsOf (map plain_letter scene.archive.now.items) view.now }
{
    let (rows, rest) = behind_word(about)?;
    let (cols, format) = behind_word(rest)?;
    let rows = short_number(rows)?;
    let cols = short_number(cols)?;
    if cols < 2 {
        return Err(CaseFault::BadInput);
    }
    let format = format_of(scene.alloc, format)?;
    let alloc = scene.alloc;
    let lines = view.lines(alloc, scene.archive, &format, TO_CHARS, 0, rows, cols)?;
    text_of(alloc, lines.as_slice())
}

fn text_of(alloc: Global, lines: &[Line]) -> Result<Bytes, CaseFault> {
    let mut text = Bytes::new(alloc);
    append_lines(&mut text, lines)?;
    Ok(text)
}

fn append_lines(text: &mut Bytes, lines: &[Line]) -> Result<(), NoMemory> {
    for line in lines {
        text.append(line.as_slice())?;
        text.push(b'\n')?;
    }
    Ok(())
}
