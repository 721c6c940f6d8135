//! The steps of a case that change a view.

ghost use Rattle.std.specs.Prelude.{map, OnOk};
ghost use Rattle.folder_letters.specs.Letters.{plain_letter};
ghost use Rattle.index_view.specs.View.{IsOf};

use crate::questions::ask;
use crate::scene::Scene;
use crate::settings::options_of;
use crate::step::{Step, step_of};
use crate::texts::alteration_of;
use case_files::{Answer, CaseFault, Entry};
use index_view::View;
use mail_base::{Kind, Names};
use patterns::{Pattern, PatternError, read_pattern};
use patterns_match::ScoreError;
use people::{Expr, ExprError, PeopleTable, RegexBuild, Verdicts};
use std::alloc::Global;

/// Makes the call of an entry.
pub fn play(
    scene: Scene<'_>,
    entry: &Entry,
    view: &mut View,
    answer: &mut Answer,
) -> Result<(), CaseFault>
    requires { IsOf (map plain_letter scene.archive.now.items) view.old }
    ensures { OnOk result (IsOf (map plain_letter scene.entry.archive.now.items) view.new) }
{
    match step_of(entry.role()) {
        Step::Nothing => Ok(()),
        Step::Ask => ask(scene, entry, view, answer),
        step => change(scene, entry, step, view),
    }
}

// Makes a call that changes a view.
fn change(scene: Scene<'_>, entry: &Entry, step: Step, view: &mut View) -> Result<(), CaseFault>
    requires { IsOf (map plain_letter scene.archive.now.items) view.old }
    ensures { OnOk result (IsOf (map plain_letter scene.entry.archive.now.items) view.new) }
{
    let value = entry.value.as_slice();
    match step {
        Step::Nothing | Step::Ask => Ok(()),
        Step::Options => set_options(scene, value, view),
        Step::Limit => set_limit(scene, value, view),
        Step::Alter => alter(scene, entry, view),
        Step::Tag(tagged) => tag(scene, value, tagged, view),
        Step::Collapse(shut) => collapse(scene, value, shut, view),
        Step::Settle => settle(scene, view),
        Step::Person => add_person(scene, entry, view),
        Step::Alias => add_alias(scene, entry, view),
        Step::Score => add_score(scene, entry, view),
        Step::DropScores => drop_scores(scene, view),
    }
}

fn set_options(scene: Scene<'_>, text: &[u8], view: &mut View) -> Result<(), CaseFault>
    requires { IsOf (map plain_letter scene.archive.now.items) view.old }
    ensures { OnOk result (IsOf (map plain_letter scene.entry.archive.now.items) view.new) }
{
    let options = options_of(text)?;
    view.set_options(scene.archive, options)?;
    Ok(())
}

/// The pattern of a text, read on the first of January 2026.
pub fn pattern_of(alloc: Global, text: &[u8]) -> Result<Pattern, CaseFault> {
    let builder = Box::new(alloc, RegexBuild::new(Names::new(alloc)))?;
    let mut verdicts = Verdicts::new(alloc, builder);
    match read_pattern(alloc, text, 1_767_225_600, 0, &mut verdicts) {
        Ok(pattern) => Ok(pattern),
        Err(PatternError::NoMemory) => Err(CaseFault::NoMemory),
        Err(_) => Err(CaseFault::BadInput),
    }
}

fn limit_of(alloc: Global, text: &[u8]) -> Result<Option<Pattern>, CaseFault> {
    if text.is_empty() {
        return Ok(None);
    }
    Ok(Some(pattern_of(alloc, text)?))
}

fn set_limit(scene: Scene<'_>, text: &[u8], view: &mut View) -> Result<(), CaseFault>
    requires { IsOf (map plain_letter scene.archive.now.items) view.old }
    ensures { OnOk result (IsOf (map plain_letter scene.entry.archive.now.items) view.new) }
{
    let limit = limit_of(scene.alloc, text)?;
    view.set_limit(scene.archive, limit)?;
    Ok(())
}

fn alter(scene: Scene<'_>, entry: &Entry, view: &mut View) -> Result<(), CaseFault>
    requires { IsOf (map plain_letter scene.archive.now.items) view.old }
    ensures { OnOk result (IsOf (map plain_letter scene.entry.archive.now.items) view.new) }
{
    let id = scene.id_of(entry.about())?;
    let alteration = alteration_of(entry.value.as_slice())?;
    view.alter(scene.archive, id, alteration.delta, alteration.deleted)?;
    Ok(())
}

fn tag(scene: Scene<'_>, name: &[u8], tagged: bool, view: &mut View) -> Result<(), CaseFault>
    requires { IsOf (map plain_letter scene.archive.now.items) view.old }
    ensures { OnOk result (IsOf (map plain_letter scene.entry.archive.now.items) view.new) }
{
    let id = scene.id_of(name)?;
    view.tag(scene.archive, id, tagged)?;
    Ok(())
}

fn collapse(scene: Scene<'_>, name: &[u8], shut: bool, view: &mut View) -> Result<(), CaseFault>
    requires { IsOf (map plain_letter scene.archive.now.items) view.old }
    ensures { OnOk result (IsOf (map plain_letter scene.entry.archive.now.items) view.new) }
{
    let id = scene.id_of(name)?;
    view.collapse(scene.archive, id, shut)?;
    Ok(())
}

// Takes in what a sync that purges is to do.
fn settle(scene: Scene<'_>, view: &mut View) -> Result<(), CaseFault>
    requires { IsOf (map plain_letter scene.archive.now.items) view.old }
    ensures { OnOk result (IsOf (map plain_letter scene.entry.archive.now.items) view.new) }
{
    let changes = view.changes(scene.alloc, Kind::Mbox, true)?;
    view.settle(scene.archive, Kind::Mbox, &changes)?;
    Ok(())
}

fn table_named(name: &[u8]) -> Result<PeopleTable, CaseFault> {
    match name {
        b"list" => Ok(PeopleTable::Lists),
        b"subscribe" => Ok(PeopleTable::Subscribed),
        b"mine" => Ok(PeopleTable::Mine),
        _ => Err(CaseFault::BadInput),
    }
}

fn expr_of(alloc: Global, text: &[u8]) -> Result<Expr, CaseFault> {
    let builder = Box::new(alloc, RegexBuild::new(Names::new(alloc)))?;
    let mut verdicts = Verdicts::new(alloc, builder);
    match Expr::read(alloc, text, &mut verdicts) {
        Ok(expr) => Ok(expr),
        Err(ExprError::NoMemory) => Err(CaseFault::NoMemory),
        Err(_) => Err(CaseFault::BadInput),
    }
}

fn add_person(scene: Scene<'_>, entry: &Entry, view: &mut View) -> Result<(), CaseFault>
    requires { IsOf (map plain_letter scene.archive.now.items) view.old }
    ensures { OnOk result (IsOf (map plain_letter scene.entry.archive.now.items) view.new) }
{
    let table = table_named(entry.about())?;
    let expr = expr_of(scene.alloc, entry.value.as_slice())?;
    view.add_person(scene.archive, table, expr)?;
    Ok(())
}

fn add_alias(scene: Scene<'_>, entry: &Entry, view: &mut View) -> Result<(), CaseFault>
    requires { IsOf (map plain_letter scene.archive.now.items) view.old }
    ensures { OnOk result (IsOf (map plain_letter scene.entry.archive.now.items) view.new) }
{
    let _archive = scene.archive;
    view.add_alias(entry.about(), entry.value.as_slice())?;
    Ok(())
}

fn score_of(text: &[u8]) -> Result<(i64, bool), CaseFault> {
    let (digits, last) = match text.strip_suffix(b" last") {
        Some(digits) => (digits, true),
        None => (text, false),
    };
    let Ok(digits) = str::from_utf8(digits) else {
        return Err(CaseFault::BadInput);
    };
    match digits.parse::<i64>() {
        Ok(value) => Ok((value, last)),
        Err(_) => Err(CaseFault::BadInput),
    }
}

fn add_score(scene: Scene<'_>, entry: &Entry, view: &mut View) -> Result<(), CaseFault>
    requires { IsOf (map plain_letter scene.archive.now.items) view.old }
    ensures { OnOk result (IsOf (map plain_letter scene.entry.archive.now.items) view.new) }
{
    let (value, last) = score_of(entry.about())?;
    let pattern = pattern_of(scene.alloc, entry.value.as_slice())?;
    match view.add_score(scene.archive, pattern, value, last) {
        Ok(()) => Ok(()),
        Err(ScoreError::NoMemory) => Err(CaseFault::NoMemory),
        Err(_) => Err(CaseFault::BadInput),
    }
}

fn drop_scores(scene: Scene<'_>, view: &mut View) -> Result<(), CaseFault>
    requires { IsOf (map plain_letter scene.archive.now.items) view.old }
    ensures { OnOk result (IsOf (map plain_letter scene.entry.archive.now.items) view.new) }
{
    view.drop_scores(scene.archive)?;
    Ok(())
}
