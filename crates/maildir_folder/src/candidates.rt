//! The files that may be messages, in the order of their messages.

ghost use Rattle.std.specs.Prelude.{◌≡◌, ◌++◌, ◌∷◌, [], IfOk, OnOk, map, not, true};
ghost use Rattle.std.specs.List.{All};
ghost use Rattle.std.specs.Str.{IsUtf8};
ghost use Rattle.disk_model.specs.Answers.{AreText};
ghost use Rattle.folder_core.specs.Maildir.{files_in, is_shown as is_shown_lem};
ghost use Rattle.maildir_folder.specs.Candidates as spec;

use mail_base::{Bytes, NoMemory};
use maildir_names::{order_of, split_name};
use std::alloc::Global;

/// A file that may be a message, in `new` or else in `cur`. The order of the fields is that of the
/// messages: of names with one base that in `cur` is first.
#[derive(Drop, PartialEq, Eq, PartialOrd, Ord)]
pub struct Candidate {
    /// The number with which the base begins.
    pub order: u64,
    pub base: Vec<u8>,
    pub is_new: bool,
    pub name: Vec<u8>,
}

// The candidate of a name that a message may have.
fn candidate_of(alloc: Global, in_cur: bool, name: &[u8]) -> Result<Candidate, NoMemory>
    requires text { IsUtf8 name.now }
    requires shown { is_shown_lem name.now ≡ true }
    ensures each { IfOk result spec.IsCandidate }
    ensures file { IfOk result (λ c. spec.plain_file c
        ≡ record { in_cur = in_cur; name = name.now }) }
{
    let (base, _) = split_name(name);
    Ok(Candidate {
        order: order_of(base),
        base: base.to_vec(alloc)?,
        is_new: !in_cur,
        name: name.to_vec(alloc)?,
    })
}

// Whether a message may have the name.
fn is_shown(name: &[u8]) -> bool
    ensures { result ≡ is_shown_lem name.now }
{
    match name {
        [b'.', ..] | [] => false,
        _ => !name.contains(&b'/'),
    }
}

// Adds a name that a message may have.
fn add_name(
    alloc: Global,
    in_cur: bool,
    name: &[u8],
    files: &mut Vec<Candidate>,
) -> Result<(), NoMemory>
    requires text { IsUtf8 name.now }
    requires each { All spec.IsCandidate files.old.items }
    ensures each { OnOk result (All spec.IsCandidate files.new.items) }
    ensures files { OnOk result (map spec.plain_file files.new.items
        ≡ map spec.plain_file files.old.items ++ files_in in_cur (name.now ∷ [])) }
{
    if is_shown(name) {
        files.push(candidate_of(alloc, in_cur, name)?)?;
    }
    Ok(())
}

// Adds those of the names that a message may have.
fn add_names(
    alloc: Global,
    in_cur: bool,
    names: &[Bytes],
    files: &mut Vec<Candidate>,
) -> Result<(), NoMemory>
    requires text { AreText names.now }
    requires each { All spec.IsCandidate files.old.items }
    ensures each { OnOk result (All spec.IsCandidate files.new.items) }
    ensures files { OnOk result (map spec.plain_file files.new.items
        ≡ map spec.plain_file files.old.items
        ++ files_in in_cur (map (λ name. name.items) names.now)) }
{
    let mut left = names;
    while let [name, rest @ ..] = left {
        add_name(alloc, in_cur, name.as_slice(), files)?;
        left = rest;
    }
    Ok(())
}

/// The files with names in `cur` and in `new` that a message may have, in the order of their
/// messages.
pub fn candidates(alloc: Global, cur: &[Bytes], new: &[Bytes]) -> Result<Vec<Candidate>, NoMemory>
    requires cur { AreText cur.now }
    requires new { AreText new.now }
    ensures { IfOk result (λ files. spec.AreInOrder (map (λ name. name.items) cur.now)
        (map (λ name. name.items) new.now) files.items) }
{
    let mut files = Vec::new(alloc);
    add_names(alloc, true, cur, &mut files)?;
    add_names(alloc, false, new, &mut files)?;
    files.sort()?;
    Ok(files)
}
