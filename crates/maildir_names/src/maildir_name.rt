//! Names of the files of a folder (maildir(5), "Technical details").

ghost use Rattle.std.specs.Prelude.{◌≡◌, ◌+◌, ◌≤◌, ◌++◌, IfOk, IfSome, OnOk, length, option_map};
ghost use Rattle.std.specs.List.{filter};
ghost use Rattle.maildir_names.specs.MaildirName as spec;

use mail_base::{Bytes, Flags, NoMemory, behind_text};
use std::alloc::Global;

// What parts the base from the letters.
const MARK: &[u8] = b":2,";

/// What a name tells. Names with one base are names of one message.
#[derive(Drop)]
pub struct MaildirName {
    pub base: Bytes,
    pub flags: Flags,
    /// The letters that stand for no flag, as they are written.
    pub others: Bytes,
}

// What stands behind the last mark.
fn last_letters(name: &[u8]) -> Option<&[u8]>
    ensures value { option_map (λ r. r.now) result ≡ spec.last_letters name.now }
    ensures within { IfSome result (λ r. length r.now + 3 ≤ length name.now) }
{
    let mut found = None;
    let mut left = name;
    while let [_, rest @ ..] = left {
        if let Some(letters) = behind_text(MARK, left) {
            found = Some(letters);
        }
        left = rest;
    }
    found
}

// What stands before the last mark, and what stands behind it.
pub fn split_name(name: &[u8]) -> (&[u8], &[u8])
    ensures { (result.0.now, result.1.now) ≡ spec.split_name name.now }
{
    match last_letters(name) {
        Some(letters) => (&name[..name.len() - letters.len() - MARK.len()], letters),
        None => (name, &[]),
    }
}

fn has_letter(letters: &[u8], letter: u8) -> bool
    ensures { result ≡ spec.has_letter letters.now letter }
{
    letters.contains(&letter)
}

pub fn flags_of(in_cur: bool, letters: &[u8]) -> Flags
    ensures { result ≡ spec.flags_of in_cur letters.now }
{
    let seen = has_letter(letters, b'S');
    Flags {
        seen,
        aged: in_cur || seen,
        replied: has_letter(letters, b'R'),
        flagged: has_letter(letters, b'F'),
        passed: has_letter(letters, b'P'),
        draft: has_letter(letters, b'D'),
        trashed: has_letter(letters, b'T'),
    }
}

fn is_other(letter: u8) -> bool
    ensures { result ≡ spec.is_other letter }
{
    !has_letter(b"DFPRST", letter)
}

// The letters that stand for no flag.
pub fn other_letters(alloc: Global, letters: &[u8]) -> Result<Bytes, NoMemory>
    ensures { IfOk result (λ b. b.items ≡ filter spec.is_other letters.now) }
{
    let mut others = Bytes::new(alloc);
    let mut left = letters;
    while let [first, rest @ ..] = left {
        if is_other(*first) {
            others.push(*first)?;
        }
        left = rest;
    }
    Ok(others)
}

/// What the name of a file tells, in `cur` or else in `new`; nothing where it begins with a dot.
pub fn read_name(alloc: Global, name: &str, in_cur: bool) -> Result<Option<MaildirName>, NoMemory>
    ensures { IfOk result (λ o. option_map spec.plain_name o ≡ spec.name_read in_cur name.now) }
{
    let name = name.as_bytes();
    if let Some(b'.') = name.first() {
        return Ok(None);
    }
    let (base, letters) = split_name(name);
    Ok(Some(MaildirName {
        base: Bytes::copy_of(alloc, base)?,
        flags: flags_of(in_cur, letters),
        others: other_letters(alloc, letters)?,
    }))
}

fn push_if(letters: &mut Bytes, is_set: bool, letter: u8) -> Result<(), NoMemory>
    ensures { OnOk result (letters.new.items ≡ letters.old.items ++ spec.letter_if is_set letter) }
{
    if is_set {
        letters.push(letter)?;
    }
    Ok(())
}

// All letters of a name, the flags' first.
fn all_letters(alloc: Global, flags: Flags, others: &[u8]) -> Result<Bytes, NoMemory>
    ensures { IfOk result (λ b. b.items ≡ spec.all_letters flags others.now) }
{
    let mut letters = Bytes::new(alloc);
    push_if(&mut letters, flags.draft, b'D')?;
    push_if(&mut letters, flags.flagged, b'F')?;
    push_if(&mut letters, flags.passed, b'P')?;
    push_if(&mut letters, flags.replied, b'R')?;
    push_if(&mut letters, flags.seen, b'S')?;
    push_if(&mut letters, flags.trashed, b'T')?;
    letters.append(others)?;
    Ok(letters)
}

// Adds those of the letters that are below a byte in their order, each once.
#[tactic(auto, unfolding(crate::specs::MaildirName::letters_below))]
fn append_below(name: &mut Bytes, end: u8, letters: &[u8]) -> Result<(), NoMemory>
    ensures { OnOk result (name.new.items
        ≡ name.old.items ++ spec.letters_below end letters.now) }
{
    for letter in 0..end {
        push_if(name, has_letter(letters, letter), letter)?;
    }
    Ok(())
}

// Adds the bytes of characters that are not ASCII as they stand.
fn append_beyond(name: &mut Bytes, letters: &[u8]) -> Result<(), NoMemory>
    ensures { OnOk result (name.new.items
        ≡ name.old.items ++ filter spec.is_beyond letters.now) }
{
    let mut left = letters;
    while let [first, rest @ ..] = left {
        push_if(name, !first.is_ascii(), *first)?;
        left = rest;
    }
    Ok(())
}

// Whether the base alone is a name of a message without letters.
fn is_whole_name(base: &[u8]) -> bool
    ensures { result ≡ spec.is_whole_name base.now }
{
    !base.is_empty() && last_letters(base).is_none()
}

/// The name of the file, in `cur` where the flags are seen or aged, and else in `new`.
pub fn make_name(alloc: Global, name: &MaildirName) -> Result<Bytes, NoMemory>
    ensures { IfOk result (λ b. b.items ≡ spec.name_of (spec.plain_name name.now)) }
{
    let mut made = Bytes::copy_of(alloc, name.base.as_slice())?;
    let letters = all_letters(alloc, name.flags, name.others.as_slice())?;
    let is_new = !name.flags.seen && !name.flags.aged;
    if is_new && letters.as_slice().is_empty() && is_whole_name(name.base.as_slice()) {
        return Ok(made);
    }
    made.append(MARK)?;
    append_below(&mut made, 128, letters.as_slice())?;
    append_beyond(&mut made, letters.as_slice())?;
    Ok(made)
}
