//! The base of the name of a message that is added.

ghost use Rattle.std.specs.Prelude.{◌≡◌, ◌||◌, IfOk, map};
ghost use Rattle.std.specs.String.{string_bytes};
ghost use Rattle.folder_drivers.specs.MaildirAppend as spec;
ghost use Rattle.maildir_appends.specs.Taken.{is_taken as is_taken_lem, letter_keys};

use crate::listing::Present;
use folder_core::Letter;
use mail_base::{Bytes, NoMemory};
use maildir_names::split_name;
use std::alloc::Global;

// Whether a name of the base is among these.
fn has_base(names: &[Bytes], base: &[u8]) -> bool
    ensures { result ≡ spec.has_base (map (λ name. name.items) names.now) base.now }
{
    let mut left = names;
    while let [name, rest @ ..] = left {
        if split_name(name.as_slice()).0 == base {
            return true;
        }
        left = rest;
    }
    false
}

// Whether the key of a letter is this one.
fn has_key(archive: &[Letter], base: &[u8]) -> bool
    ensures { result ≡ spec.has_key (letter_keys archive.now) base.now }
{
    let mut left = archive;
    while let [letter, rest @ ..] = left {
        if letter.key.as_slice() == base {
            return true;
        }
        left = rest;
    }
    false
}

// Whether a message of the folder or of the archive has the base, or a file on its way.
fn is_taken(present: &Present, archive: &[Letter], base: &[u8]) -> bool
    ensures { result ≡ is_taken_lem present.now archive.now base.now }
{
    has_base(present.cur.as_slice(), base)
        || has_base(present.new.as_slice(), base)
        || has_base(present.tmp.as_slice(), base)
        || has_key(archive, base)
}

// The base of a moment and a number.
fn base_at(alloc: Global, moment: u64, number: u64) -> Result<String, NoMemory>
    ensures { IfOk result (λ base. string_bytes base ≡ spec.base_at moment number) }
{
    Ok(format!(in alloc; "{moment}.R{number}.mutt")?)
}

/// The base of a moment with the least number that makes one which is not taken.
pub fn free_base(
    alloc: Global,
    moment: u64,
    present: &Present,
    archive: &[Letter],
) -> Result<String, NoMemory>
    ensures { IfOk result (λ base. spec.IsFirstFree (is_taken_lem present.now archive.now) moment
        (string_bytes base)) }
{
    for number in 0..u64::MAX {
        let base = base_at(alloc, moment, number)?;
        if !is_taken(present, archive, base.as_bytes()) {
            return Ok(base);
        }
    }
    // So many names have no room in memory.
    Err(NoMemory)
}
