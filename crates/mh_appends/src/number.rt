//! The number of a message that is added.

ghost use Rattle.std.specs.Prelude.{◌≡◌, IfOk, map};
ghost use Rattle.folder_core.specs.Mh.{number_at as number_at_lem};
ghost use Rattle.folder_drivers.specs.MhAppend as spec;

use folder_core::read_number;
use mail_base::{Bytes, NoMemory};

// The number of a name, or 0.
fn number_at(name: &[u8]) -> u32
    ensures { result ≡ number_at_lem name.now }
{
    match read_number(name) {
        Some(number) => number,
        None => 0,
    }
}

// The highest number that one of the names has, or 0.
fn highest_number(names: &[Bytes]) -> u32
    ensures { result ≡ spec.highest_number (map (λ name. name.items) names.now) }
{
    let mut highest = 0;
    let mut left = names;
    while let [name, rest @ ..] = left {
        highest = number_at(name.as_slice()).max(highest);
        left = rest;
    }
    highest
}

// Whether one of the names has the number.
fn has_number(names: &[Bytes], number: u32) -> bool
    ensures { result ≡ spec.has_number (map (λ name. name.items) names.now) number }
{
    let mut left = names;
    while let [name, rest @ ..] = left {
        if number_at(name.as_slice()) == number {
            return true;
        }
        left = rest;
    }
    false
}

// The least number that none of the names has.
fn least_free(names: &[Bytes]) -> Result<u32, NoMemory>
    ensures { IfOk result (spec.IsLeastFree (map (λ name. name.items) names.now)) }
{
    for number in 1..u32::MAX {
        if !has_number(names, number) {
            return Ok(number);
        }
    }
    // So many names have no room in memory.
    Err(NoMemory)
}

/// The number of a new message by the names in the folder.
pub fn next_number(names: &[Bytes]) -> Result<u32, NoMemory>
    ensures { IfOk result (spec.IsNextNumber (map (λ name. name.items) names.now)) }
{
    let highest = highest_number(names);
    if highest < u32::MAX {
        return Ok(highest + 1);
    }
    least_free(names)
}
