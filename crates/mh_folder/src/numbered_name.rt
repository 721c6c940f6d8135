//! Names that are numbers of messages, in the order of the messages.

ghost use Rattle.std.specs.Prelude.{◌≡◌, ◌++◌, ◌∷◌, [], Some, IfOk, OnOk, map};
ghost use Rattle.std.specs.List.{All, filter};
ghost use Rattle.std.specs.Str.{IsUtf8};
ghost use Rattle.disk_model.specs.Answers.{AreText};
ghost use Rattle.folder_core.specs.Mh.{is_number};
ghost use Rattle.folder_core.specs.MhNumbers.{number_of};
ghost use Rattle.mh_folder.specs.NumberedName as spec;

use folder_core::read_number;
use mail_base::{Bytes, NoMemory};
use std::alloc::Global;

/// A name and the number that it writes. The order of the fields is that of the messages.
#[derive(Drop, PartialEq, Eq, PartialOrd, Ord)]
pub struct NumberedName {
    pub number: u32,
    pub name: Vec<u8>,
}

fn numbered(alloc: Global, name: &[u8], number: u32) -> Result<NumberedName, NoMemory>
    requires text { IsUtf8 name.now }
    requires number { number_of name.now ≡ Some number }
    ensures each { IfOk result spec.IsNumbered }
    ensures name { IfOk result (λ n. spec.plain_name n ≡ name.now) }
{
    Ok(NumberedName {
        number,
        name: name.to_vec(alloc)?,
    })
}

// Adds a name, if it is a number.
fn add_name(alloc: Global, name: &[u8], files: &mut Vec<NumberedName>) -> Result<(), NoMemory>
    requires text { IsUtf8 name.now }
    requires each { All spec.IsNumbered files.old.items }
    ensures each { OnOk result (All spec.IsNumbered files.new.items) }
    ensures files { OnOk result (spec.plain_names files.new.items
        ≡ spec.plain_names files.old.items ++ filter is_number (name.now ∷ [])) }
{
    if let Some(number) = read_number(name) {
        files.push(numbered(alloc, name, number)?)?;
    }
    Ok(())
}

// Adds the names that are numbers.
fn add_names(alloc: Global, names: &[Bytes], files: &mut Vec<NumberedName>) -> Result<(), NoMemory>
    requires text { AreText names.now }
    requires each { All spec.IsNumbered files.old.items }
    ensures each { OnOk result (All spec.IsNumbered files.new.items) }
    ensures files { OnOk result (spec.plain_names files.new.items
        ≡ spec.plain_names files.old.items
        ++ filter is_number (map (λ name. name.items) names.now)) }
{
    let mut left = names;
    while let [name, rest @ ..] = left {
        add_name(alloc, name.as_slice(), files)?;
        left = rest;
    }
    Ok(())
}

/// The numbers among the names of a directory, the lowest first, each once.
pub fn numbered_names(alloc: Global, names: &[Bytes]) -> Result<Vec<NumberedName>, NoMemory>
    requires { AreText names.now }
    ensures { IfOk result (λ files. spec.AreInOrder (map (λ name. name.items) names.now)
        files.items) }
{
    let mut files = Vec::new(alloc);
    add_names(alloc, names, &mut files)?;
    files.sort()?;
    files.dedup_by(|file, last| file.name == last.name);
    Ok(files)
}
