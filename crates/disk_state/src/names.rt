//! The names of a state.

ghost use Rattle.std.specs.Prelude.{◌≡◌, ◌++◌, map, IfOk, OnOk};
ghost use Rattle.disk_model.specs.State as spec;
ghost use Rattle.disk_model.specs.Tree.{folder_of, is_root};
ghost use Rattle.disk_state.specs.Plain.{plain_name};

use disk_model::is_root;
use mail_base::{Bytes, NoMemory};
use std::alloc::Global;

/// A name with the number of its file, or of a folder, which has none.
#[derive(Drop)]
pub(crate) struct Name {
    pub path: Bytes,
    pub file: Option<usize>,
}

/// What stands at a path: nothing, a folder, or the file of that number.
pub(crate) fn name_at(names: &[Name], path: &[u8]) -> Option<Option<usize>>
    ensures { result ≡ spec.name_at (map plain_name names.now) path.now }
{
    if is_root(path) {
        return Some(None);
    }
    name_in(names, path)
}

fn name_in(names: &[Name], path: &[u8]) -> Option<Option<usize>>
    ensures { result ≡ spec.name_in (map plain_name names.now) path.now }
{
    let mut left = names;
    while let [name, rest @ ..] = left {
        if name.path.as_slice() == path {
            return Some(name.file);
        }
        left = rest;
    }
    None
}

/// Puts a copy of each name behind others.
pub(crate) fn copy_names(
    alloc: Global,
    into: &mut Vec<Name>,
    names: &[Name],
) -> Result<(), NoMemory>
    ensures { OnOk result (map plain_name into.new.items
        ≡ map plain_name into.old.items ++ map plain_name names.now) }
{
    let mut left = names;
    while let [name, rest @ ..] = left {
        into.push(copy_of(alloc, name)?)?;
        left = rest;
    }
    Ok(())
}

/// The same but for those at a path.
pub(crate) fn copy_without(
    alloc: Global,
    into: &mut Vec<Name>,
    names: &[Name],
    path: &[u8],
) -> Result<(), NoMemory>
    ensures { OnOk result (map plain_name into.new.items
        ≡ map plain_name into.old.items ++ spec.without path.now (map plain_name names.now)) }
{
    let mut left = names;
    while let [name, rest @ ..] = left {
        if name.path.as_slice() != path {
            into.push(copy_of(alloc, name)?)?;
        }
        left = rest;
    }
    Ok(())
}

fn copy_of(alloc: Global, name: &Name) -> Result<Name, NoMemory>
    ensures { IfOk result (λ copy. plain_name copy ≡ plain_name name.now) }
{
    Ok(Name {
        path: Bytes::copy_of(alloc, name.path.as_slice())?,
        file: name.file,
    })
}
