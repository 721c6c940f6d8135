//! The names in a folder.

ghost use Rattle.std.specs.Prelude.{◌≡◌, ◌≤◌, length, IfOk, OnOk, if◌then◌else◌};
ghost use Rattle.std.specs.Str.{bytes_eq};
ghost use Rattle.disk_model.specs.Names as spec;
ghost use Rattle.disk_model.specs.State.{tree_of};
ghost use Rattle.disk_model.specs.Tree.{folder_of};
ghost use Rattle.disk_state.specs.Plain.{plain_names, plain_state};

use crate::state::State;
use disk_model::folder_of;
use mail_base::{Bytes, Names, NoMemory};
use std::alloc::Global;

impl State {
    /// The names in a folder in the order of their bytes.
    pub fn names_in(&self, alloc: Global, dir: &str) -> Result<Names, NoMemory>
        ensures { IfOk result (λ names. plain_names names.items
            ≡ spec.names_in (tree_of (plain_state self.now)) dir.now) }
    {
        let mut found = Vec::new(alloc);
        let mut left = self.names.as_slice();
        while let [name, rest @ ..] = left {
            put_in(alloc, &mut found, name.path.as_slice(), dir.as_bytes())?;
            left = rest;
        }
        Ok(Names::from_vec(found))
    }
}

/// Puts the name of a node to those of a folder, where this is its folder.
fn put_in(alloc: Global, found: &mut Vec<Bytes>, path: &[u8], dir: &[u8]) -> Result<(), NoMemory>
    ensures { OnOk result (plain_names found.new.items
        ≡ (if bytes_eq (folder_of path.now) dir.now
        then spec.put_name (spec.name_of path.now) (plain_names found.old.items)
        else plain_names found.old.items)) }
{
    if folder_of(path) != dir {
        return Ok(());
    }
    put_name(alloc, found, name_of(path))
}

fn put_name(alloc: Global, found: &mut Vec<Bytes>, name: &[u8]) -> Result<(), NoMemory>
    ensures { OnOk result (plain_names found.new.items
        ≡ spec.put_name name.now (plain_names found.old.items)) }
{
    let place = place_of(name, found.as_slice());
    found.insert(place, Bytes::copy_of(alloc, name)?)?;
    Ok(())
}

/// How many of the first names stand before a name.
fn place_of(name: &[u8], names: &[Bytes]) -> usize
    ensures place { result ≡ spec.place_of name.now (plain_names names.now) }
    ensures within { result ≤ length names.now }
{
    let mut place = 0;
    let mut left = names;
    while let [other, rest @ ..] = left {
        if !is_before(other.as_slice(), name) {
            return place;
        }
        place += 1;
        left = rest;
    }
    place
}

fn is_before(name: &[u8], other: &[u8]) -> bool
    ensures { result ≡ spec.is_before name.now other.now }
{
    name < other
}

/// What stands behind the last slash of a path.
fn name_of(path: &[u8]) -> &[u8]
    ensures { result.now ≡ spec.name_of path.now }
{
    let mut found = path;
    let mut left = path;
    while let [byte, rest @ ..] = left {
        if *byte == b'/' {
            found = rest;
        }
        left = rest;
    }
    found
}
