//! The names beside a mailbox in one file.

ghost use Rattle.std.specs.Prelude.{◌≡◌, ◌++◌, IfOk};
ghost use Rattle.std.specs.String.{string_bytes};
ghost use Rattle.disk_model.specs.Tree.{folder_of as folder_lem};
ghost use Rattle.folder_tails.specs.Sides as spec;

use mail_base::NoMemory;
use std::alloc::Global;

/// The mailbox, the names beside it, and the folder in which they stand.
#[derive(Drop)]
pub struct Sides {
    pub path: String,
    pub lock: String,
    pub tail: String,
    pub tmp: String,
    pub dir: String,
}

// A name that goes on from a path.
fn name_beside(alloc: Global, path: &str, end: &str) -> Result<String, NoMemory>
    ensures { IfOk result (λ name. string_bytes name ≡ path.now ++ end.now) }
{
    let mut name = String::from_str(alloc, path)?;
    name.push_str(end)?;
    Ok(name)
}

// What stands before the last slash of a path.
fn folder_of(path: &str) -> &str
    ensures { result.now ≡ folder_lem path.now }
{
    match path.rsplit_once('/') {
        None => "",
        Some((folder, _)) => { if folder.is_empty() { "/" } else { folder } }
    }
}

/// The names beside a mailbox.
pub fn sides_of(alloc: Global, path: &str) -> Result<Sides, NoMemory>
    ensures path { IfOk result (λ sides. spec.home_of sides ≡ path.now) }
    ensures sides { IfOk result spec.AreSides }
{
    let own = String::from_str(alloc, path)?;
    let lock = name_beside(alloc, path, ".lock")?;
    let tail = name_beside(alloc, path, ".tail")?;
    let tmp = name_beside(alloc, path, ".tail.tmp")?;
    let dir = String::from_str(alloc, folder_of(path))?;
    Ok(Sides {
        path: own,
        lock,
        tail,
        tmp,
        dir,
    })
}
