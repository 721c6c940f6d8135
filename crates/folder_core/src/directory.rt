//! Paths in a directory.

ghost use Rattle.std.specs.Prelude.{◌≡◌, IfOk};
ghost use Rattle.std.specs.String.{string_bytes};
ghost use Rattle.folder_core.specs.Directory as spec;

use mail_base::NoMemory;
use std::alloc::Global;

/// The path of a name in a directory; the empty path is the directory that we are in.
pub fn path_in(alloc: Global, dir: &str, name: &str) -> Result<String, NoMemory>
    ensures { IfOk result (λ path. string_bytes path ≡ spec.path_in dir.now name.now) }
{
    let mut path = String::from_str(alloc, dir)?;
    if !dir.is_empty() && dir != "/" {
        path.push_str("/")?;
    }
    path.push_str(name)?;
    Ok(path)
}
