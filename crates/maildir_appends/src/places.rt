//! The paths of a message that is added.

ghost use Rattle.std.specs.Prelude.{◌≡◌, IfOk};
ghost use Rattle.std.specs.Str.{IsUtf8};
ghost use Rattle.std.specs.String.{string_bytes};
ghost use Rattle.folder_core.specs.Directory.{path_in as path_in_lem};
ghost use Rattle.folder_core.specs.Maildir.{directory};
ghost use Rattle.folder_drivers.specs.MaildirAppend as spec;
ghost use Rattle.maildir_appends.specs.Placing as placing;

use folder_core::path_in;
use mail_base::{Bytes, Flags, NoMemory};
use maildir_names::{MaildirName, make_name};
use std::alloc::Global;

/// The base of a message, where it is written first, the path that it gets, and the directories of
/// messages.
#[derive(Drop)]
pub struct Places {
    pub base: Bytes,
    pub beside: String,
    pub place: String,
    pub new: String,
    pub cur: String,
}

// The path of the base in `tmp`.
fn beside_of(alloc: Global, path: &str, base: &str) -> Result<String, NoMemory>
    ensures { IfOk result (λ beside. string_bytes beside ≡ spec.beside_at path.now base.now) }
{
    let dir = path_in(alloc, path, "tmp")?;
    path_in(alloc, dir.as_str(), base)
}

// The name of the base with flags.
fn name_of(alloc: Global, base: &str, flags: Flags) -> Result<Bytes, NoMemory>
    requires { spec.IsBase base.now }
    ensures name { IfOk result (λ name. name.items ≡ spec.name_for base.now flags) }
    ensures text { IfOk result (λ name. IsUtf8 name.items) }
{
    let base = Bytes::copy_of(alloc, base.as_bytes())?;
    let name = MaildirName {
        base,
        flags,
        others: Bytes::new(alloc),
    };
    make_name(alloc, &name)
}

// Whether a message with these flags stands in `cur`.
fn is_in_cur(flags: Flags) -> bool
    ensures { result ≡ spec.is_in_cur flags }
{
    flags.seen || flags.aged
}

// The path of the base with flags.
fn place_of(alloc: Global, path: &str, base: &str, flags: Flags) -> Result<String, NoMemory>
    requires { spec.IsBase base.now }
    ensures { IfOk result (λ place. string_bytes place
        ≡ spec.place_at path.now base.now flags) }
{
    let dir = path_in(alloc, path, if is_in_cur(flags) { "cur" } else { "new" })?;
    let name = name_of(alloc, base, flags)?;
    let Ok(name) = str::from_utf8(name.as_slice()) else {
        unreachable!()
    };
    path_in(alloc, dir.as_str(), name)
}

/// The paths of a message of this base with flags.
pub fn places_of(alloc: Global, path: &str, base: &str, flags: Flags) -> Result<Places, NoMemory>
    requires { spec.IsBase base.now }
    ensures { IfOk result (λ places. placing.AreOf path.now base.now flags places) }
{
    Ok(Places {
        base: Bytes::copy_of(alloc, base.as_bytes())?,
        beside: beside_of(alloc, path, base)?,
        place: place_of(alloc, path, base, flags)?,
        new: path_in(alloc, path, "new")?,
        cur: path_in(alloc, path, "cur")?,
    })
}
