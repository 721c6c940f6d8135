//! Paths of folders, and what the variables say of them.

ghost use Rattle.std.specs.Prelude.{◌≡◌, option_map, IfOk};
ghost use Rattle.session_screen.specs.Places as spec;

use mail_base::{Bytes, Kind, Line, NoMemory, append_utf8};
use rc_lang::{Settings, Variable};
use std::alloc::Global;

/// The path of the folder that is opened: the named one, or the spool file. One that begins with
/// `=` or `+` goes on from the directory of folders.
pub fn folder_path(
    alloc: Global,
    settings: &Settings,
    named: Option<&[u8]>,
) -> Result<Line, NoMemory>
    ensures { IfOk result (λ path. path.items ≡ spec.folder_path settings.now
        (option_map (λ p. p.now) named.entry)) }
{
    let folder = settings.text(Variable::Folder);
    let path = match named {
        Some(path) => continued(alloc, folder, path)?,
        None => continued(alloc, folder, settings.text(Variable::Spoolfile))?,
    };
    let mut line = Line::new(alloc);
    append_utf8(&mut line, path.as_slice())?;
    Ok(line)
}

/// The kind of which new folders are.
pub fn new_kind(settings: &Settings) -> Kind
    ensures { result ≡ spec.new_kind settings.now }
{
    Kind::named(settings.text(Variable::MboxType)).unwrap_or(Kind::Mbox)
}

fn continued(alloc: Global, folder: &[u8], path: &[u8]) -> Result<Bytes, NoMemory>
    ensures { IfOk result (λ whole. whole.items ≡ spec.continued folder.now path.now) }
{
    match path {
        [b'=' | b'+', rest @ ..] => {
            let mut whole = Bytes::copy_of(alloc, folder)?;
            whole.append(b"/")?;
            whole.append(rest)?;
            Ok(whole)
        }
        _ => Bytes::copy_of(alloc, path),
    }
}
