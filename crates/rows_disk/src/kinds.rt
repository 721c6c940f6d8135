//! Cases of the kind of a folder.

use case_disks::{disk_of, text_of};
use case_files::{Answer, Case, CaseFault, Subject};
use disk_model::Device;
use folder_core::{ScanError, kind_of};
use mail_base::Kind;
use std::alloc::Global;

/// Each `path` is looked at in its turn; an empty file there is of the kind of the last `empty`
/// before it, at first an mbox.
pub struct FolderKinds;

impl Subject for FolderKinds {
    fn inputs(&self) -> &[&[u8]] {
        &[
            b"file", b"folder", b"failing", b"stop", b"others", b"empty", b"path",
        ]
    }

    fn answer(&self, alloc: Global, case: &Case, answer: &mut Answer) -> Result<(), CaseFault> {
        let mut dev = Device::new(Box::new(alloc, disk_of(alloc, case)?)?);
        let mut empty = Kind::Mbox;
        for entry in case.entries.as_slice() {
            if entry.key.as_slice() == b"path".as_slice() {
                let path = text_of(entry.value.as_slice())?;
                put_kind(alloc, answer, kind_of(alloc, &mut dev, path, empty))?;
            } else if entry.key.as_slice() == b"empty".as_slice() {
                empty = kind_named(entry.value.as_slice());
            }
        }
        Ok(())
    }
}

fn put_kind(
    alloc: Global,
    answer: &mut Answer,
    kind: Result<Kind, ScanError>,
) -> Result<(), CaseFault> {
    match kind {
        Ok(kind) => answer.put_text(b"kind", kind_name(kind)),
        Err(error) => answer.put_text(b"kind", format!(in alloc; "{error}")?.as_str()),
    }
}

// The kind of a name as `-m` takes it; another name is an mbox's.
fn kind_named(name: &[u8]) -> Kind {
    match name {
        b"Maildir" => Kind::Maildir,
        b"MH" => Kind::Mh,
        b"MMDF" => Kind::Mmdf,
        _ => Kind::Mbox,
    }
}

/// The name of a kind as `-m` takes it.
fn kind_name(kind: Kind) -> &'static str {
    match kind {
        Kind::Mbox => "mbox",
        Kind::Maildir => "Maildir",
        Kind::Mh => "MH",
        Kind::Mmdf => "MMDF",
    }
}
