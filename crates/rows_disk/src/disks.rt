//! Cases of the calls of a disk in memory, and of its images.

use crate::calls::{Stamps, put_calls};
use case_disks::{disk_of, text_of};
use case_files::{Answer, Case, CaseFault, Entry, Subject, read_number};
use disk_model::{Device, Fill, Tree};
use mail_base::{Bytes, NoMemory};
use std::alloc::Global;

/// Each `call` is its name and, with blanks between them, its path and what else it takes; the rest
/// of a `write_at` are its bytes. `image N FILL` is asked for behind the calls: N name operations,
/// and `kept`, `written` or the number of a byte.
pub struct DiskCalls;

impl Subject for DiskCalls {
    fn inputs(&self) -> &[&[u8]] {
        &[b"file", b"folder", b"failing", b"stop", b"others", b"call"]
    }

    fn answer(&self, alloc: Global, case: &Case, answer: &mut Answer) -> Result<(), CaseFault> {
        let mut dev = Device::new(Box::new(alloc, disk_of(alloc, case)?)?);
        put_calls_and_images(alloc, answer, &mut dev, case)
    }
}

fn put_calls_and_images(
    alloc: Global,
    answer: &mut Answer,
    dev: &mut Device,
    case: &Case,
) -> Result<(), CaseFault> {
    put_calls(alloc, answer, dev, case, Stamps::Told)?;
    for entry in case.entries.as_slice() {
        if entry.role() == b"image".as_slice() {
            put_image(alloc, answer, dev, entry)?;
        }
    }
    Ok(())
}

/// Puts an image as a line a node: `PATH/` of a folder, `PATH: BYTES` of a file.
fn put_image(
    alloc: Global,
    answer: &mut Answer,
    dev: &Device,
    entry: &Entry,
) -> Result<(), CaseFault> {
    let about = text_of(entry.about())?;
    let (names, fill) = about.split_once(' ').ok_or(CaseFault::BadInput)?;
    let fill = match fill {
        "kept" => Fill::Kept,
        "written" => Fill::Written,
        byte => Fill::Byte(u8::try_from(read_number(byte.as_bytes())?).unwrap_or(0)),
    };
    let key = entry.key.as_slice();
    match dev.image(alloc, read_number(names.as_bytes())?, fill)? {
        Some(tree) => put_tree(alloc, answer, key, &tree),
        None => answer.put(key, b"none"),
    }
}

fn put_tree(alloc: Global, answer: &mut Answer, key: &[u8], tree: &Tree) -> Result<(), CaseFault> {
    let mut text = Bytes::new(alloc);
    append_lines(&mut text, tree)?;
    answer.put(key, text.as_slice())
}

fn append_lines(text: &mut Bytes, tree: &Tree) -> Result<(), NoMemory> {
    for node in tree.as_slice() {
        text.append(node.path.as_slice())?;
        match &node.bytes {
            Some(bytes) => {
                text.append(b": ")?;
                text.append(bytes.as_slice())?;
            }
            None => text.push(b'/')?,
        }
        text.push(b'\n')?;
    }
    Ok(())
}
