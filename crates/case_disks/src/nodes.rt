//! Nodes, calls that fail and what others do, as a case names them.

use case_files::{Case, CaseFault, Entry, read_number};
use disk_model::{Node, Tree, is_tree};
use disk_state::Action;
use mail_base::{Bytes, NoMemory, Numbers, Words};
use memory_disk::{Foreign, MemoryDisk, Script};
use std::alloc::Global;

/// A disk with the nodes of the case, of which the calls under `failing disk` and all from call
/// `stop` on fail, and on which others do what stands under `others N DEED PATH`, before call N:
/// `append`, `put`, `remove`, `write`, or `rename` to the value.
pub fn disk_of(alloc: Global, case: &Case) -> Result<MemoryDisk, CaseFault> {
    disk_stopped(alloc, case, case.number(b"stop")?)
}

/// The same disk, on which all from another call on fail.
pub fn disk_stopped(
    alloc: Global,
    case: &Case,
    stop: Option<u64>,
) -> Result<MemoryDisk, CaseFault> {
    disk_with(alloc, case, numbers_of(alloc, case, b"failing disk")?, stop)
}

/// The same disk as `disk_of` makes, of which this call fails too.
pub fn disk_failing(alloc: Global, case: &Case, call: u64) -> Result<MemoryDisk, CaseFault> {
    let mut fails = numbers_of(alloc, case, b"failing disk")?;
    fails.push(call)?;
    disk_with(alloc, case, fails, case.number(b"stop")?)
}

/// The same disk as `disk_of` makes, on which others do what stands under `each DEED PATH` too,
/// before this call.
pub fn disk_turning(alloc: Global, case: &Case, call: u64) -> Result<MemoryDisk, CaseFault> {
    let mut script = Script::new(alloc);
    push_script(alloc, case, &mut script)?;
    push_turn(alloc, case, call, &mut script)?;
    let fails = numbers_of(alloc, case, b"failing disk")?;
    disk_by(alloc, case, script, fails, case.number(b"stop")?)
}

fn disk_with(
    alloc: Global,
    case: &Case,
    fails: Numbers,
    stop: Option<u64>,
) -> Result<MemoryDisk, CaseFault> {
    let mut script = Script::new(alloc);
    push_script(alloc, case, &mut script)?;
    disk_by(alloc, case, script, fails, stop)
}

fn disk_by(
    alloc: Global,
    case: &Case,
    script: Script,
    fails: Numbers,
    stop: Option<u64>,
) -> Result<MemoryDisk, CaseFault> {
    let tree = tree_of(alloc, case)?;
    if is_tree(&tree) {
        Ok(MemoryDisk::new(alloc, tree, script, fails, stop)?)
    } else {
        Err(CaseFault::BadInput)
    }
}

fn push_script(alloc: Global, case: &Case, script: &mut Script) -> Result<(), CaseFault> {
    for entry in case.entries.as_slice() {
        if entry.role() == b"others".as_slice() {
            script.push(foreign_of(alloc, entry)?)?;
        }
    }
    Ok(())
}

fn push_turn(alloc: Global, case: &Case, call: u64, script: &mut Script) -> Result<(), CaseFault> {
    for entry in case.entries.as_slice() {
        if entry.role() == b"each".as_slice() {
            let deed = text_of(entry.about())?;
            script.push(foreign_before(alloc, call, deed, entry)?)?;
        }
    }
    Ok(())
}

fn foreign_of(alloc: Global, entry: &Entry) -> Result<Foreign, CaseFault> {
    let (number, deed) = text_of(entry.about())?
        .split_once(' ')
        .ok_or(CaseFault::BadInput)?;
    foreign_before(alloc, read_number(number.as_bytes())?, deed, entry)
}

fn foreign_before(
    alloc: Global,
    before_call: u64,
    deed: &str,
    entry: &Entry,
) -> Result<Foreign, CaseFault> {
    let (deed, path) = deed.split_once(' ').ok_or(CaseFault::BadInput)?;
    let path = Bytes::copy_of(alloc, path.as_bytes())?;
    let bytes = Bytes::copy_of(alloc, entry.value.as_slice())?;
    let action = action_of(deed, path, bytes)?;
    Ok(Foreign {
        before_call,
        action,
    })
}

fn action_of(deed: &str, path: Bytes, bytes: Bytes) -> Result<Action, CaseFault> {
    match deed {
        "append" => Ok(Action::Append { path, bytes }),
        "put" => Ok(Action::Put { path, bytes }),
        "write" => Ok(Action::Write { path, bytes }),
        "remove" => Ok(Action::Remove { path }),
        "rename" => Ok(Action::Rename {
            from: path,
            to: bytes,
        }),
        _ => Err(CaseFault::BadInput),
    }
}

/// The nodes under `file PATH` and `folder PATH`, in their order.
pub fn tree_of(alloc: Global, case: &Case) -> Result<Tree, CaseFault> {
    let mut tree = Tree::new(alloc);
    push_nodes(alloc, case, &mut tree)?;
    Ok(tree)
}

fn push_nodes(alloc: Global, case: &Case, tree: &mut Tree) -> Result<(), CaseFault> {
    for entry in case.entries.as_slice() {
        if let Some(node) = node_of(alloc, entry)? {
            tree.push(node)?;
        }
    }
    Ok(())
}

fn node_of(alloc: Global, entry: &Entry) -> Result<Option<Node>, CaseFault> {
    let role = entry.role();
    let bytes = if role == b"file".as_slice() {
        Some(Bytes::copy_of(alloc, entry.value.as_slice())?)
    } else if role == b"folder".as_slice() {
        None
    } else {
        return Ok(None);
    };
    let path = Bytes::copy_of(alloc, entry.about())?;
    Ok(Some(Node { path, bytes }))
}

/// The numbers of a value, with blanks between them; none where the key is not there.
pub fn numbers_of(alloc: Global, case: &Case, key: &[u8]) -> Result<Numbers, CaseFault> {
    let mut numbers = Numbers::new(alloc);
    let value = case.find(key).unwrap_or(b"");
    for word in value
        .split(|byte| *byte == b' ')
        .filter(|word| !word.is_empty())
    {
        numbers.push(read_number(word)?)?;
    }
    Ok(numbers)
}

/// The words under `words`, with blanks between them, and then each one under `word`.
pub fn words_of(alloc: Global, case: &Case) -> Result<Words, CaseFault> {
    let mut words = Words::new(alloc);
    push_words(alloc, case, &mut words)?;
    Ok(words)
}

fn push_words(alloc: Global, case: &Case, words: &mut Words) -> Result<(), NoMemory> {
    let value = case.find(b"words").unwrap_or(b"");
    for word in value
        .split(|byte| *byte == b' ')
        .filter(|word| !word.is_empty())
    {
        words.push(Bytes::copy_of(alloc, word)?)?;
    }
    for entry in case.entries.as_slice() {
        if entry.key.as_slice() == b"word".as_slice() {
            words.push(Bytes::copy_of(alloc, entry.value.as_slice())?)?;
        }
    }
    Ok(())
}

/// A value as text.
pub fn text_of(value: &[u8]) -> Result<&str, CaseFault> {
    match str::from_utf8(value) {
        Ok(text) => Ok(text),
        Err(_) => Err(CaseFault::BadInput),
    }
}
