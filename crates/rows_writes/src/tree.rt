//! The tree that calls leave.

use case_files::{Answer, CaseFault};
use disk_model::{Device, Fill, Node};
use mail_base::NoMemory;
use std::alloc::Global;

/// Puts each node of the tree of a disk, in the order of paths: a folder as `PATH/`, a file as
/// `PATH: BYTES`.
pub fn put_tree(alloc: Global, answer: &mut Answer, dev: &Device) -> Result<(), CaseFault> {
    let Some(tree) = dev.image(alloc, u64::MAX, Fill::Written)? else {
        return Err(CaseFault::BadInput);
    };
    let mut lines = lines_of(alloc, tree.as_slice())?;
    lines.sort()?;
    put_lines(answer, &lines)
}

fn put_lines(answer: &mut Answer, lines: &[Vec<u8>]) -> Result<(), CaseFault> {
    for line in lines {
        answer.put(b"left", line.as_slice())?;
    }
    Ok(())
}

fn lines_of(alloc: Global, nodes: &[Node]) -> Result<Vec<Vec<u8>>, NoMemory> {
    let mut lines = Vec::new(alloc);
    for node in nodes {
        lines.push(line_of(alloc, node)?)?;
    }
    Ok(lines)
}

fn line_of(alloc: Global, node: &Node) -> Result<Vec<u8>, NoMemory> {
    let mut line = node.path.as_slice().to_vec(alloc)?;
    match &node.bytes {
        None => line.push(b'/')?,
        Some(bytes) => {
            line.extend_from_slice(b": ")?;
            line.extend_from_slice(bytes.as_slice())?;
        }
    }
    Ok(line)
}
