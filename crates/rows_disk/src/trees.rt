//! Cases of lists of nodes that are a tree, and of others.

use case_disks::tree_of;
use case_files::{Answer, Case, CaseFault, Subject};
use disk_model::is_tree;
use std::alloc::Global;

/// `file PATH` and `folder PATH` are the nodes.
pub struct Trees;

impl Subject for Trees {
    fn inputs(&self) -> &[&[u8]] {
        &[b"file", b"folder"]
    }

    fn answer(&self, alloc: Global, case: &Case, answer: &mut Answer) -> Result<(), CaseFault> {
        answer.put_flag(b"tree", is_tree(&tree_of(alloc, case)?))
    }
}
