//! The first tree of a disk, and the state that a journal begins with.

ghost use Rattle.std.specs.Prelude.{◌≡◌, ◌++◌, ◌<◌, ◌≤◌, ◌+◌, ◌^◌, length, map, IfOk, OnOk};
ghost use Rattle.disk_model.specs.Node.{plain_bytes, plain_node};
ghost use Rattle.disk_model.specs.State.{files_of, first_clock, number_of, state_of};
ghost use Rattle.disk_model.specs.Tree.{next_stamp, stamped, stamped_node};
ghost use Rattle.disk_state.specs.Plain.{plain_file, plain_first, plain_kept, plain_state};

use crate::file::File;
use crate::names::Name;
use crate::state::State;
use disk_model::Node;
use mail_base::{Bytes, NoMemory};
use std::alloc::Global;

/// A node with its stamp. A folder's stamp is 0.
#[derive(Drop)]
pub(crate) struct Kept {
    pub path: Bytes,
    pub bytes: Option<Bytes>,
    pub stamp: u128,
}

/// The first tree, and a stamp above all of it.
#[derive(Drop)]
pub struct First {
    pub(crate) tree: Vec<Kept>,
    pub clock: u128,
}

impl First {
    /// The nodes with stamps that go up from 1.
    pub fn new(alloc: Global, nodes: &[Node]) -> Result<First, NoMemory>
        ensures tree { IfOk result (λ first. plain_first first
            ≡ stamped 1 (map plain_node nodes.now)) }
        ensures clock { IfOk result (λ first. first.clock ≡ first_clock (plain_first first)) }
        ensures small { IfOk result (λ first. first.clock ≤ 2 ^ 64) }
    {
        let mut tree = Vec::new(alloc);
        let mut stamp = 1u128;
        let mut left = nodes;
        while let [node, rest @ ..] = left {
            tree.push(kept_of(alloc, node, stamp)?)?;
            stamp = next_stamp(stamp, node);
            left = rest;
        }
        Ok(First { tree, clock: stamp })
    }

    /// The state that a journal begins with.
    pub fn state(&self, alloc: Global) -> Result<State, NoMemory>
        ensures { IfOk result (λ state. plain_state state
            ≡ record (state_of (plain_first self.now)) { clock = self.now.clock }) }
    {
        let mut names = Vec::new(alloc);
        let mut files = Vec::new(alloc);
        let mut left = self.tree.as_slice();
        while let [kept, rest @ ..] = left {
            let file = add_file(alloc, &mut files, kept)?;
            names.push(Name {
                path: Bytes::copy_of(alloc, kept.path.as_slice())?,
                file,
            })?;
            left = rest;
        }
        Ok(State {
            names,
            earlier: Vec::new(alloc),
            files,
            clock: self.clock,
        })
    }
}

/// The stamp behind that of a node: a folder takes none.
fn next_stamp(stamp: u128, node: &Node) -> u128
    requires { stamp < 2 ^ 127 }
    ensures { result ≡ next_stamp (plain_node node.now).bytes stamp }
{
    match node.bytes {
        Some(_) => stamp + 1,
        None => stamp,
    }
}

fn kept_of(alloc: Global, node: &Node, stamp: u128) -> Result<Kept, NoMemory>
    ensures { IfOk result (λ kept. plain_kept kept ≡ stamped_node (plain_node node.now) stamp) }
{
    let path = Bytes::copy_of(alloc, node.path.as_slice())?;
    match &node.bytes {
        Some(bytes) => Ok(Kept {
            path,
            bytes: Some(Bytes::copy_of(alloc, bytes.as_slice())?),
            stamp,
        }),
        None => Ok(Kept {
            path,
            bytes: None,
            stamp: 0,
        }),
    }
}

/// Adds the file of a node, where it is one, and gives its number.
fn add_file(alloc: Global, files: &mut Vec<File>, kept: &Kept) -> Result<Option<usize>, NoMemory>
    ensures files { OnOk result (map plain_file files.new.items ≡ map plain_file files.old.items
        ++ files_of (plain_bytes kept.now.bytes) kept.now.stamp) }
    ensures number { IfOk result (λ number. number
        ≡ number_of (plain_bytes kept.now.bytes) (length files.old.items)) }
{
    let Some(bytes) = &kept.bytes else {
        return Ok(None);
    };
    let number = files.len();
    files.push(File::durable(alloc, bytes.as_slice(), kept.stamp)?)?;
    Ok(Some(number))
}
