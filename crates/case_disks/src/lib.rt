//! What the cases of disks share: disks in memory, lists of words and numbers as cases name them.
#![tactic(auto)]

mod nodes;

pub use nodes::{
    disk_failing, disk_of, disk_stopped, disk_turning, numbers_of, text_of, tree_of, words_of,
};
