//! A message in the order of the index.

use threads::Link;

/// Where the message stands that another follows, and by what it follows it.
#[derive(Clone, Copy, Debug, PartialEq, Eq)]
pub struct Above {
    pub place: usize,
    pub link: Link,
}

/// What decides whether a message is seen, and under which it stands; places are those of the
/// order of the index.
#[derive(Clone, Copy, Debug, PartialEq, Eq)]
pub struct Entry {
    pub parent: Option<Above>,
    /// Where the root of its thread stands.
    pub root: usize,
    /// It satisfies the limit, or there is none.
    pub satisfies: bool,
    /// Its thread is shut.
    pub is_shut: bool,
}
