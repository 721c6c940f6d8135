//! A link from one place to another.

use crate::options::Link;

/// Where a link leads, and by what.
#[derive(Clone, Copy)]
pub struct Step {
    pub place: usize,
    pub link: Link,
}
