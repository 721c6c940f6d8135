//! Where commands are given.

/// The file in which a command is given, and its line.
#[derive(Clone, Copy, Debug)]
pub struct CommandPlace<'a> {
    pub file: &'a [u8],
    /// From 1.
    pub line: u32,
}
