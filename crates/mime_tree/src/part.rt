//! A part of a message.

use crate::encoding::Encoding;
use mail_base::{Bytes, Line, Series};

/// A part of a message (RFC 2045, section 2.4).
#[derive(Drop)]
pub struct Part {
    /// How many parts it stands in.
    pub nesting: u32,
    /// The `type/subtype` in lower case.
    pub content: Bytes,
    /// The charset in lower case, or nothing.
    pub charset: Bytes,
    /// The name of its file with encoded words decoded, or nothing.
    pub filename: Line,
    pub encoding: Encoding,
    pub attachment: bool,
    /// The place of the empty line that ends its header block, or the end of the part.
    pub body_at: usize,
    /// The end of the part.
    pub body_end: usize,
}

/// A list of parts.
pub type Parts = Series<Part>;
