//! A field of a header block.

use mail_base::{Bytes, Series};

/// A field of a header block: its name as written, and its value on one line (RFC 5322, section
/// 2.2).
#[derive(Drop)]
pub struct Field {
    pub name: Bytes,
    pub value: Bytes,
}

/// A list of fields.
pub type Fields = Series<Field>;
