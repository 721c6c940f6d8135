//! What an image holds where a stop leaves it open.

/// What stands in an image where a stop leaves it open.
#[derive(Clone, Copy, Debug, PartialEq, Eq)]
pub enum Fill {
    /// The bytes that were on the disk before, in their length.
    Kept,
    /// The bytes that were written since.
    Written,
    /// This byte, and each file at the greatest length that it may have.
    Byte(u8),
}
