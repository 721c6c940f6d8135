//! What the lines of a part are made of.

ghost use Rattle.std.specs.Prelude.{All, length};
ghost use Rattle.mime_tree.specs.Order.{StandsWithin};

use crate::weeding::Weeding;
use mime_tree::Part;

/// What the lines of a part are made of: the text of the message, its parts, and what is shown of
/// headers.
#[derive(Clone, Copy)]
pub struct Source<'a> {
    pub raw: &'a [u8],
    pub parts: &'a [Part],
    pub weed: &'a Weeding,
    ghost within: { All (StandsWithin (length raw.now)) parts.now },
}
