//! A range of a message that holds a part or its body.

ghost use Rattle.std.specs.Prelude.{◌≡◌, ◌+◌, ◌<◌, ◌^◌, length};
ghost use Rattle.bstr.specs.Text.{lines_of};
ghost use Rattle.mime_tree.specs.DashLines.{dash_starts};

/// A range of a message that holds a part or its body.
#[derive(Clone, Copy, Debug)]
pub struct Section<'a> {
    pub start: usize,
    pub text: &'a [u8],
    /// Whether the part, or the parts in the body, stand in a digest.
    pub in_digest: bool,
    /// Where its lines start that begin with two dashes.
    pub dashes: &'a [usize],
    ghost fits: { start + length text.now < 2 ^ 64 },
    ghost marked: { dashes.now ≡ dash_starts start (lines_of text.now) },
}
