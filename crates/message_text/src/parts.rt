//! The parts of a message, and how they stand in one another.

ghost use Rattle.std.specs.Prelude.{◌≡◌, ◌<◌, ◌≤◌, All, IfOk, IfSome, drop, length, map};
ghost use Rattle.std.specs.Prelude.{option_map};
ghost use Rattle.std.specs.List.{find};
ghost use Rattle.mime_tree.specs.Order.{StandsWithin};
ghost use Rattle.mime_tree.specs.Part.{plain_part, plain_parts};
ghost use Rattle.mime_tree.specs.Parts.{parts_of};
ghost use Rattle.message_text.specs.Branch.{children, chosen};
ghost use Rattle.message_text.specs.Source as spec;

use crate::look::is_text;
use mail_base::NoMemory;
use mime_tree::{MimeError, Part, Parts, read_parts};
use std::alloc::Global;

/// Which texts are sought among the parts of an alternative.
#[derive(Clone, Copy, Debug, PartialEq, Eq)]
pub enum TextKind {
    Plain,
    Any,
}

/// The parts of a message, unless they nest too deep.
pub fn parts_in(alloc: Global, raw: &[u8]) -> Result<Option<Parts>, NoMemory>
    ensures value { IfOk result (λ o. option_map plain_parts o ≡ parts_of raw.now) }
    ensures within { IfOk result
        (λ o. IfSome o (λ parts. All (StandsWithin (length raw.now)) parts.items)) }
{
    match read_parts(alloc, raw) {
        Ok(parts) => Ok(Some(parts)),
        Err(MimeError::TooDeep) => Ok(None),
        Err(MimeError::NoMemory) => Err(NoMemory),
    }
}

/// The place of the next part that stands directly in a part of the nesting, from a place behind
/// that part on.
pub fn next_child(parts: &[Part], nesting: u32, from: usize) -> Option<usize>
    ensures value { children nesting (drop from (map plain_part parts.now))
        ≡ spec.children_at nesting (map plain_part parts.now) result }
    ensures from { IfSome result (λ at. from ≤ at) }
    ensures within { IfSome result (λ at. at < length parts.now) }
{
    let mut at = from;
    while at < parts.len() {
        let part = &parts[at];
        if part.nesting <= nesting {
            return None;
        }
        if part.nesting - nesting == 1 {
            return Some(at);
        }
        at += 1;
    }
    None
}

impl TextKind {
    ghost use Rattle.std.specs.Prelude.{◌≡◌, ◌∷◌, []};
    ghost use Rattle.mime_tree.specs.Part.{plain_part};
    ghost use Rattle.message_text.specs.Source as spec;

    fn has(self, part: &Part) -> bool
        ensures { result ≡ spec.is_of_kind self (plain_part part.now ∷ []) }
    {
        let content = part.content.as_slice();
        match self {
            TextKind::Plain => content == b"text/plain".as_slice(),
            TextKind::Any => is_text(content),
        }
    }
}

// The place of the first text of the kind that stands directly in a part of the nesting, from a
// place behind that part on.
fn text_child(parts: &[Part], nesting: u32, behind: usize, kind: TextKind) -> Option<usize>
    ensures value { spec.branch_at (map plain_part parts.now) result
        ≡ find (spec.is_of_kind kind) (children nesting (drop behind (map plain_part parts.now))) }
    ensures within { IfSome result (λ at. at < length parts.now) }
    ensures behind { IfSome result (λ at. behind ≤ at) }
{
    let mut from = behind;
    while let Some(at) = next_child(parts, nesting, from) {
        if kind.has(&parts[at]) {
            return Some(at);
        }
        from = at + 1;
    }
    None
}

/// The place of the part that an alternative of the nesting shows.
pub fn chosen_child(parts: &[Part], nesting: u32, behind: usize) -> Option<usize>
    ensures value { spec.branch_at (map plain_part parts.now) result
        ≡ chosen (children nesting (drop behind (map plain_part parts.now))) }
    ensures within { IfSome result (λ at. at < length parts.now) }
{
    match text_child(parts, nesting, behind, TextKind::Plain) {
        Some(at) => Some(at),
        None => text_child(parts, nesting, behind, TextKind::Any),
    }
}
