//! The lines of a part and of those that stand in it.

ghost use Rattle.std.specs.Prelude.{◌≡◌, ◌+◌, ◌<◌, ◌++◌, ◌∷◌, [], drop, length, map, slice_range};
ghost use Rattle.std.specs.Prelude.{OnOk};
ghost use Rattle.mail_base.specs.Series.{plain_texts};
ghost use Rattle.mime_tree.specs.Order.{StandsWithin};
ghost use Rattle.mime_tree.specs.Part.{plain_part};
ghost use Rattle.mime_tree.specs.Text.{decoded_lines};
ghost use Rattle.message_text.specs.Branch as spec;
ghost use Rattle.message_text.specs.Header.{header_lines};
ghost use Rattle.message_text.specs.Source.{lines_of_branch, parts_of_source};
ghost use Rattle.message_text.specs.Weeding.{plain_weeding};

use crate::header::add_header;
use crate::look::Look;
use crate::marks::{add_mark_before, unsupported_mark};
use crate::parts::{chosen_child, next_child};
use crate::source::Source;
use crate::weeding::Weeding;
use mail_base::{Line, Lines, NoMemory, behind_line};
use mime_tree::{Part, append_text};
use std::alloc::Global;

/// Adds the header of a message that has the text, and an empty line.
pub fn add_head(
    alloc: Global,
    lines: &mut Lines,
    text: &[u8],
    weed: &Weeding,
) -> Result<(), NoMemory>
    ensures { OnOk result (plain_texts lines.new
        ≡ plain_texts lines.old ++ header_lines (plain_weeding weed.now) text.now ++ [] ∷ []) }
{
    add_header(alloc, lines, text, weed)?;
    lines.push(Line::new(alloc))
}

// The body of a part as it stands.
fn raw_body<'a>(raw: &'a [u8], part: &Part) -> &'a [u8]
    requires { StandsWithin (length raw.now) part.now }
    ensures { result.now ≡ spec.raw_body raw.entry.now (plain_part part.now) }
{
    behind_line(&raw[part.body_at..part.body_end])
}

// Adds parts that stand directly in a part of the nesting, from a place behind that part on.
#[cycle(parts)]
fn add_children(
    alloc: Global,
    lines: &mut Lines,
    source: &Source<'_>,
    nesting: u32,
    behind: usize,
    levels: u32,
) -> Result<(), NoMemory>
    ensures { OnOk result (plain_texts lines.new ≡ plain_texts lines.old
        ++ spec.mixed_lines (lines_of_branch levels source.now) 0
        (spec.children nesting (drop behind (parts_of_source source.now)))) }
{
    let mut before = 0;
    let mut from = behind;
    while let Some(at) = next_child(source.parts, nesting, from) {
        let child = &source.parts[at];
        add_mark_before(alloc, lines, before, child.content.as_slice())?;
        add_part(alloc, lines, source, at, levels)?;
        before += 1;
        from = at + 1;
    }
    Ok(())
}

// Adds the part that an alternative of the nesting shows, or all of them.
#[cycle(parts)]
fn add_chosen(
    alloc: Global,
    lines: &mut Lines,
    source: &Source<'_>,
    nesting: u32,
    behind: usize,
    levels: u32,
) -> Result<(), NoMemory>
    ensures { let children = spec.children nesting (drop behind (parts_of_source source.now)) in
        OnOk result (plain_texts lines.new ≡ plain_texts lines.old
        ++ spec.alternative_lines (lines_of_branch levels source.now) children
        (spec.chosen children)) }
{
    match chosen_child(source.parts, nesting, behind) {
        Some(at) => add_part(alloc, lines, source, at, levels),
        None => add_children(alloc, lines, source, nesting, behind, levels),
    }
}

// Adds a part by its look; the parts behind it begin at a place.
#[cycle(parts)]
fn add_looked(
    alloc: Global,
    lines: &mut Lines,
    source: &Source<'_>,
    part: &Part,
    behind: usize,
    look: Look,
    levels: u32,
) -> Result<(), NoMemory>
    requires { StandsWithin (length source.now.raw.now) part.now }
    ensures { OnOk result (plain_texts lines.new ≡ plain_texts lines.old
        ++ spec.looked_lines (lines_of_branch levels source.now)
        (plain_weeding source.now.weed.now) source.now.raw.now (plain_part part.now)
        (spec.children part.now.nesting (drop behind (parts_of_source source.now))) look) }
{
    match look {
        Look::Text => append_text(alloc, lines, source.raw, part),
        Look::Alternative => add_chosen(alloc, lines, source, part.nesting, behind, levels),
        Look::Mixed => add_children(alloc, lines, source, part.nesting, behind, levels),
        Look::Message => {
            add_head(alloc, lines, raw_body(source.raw, part), source.weed)?;
            add_children(alloc, lines, source, part.nesting, behind, levels)
        }
        Look::Unsupported => lines.push(unsupported_mark(alloc, part.content.as_slice())?),
    }
}

/// Adds the part at a place, in which others may stand so many levels deep with itself.
#[cycle(parts)]
pub fn add_part(
    alloc: Global,
    lines: &mut Lines,
    source: &Source<'_>,
    at: usize,
    levels: u32,
) -> Result<(), NoMemory>
    requires { at < length source.now.parts.now }
    ensures { OnOk result (plain_texts lines.new ≡ plain_texts lines.old
        ++ lines_of_branch levels source.now (drop at (parts_of_source source.now))) }
{
    if levels == 0 {
        return Ok(());
    }
    let part = &source.parts[at];
    let look = Look::of(part.content.as_slice());
    add_looked(alloc, lines, source, part, at + 1, look, levels - 1)
}
