//! A section cut at its first delimiter line.

ghost use Rattle.std.specs.Prelude.{◌≡◌, ◌-◌, ◌≤◌, ◌<◌, length, map, position, IfOk, IfSome};
ghost use Rattle.mime_tree.specs.Cut as spec;
ghost use Rattle.mime_tree.specs.DashLines as dashes;
ghost use Rattle.mime_tree.specs.Delimiter as delimiter;
ghost use Rattle.mime_tree.specs.Section.{plain_section};

use crate::delimiter::LineKind;
use crate::section::Section;
use mail_base::{NoMemory, behind_line, behind_text, first_line, without_line_end};
use std::alloc::Global;

/// A section cut at its first delimiter line.
#[derive(Clone, Copy)]
pub struct Cut<'a> {
    /// What stands before the line, to which the line end before it belongs.
    pub front: Section<'a>,
    /// Whether the line ends the multipart.
    pub closes: bool,
    /// What stands behind the line.
    pub rest: Section<'a>,
}

// Whether two dashes and the boundary stand at the front of the text.
fn may_delimit(boundary: &[u8], text: &[u8]) -> bool
    ensures { result ≡ dashes.may_delimit boundary.now text.now }
{
    match behind_text(b"--", text) {
        Some(tail) => behind_text(boundary, tail).is_some(),
        None => false,
    }
}

// Whether the first line of the text is a delimiter line. Most are of another boundary, and that is
// the faster test.
fn begins_with_delimiter(boundary: &[u8], text: &[u8]) -> bool
    ensures { result ≡ dashes.delimits_at boundary.now text.now 0 }
{
    if !may_delimit(boundary, text) {
        return false;
    }
    LineKind::of_line(boundary, first_line(text)).is_delimiter()
}

// Whether the line that starts at a place of the text is a delimiter line.
fn delimits_at(boundary: &[u8], text: &[u8], place: usize) -> bool
    ensures { result ≡ dashes.delimits_at boundary.now text.now place }
{
    let (_, line_on) = text.split_at(place.min(text.len()));
    begins_with_delimiter(boundary, line_on)
}

// Which of the places is that of the first delimiter line. The text starts at a place of its own.
fn next_delimiter(boundary: &[u8], text: &[u8], start: usize, places: &[usize]) -> Option<usize>
    ensures value { result
        ≡ position (λ at. dashes.delimits_at boundary.now text.now (at - start)) places.now }
    ensures within { IfSome result (λ index. index < length places.now) }
{
    places
        .iter()
        .position(|at| delimits_at(boundary, text, at.saturating_sub(start)))
}

/// Whether the boundary is not empty and occurs in the body.
pub fn is_cut(boundary: &[u8], body: Section<'_>) -> bool
    ensures { result ≡ delimiter.is_cut boundary.now body.entry.text.now }
{
    !boundary.is_empty() && next_delimiter(boundary, body.text, body.start, body.dashes).is_some()
}

impl<'a> Cut<'a> {
    fn find(boundary: &[u8], section: Section<'a>) -> Option<Cut<'a>>
        ensures first { spec.first_of boundary.now (plain_section section.entry)
            ≡ spec.front_of (plain_section section.entry) result }
        ensures behind { spec.sections_of boundary.now (plain_section section.entry)
            ≡ spec.behind_cut boundary.now result }
        ensures fewer { spec.lines_left result ≤ length section.entry.dashes.now }
    {
        let places = section.dashes;
        let Some(index) = next_delimiter(boundary, section.text, section.start, places) else {
            return None;
        };
        let at = places[index];
        let (front, line_on) = section.text.split_at(at - section.start);
        let rest = behind_line(line_on);
        Some(Cut {
            front: Section {
                start: section.start,
                text: without_line_end(front),
                in_digest: section.in_digest,
                dashes: &places[..index],
            },
            closes: LineKind::of_line(boundary, first_line(line_on)).is_closing(),
            rest: Section {
                start: at + (line_on.len() - rest.len()),
                text: rest,
                in_digest: section.in_digest,
                dashes: &places[index + 1..],
            },
        })
    }
}

// The front of a section that is cut, else the section.
fn front_of<'a>(section: Section<'a>, cut: Option<Cut<'a>>) -> Section<'a>
    ensures { plain_section result ≡ spec.front_of (plain_section section.entry) cut.entry }
{
    match cut {
        Some(cut) => cut.front,
        None => section,
    }
}

/// The parts of a multipart of the boundary in its body.
pub fn cut_sections<'a>(
    alloc: Global,
    boundary: &[u8],
    body: Section<'a>,
) -> Result<Vec<Section<'a>>, NoMemory>
    ensures { IfOk result (λ v. map plain_section v.items
        ≡ spec.sections_of boundary.now (plain_section body.entry)) }
{
    let mut sections = Vec::new(alloc);
    let mut next = Cut::find(boundary, body);
    while let Some(cut) = next {
        if cut.closes {
            return Ok(sections);
        }
        next = Cut::find(boundary, cut.rest);
        sections.push(front_of(cut.rest, next))?;
    }
    Ok(sections)
}
