//! The part that a section holds, and the sections in it.

ghost use Rattle.std.specs.Prelude.{◌≡◌, ◌+◌, ◌<◌, ◌^◌, [], false, length, map, option_map};
ghost use Rattle.std.specs.Prelude.{unwrap_or, codes, IfOk};
ghost use Rattle.std.specs.Str.{str_to_ascii_lowercase};
ghost use Rattle.headers.specs.Field.{plain_field};
ghost use Rattle.mail_base.specs.Lines.{message_fields};
ghost use Rattle.mime_tree.specs.Cut.{body_section};
ghost use Rattle.mime_tree.specs.Entity as spec;
ghost use Rattle.mime_tree.specs.Part.{plain_part};
ghost use Rattle.mime_tree.specs.Section.{plain_section};

use crate::cut::{cut_sections, is_cut};
use crate::dash_lines::starts_from;
use crate::encoding::Encoding;
use crate::media_type::media_type;
use crate::parameter::parameter_of;
use crate::part::Part;
use crate::section::Section;
use headers::{Field, decode_words, first_value, read_fields};
use mail_base::{Bytes, Line, NoMemory, behind_text, body_at, body_of, is_same_name, token_len};
use std::alloc::Global;

/// A part of a message, and the sections that stand directly in it.
#[derive(Drop)]
pub struct Entity<'a> {
    pub part: Part,
    pub children: Vec<Section<'a>>,
}

fn value_in<'a>(fields: &'a [Field], name: &[u8]) -> &'a [u8]
    ensures { result.now ≡ spec.value_in name.now (map plain_field fields.now) }
{
    first_value(fields, name).unwrap_or(&[])
}

fn parameter_in(
    alloc: Global,
    fields: &[Field],
    field: &[u8],
    name: &[u8],
) -> Result<Option<Bytes>, NoMemory>
    ensures { IfOk result (λ o. option_map (λ b. b.items) o
        ≡ spec.parameter_in field.now name.now (map plain_field fields.now)) }
{
    parameter_of(alloc, value_in(fields, field), name)
}

// A parameter of the Content-Type, or nothing.
fn type_parameter(alloc: Global, fields: &[Field], name: &[u8]) -> Result<Bytes, NoMemory>
    ensures { IfOk result (λ b. b.items ≡ unwrap_or
        (spec.parameter_in (codes "content-type") name.now (map plain_field fields.now)) []) }
{
    match parameter_in(alloc, fields, b"content-type", name)? {
        Some(value) => Ok(value),
        None => Ok(Bytes::new(alloc)),
    }
}

fn lowered(alloc: Global, text: &[u8]) -> Result<Bytes, NoMemory>
    ensures { IfOk result (λ b. b.items ≡ str_to_ascii_lowercase text.now) }
{
    Ok(Bytes::from_vec(text.to_ascii_lowercase(alloc)?))
}

fn default_type(in_digest: bool) -> &'static [u8]
    ensures { result.now ≡ spec.default_type in_digest }
{
    if in_digest {
        return b"message/rfc822";
    }
    b"text/plain"
}

fn written_type<'a>(in_digest: bool, value: Option<&'a [u8]>) -> &'a [u8]
    ensures { result.now ≡ spec.written_type in_digest (option_map (λ r. r.now) value.entry) }
{
    match value {
        Some(value) => media_type(value).unwrap_or(b"text/plain"),
        None => default_type(in_digest),
    }
}

fn is_multipart(content: &[u8]) -> bool
    ensures { result ≡ spec.is_multipart content.now }
{
    behind_text(b"multipart/", content).is_some()
}

/// The type that the fields of a part name, in lower case.
pub fn named_type(alloc: Global, fields: &[Field], in_digest: bool) -> Result<Bytes, NoMemory>
    ensures { IfOk result (λ b. b.items ≡ spec.named_type in_digest (map plain_field fields.now)) }
{
    let content = written_type(in_digest, first_value(fields, b"content-type"));
    lowered(alloc, content)
}

/// Whether parts may stand in a part of the type.
pub fn holds_parts(content: &[u8]) -> bool
    ensures { result ≡ spec.holds_parts content.now }
{
    is_multipart(content) || content == b"message/rfc822".as_slice()
}

// The type of a part in lower case. A multipart whose boundary does not occur is text.
fn type_of(
    alloc: Global,
    fields: &[Field],
    in_digest: bool,
    boundary: &[u8],
    body: Section<'_>,
) -> Result<Bytes, NoMemory>
    ensures { IfOk result (λ b. b.items ≡ spec.shown_type
        (spec.named_type in_digest (map plain_field fields.now)) boundary.now body.entry.text.now) }
{
    let content = named_type(alloc, fields, in_digest)?;
    if is_multipart(content.as_slice()) && !is_cut(boundary, body) {
        return Bytes::copy_of(alloc, b"text/plain");
    }
    Ok(content)
}

fn charset_of(alloc: Global, fields: &[Field]) -> Result<Bytes, NoMemory>
    ensures { IfOk result (λ b. b.items ≡ spec.charset_of (map plain_field fields.now)) }
{
    let charset = type_parameter(alloc, fields, b"charset")?;
    lowered(alloc, charset.as_slice())
}

// The name of a part's file with its encoded words decoded.
fn filename_of(alloc: Global, fields: &[Field]) -> Result<Line, NoMemory>
    ensures { IfOk result (λ l. l.items ≡ spec.filename_of (map plain_field fields.now)) }
{
    if let Some(name) = parameter_in(alloc, fields, b"content-disposition", b"filename")? {
        return decode_words(alloc, name.as_slice());
    }
    let name = type_parameter(alloc, fields, b"name")?;
    decode_words(alloc, name.as_slice())
}

fn is_attachment(value: &[u8]) -> bool
    ensures { result ≡ spec.is_attachment value.now }
{
    let (disposition, _) = value.split_at(token_len(value));
    is_same_name(disposition, b"attachment")
}

// What stands behind the header block.
fn body_in<'a>(section: Section<'a>) -> Section<'a>
    ensures { plain_section result ≡ body_section (plain_section section.entry) }
{
    let text = section.text;
    let body = body_of(text);
    let start = section.start + (text.len() - body.len());
    Section {
        start,
        text: body,
        in_digest: false,
        dashes: starts_from(start, section.dashes),
    }
}

// The sections in a body of a type.
fn sections_in<'a>(
    alloc: Global,
    content: &[u8],
    boundary: &[u8],
    mut body: Section<'a>,
) -> Result<Vec<Section<'a>>, NoMemory>
    requires { body.in_digest ≡ false }
    ensures { IfOk result (λ v. map plain_section v.items
        ≡ spec.sections_in content.now boundary.now body.entry.start body.entry.text.now) }
{
    if is_multipart(content) {
        body.in_digest = content == b"multipart/digest".as_slice();
        return cut_sections(alloc, boundary, body);
    }
    let mut sections = Vec::new(alloc);
    if content == b"message/rfc822".as_slice() {
        sections.push(body)?;
    }
    Ok(sections)
}

/// The part that stands in a range of a message, of this type.
pub fn part_of(
    alloc: Global,
    start: usize,
    text: &[u8],
    nesting: u32,
    fields: &[Field],
    content: Bytes,
) -> Result<Part, NoMemory>
    requires fits { start + length text.now < 2 ^ 64 }
    requires fields { map plain_field fields.now ≡ message_fields text.now }
    ensures { IfOk result
        (λ p. plain_part p ≡ spec.typed_part nesting start text.now content.items) }
{
    let charset = charset_of(alloc, fields)?;
    let filename = filename_of(alloc, fields)?;
    Ok(Part {
        nesting,
        content,
        charset,
        filename,
        encoding: Encoding::from_value(value_in(fields, b"content-transfer-encoding")),
        attachment: is_attachment(value_in(fields, b"content-disposition")),
        body_at: start + body_at(text),
        body_end: start + text.len(),
    })
}

impl<'a> Entity<'a> {
    pub fn read(alloc: Global, section: Section<'a>, nesting: u32) -> Result<Entity<'a>, NoMemory>
        ensures part { IfOk result
            (λ e. plain_part e.part ≡ spec.part_of nesting (plain_section section.entry)) }
        ensures children { IfOk result
            (λ e. map plain_section e.children.items
            ≡ spec.children_of (plain_section section.entry)) }
    {
        let body = body_in(section);
        let fields = read_fields(alloc, section.text)?;
        let list = fields.as_slice();
        let boundary = type_parameter(alloc, list, b"boundary")?;
        let content = type_of(alloc, list, section.in_digest, boundary.as_slice(), body)?;
        let children = sections_in(alloc, content.as_slice(), boundary.as_slice(), body)?;
        let part = part_of(alloc, section.start, section.text, nesting, list, content)?;
        Ok(Entity { part, children })
    }
}
