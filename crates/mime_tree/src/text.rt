//! The text of a part, decoded to lines.

ghost use Rattle.std.specs.Prelude.{◌≡◌, ◌≤◌, ◌++◌, length, slice_range, IfOk, OnOk};
ghost use Rattle.mail_base.specs.Series.{plain_texts};
ghost use Rattle.mime_tree.specs.Text as spec;

use crate::base64_body::decode_base64_body;
use crate::encoding::Encoding;
use crate::part::Part;
use crate::quoted::decode_quoted;
use bstr::ByteSlice;
use headers::Charset;
use mail_base::{Lines, NoMemory, behind_line};
use std::alloc::Global;

/// Adds the lines of a text of a charset, without their line ends. Room is made first for a line in
/// 64 bytes, so that a long list is seldom moved.
pub fn append_lines(
    alloc: Global,
    lines: &mut Lines,
    charset: Charset,
    text: &[u8],
) -> Result<(), NoMemory>
    ensures { OnOk result
        (plain_texts lines.new ≡ plain_texts lines.old ++ spec.lines_in charset text.now) }
{
    lines.reserve(text.len() / 64)?;
    for bytes in text.lines() {
        lines.push(charset.line_of(alloc, bytes)?)?;
    }
    Ok(())
}

/// Adds the text of a part that was read from these bytes: its body decoded, as lines without their
/// line ends. A text of no charset is read as US-ASCII.
pub fn append_text(
    alloc: Global,
    lines: &mut Lines,
    raw: &[u8],
    part: &Part,
) -> Result<(), NoMemory>
    requires order { part.now.body_at ≤ part.now.body_end }
    requires within { part.now.body_end ≤ length raw.now }
    ensures { OnOk result (plain_texts lines.new ≡ plain_texts lines.old
        ++ spec.decoded_lines part.now.encoding part.now.charset.items
        (slice_range raw.now part.now.body_at part.now.body_end)) }
{
    let body = behind_line(&raw[part.body_at..part.body_end]);
    let charset = Charset::from_name(part.charset.as_slice());
    match part.encoding {
        Encoding::Plain => append_lines(alloc, lines, charset, body),
        Encoding::Base64 => {
            let text = decode_base64_body(alloc, body)?;
            append_lines(alloc, lines, charset, text.as_slice())
        }
        Encoding::Quoted => {
            let text = decode_quoted(alloc, body)?;
            append_lines(alloc, lines, charset, text.as_slice())
        }
    }
}

/// The text of a part that was read from these bytes, as `append_text` adds it.
pub fn decoded_text(alloc: Global, raw: &[u8], part: &Part) -> Result<Lines, NoMemory>
    requires order { part.now.body_at ≤ part.now.body_end }
    requires within { part.now.body_end ≤ length raw.now }
    ensures { IfOk result
        (λ l. plain_texts l ≡ spec.decoded_lines part.now.encoding part.now.charset.items
        (slice_range raw.now part.now.body_at part.now.body_end)) }
{
    let mut lines = Lines::new(alloc);
    append_text(alloc, &mut lines, raw, part)?;
    Ok(lines)
}
