//! Fields as they stand in a message (RFC 5322, sections 2.2 and 2.2.3).

ghost use Rattle.std.specs.Prelude.{◌≡◌, ◌<◌, ◌∷◌, ◌++◌, [], IfNone, IfSome, length};
ghost use Rattle.std.specs.Str.{byte};
ghost use Rattle.mail_base.specs.Blanks as blanks;
ghost use Rattle.mail_base.specs.Lines as lines;
ghost use Rattle.headers.specs.FoldedField as spec;

use crate::field::Field;
use bstr::ByteSlice;
use mail_base::{
    Bytes, NoMemory, colon_of, is_continuation, is_empty_line, is_same_name, split_around,
    without_blanks, without_line_end,
};
use std::alloc::Global;

/// A field as it stands in a message, where its value may go on in further lines.
#[derive(Clone, Copy)]
pub struct FoldedField<'a> {
    /// Its name as written.
    pub name: &'a [u8],
    /// The front of its value: what stands on the first of its lines that has more than blanks.
    pub value: &'a [u8],
    /// What stands behind that line in the message; the lines there may continue the value.
    pub lines: &'a [u8],
}

/// The value of a field on one line.
#[derive(Drop)]
pub enum Unfolded<'a> {
    Whole(&'a [u8]),
    Joined(Bytes),
}

impl Unfolded<'_> {
    pub fn as_slice(&self) -> &[u8]
        ensures { result.now ≡ spec.unfolded_text self.now }
    {
        match self {
            Unfolded::Whole(text) => text,
            Unfolded::Joined(text) => text.as_slice(),
        }
    }
}

/// The next line that continues a field, without the blanks at its front and its line end, which
/// are one blank of the value, and what stands behind it.
pub fn next_continuation(text: &[u8]) -> Option<(&[u8], &[u8])>
    ensures some { IfSome result
        (λ p. spec.continued text.now ≡ byte " " ∷ p.0.now ++ spec.continued p.1.now) }
    ensures none { IfNone result (spec.continued text.now ≡ []) }
    ensures front { IfSome result (λ p. blanks.without_blanks p.0.now ≡ p.0.now) }
    ensures shorter { IfSome result (λ p. length p.1.now < length text.now) }
{
    let mut lines = text.lines_with_terminator();
    while let Some(line) = lines.next() {
        if is_empty_line(line) || colon_of(line).is_some() {
            return None;
        }
        if is_continuation(line) {
            let more = without_blanks(without_line_end(line));
            return Some((more, lines.as_bytes()));
        }
    }
    None
}

// The text without the blanks at its front, where it goes on in these lines.
fn skip_blanks<'a>(text: &'a [u8], lines: &'a [u8]) -> (&'a [u8], &'a [u8])
    ensures { result.0.now ++ spec.continued result.1.now
        ≡ blanks.without_blanks (text.now ++ spec.continued lines.now) }
{
    let mut first = without_blanks(text);
    let mut left = lines;
    while first.is_empty() {
        let Some((more, rest)) = next_continuation(left) else {
            return (first, left);
        };
        first = more;
        left = rest;
    }
    (first, left)
}

impl<'a> FoldedField<'a> {
    ghost use Rattle.std.specs.Prelude.{◌≡◌, ◌<◌, ◌∷◌, [], Some, IfNone, IfOk, IfSome, length};
    ghost use Rattle.std.specs.Prelude.{option_map};
    ghost use Rattle.std.specs.List.{find};
    ghost use Rattle.bstr.specs.Text.{lines_of};
    ghost use Rattle.mail_base.specs.Lines as lines;
    ghost use Rattle.headers.specs.Field.{plain_field};
    ghost use Rattle.headers.specs.FoldedField as spec;
    ghost use Rattle.headers.specs.Values.{is_named};

    // The field that a line begins, whose name ends at the colon.
    fn begin(line: &'a [u8], colon: usize, behind: &'a [u8]) -> FoldedField<'a>
        requires { lines.colon_of line.now ≡ Some colon }
        ensures { spec.plain_folded result ≡ spec.begun line.now behind.now }
    {
        let (name, tail) = split_around(line, colon);
        let (value, lines) = skip_blanks(without_line_end(tail), behind);
        FoldedField { name, value, lines }
    }

    /// The first field of the header block with which a text begins, and what stands behind its
    /// first line.
    pub fn next(text: &'a [u8]) -> Option<(FoldedField<'a>, &'a [u8])>
        ensures some { IfSome result (λ p. lines.message_fields text.now
            ≡ spec.plain_folded p.0 ∷ lines.message_fields p.1.now) }
        ensures none { IfNone result (lines.message_fields text.now ≡ []) }
        ensures shorter { IfSome result (λ p. length p.1.now < length text.now) }
    {
        let mut lines = text.lines_with_terminator();
        while let Some(line) = lines.next() {
            if is_empty_line(line) {
                return None;
            }
            if let Some(colon) = colon_of(line) {
                let behind = lines.as_bytes();
                return Some((FoldedField::begin(line, colon, behind), behind));
            }
        }
        None
    }

    /// The first field of the name in the header block with which a text begins.
    pub fn named(text: &'a [u8], name: &[u8]) -> Option<FoldedField<'a>>
        ensures { option_map spec.plain_folded result
            ≡ find (is_named name.now) (lines.message_fields text.now) }
    {
        let mut left = text;
        while let Some((field, rest)) = FoldedField::next(left) {
            if is_same_name(field.name, name) {
                return Some(field);
            }
            left = rest;
        }
        None
    }

    /// The value in one piece.
    pub fn join(&self, alloc: Global) -> Result<Bytes, NoMemory>
        ensures { IfOk result (λ text. text.items ≡ (spec.plain_folded self.now).value) }
    {
        let mut text = Bytes::copy_of(alloc, self.value)?;
        let mut left = self.lines;
        while let Some((more, rest)) = next_continuation(left) {
            text.push(b' ')?;
            text.append(more)?;
            left = rest;
        }
        Ok(text)
    }

    /// The value, which takes memory where it is folded.
    pub fn unfold(&self, alloc: Global) -> Result<Unfolded<'a>, NoMemory>
        ensures { IfOk result
            (λ value. spec.unfolded_text value ≡ (spec.plain_folded self.now).value) }
    {
        if next_continuation(self.lines).is_none() {
            return Ok(Unfolded::Whole(self.value));
        }
        Ok(Unfolded::Joined(self.join(alloc)?))
    }

    /// A copy of the field, with its value on one line.
    pub fn to_field(&self, alloc: Global) -> Result<Field, NoMemory>
        ensures { IfOk result (λ field. plain_field field ≡ spec.plain_folded self.now) }
    {
        Ok(Field {
            name: Bytes::copy_of(alloc, self.name)?,
            value: self.join(alloc)?,
        })
    }
}
