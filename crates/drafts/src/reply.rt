//! The draft of a reply to a message.

ghost use Rattle.std.specs.Prelude.{◌≡◌, ◌++◌, true, map, drop, option_map, codes, IfOk};
ghost use Rattle.std.specs.List.{list_all};
ghost use Rattle.mail_base.specs.Series.{plain_texts};
ghost use Rattle.headers.specs.Decode.{decoded_words};
ghost use Rattle.headers.specs.Field.{plain_field};
ghost use Rattle.headers.specs.Subject.{base_of};
ghost use Rattle.headers.specs.Values.{subject as subject_in};
ghost use Rattle.drafts.specs.Clean.{clean};
ghost use Rattle.drafts.specs.Draft.{plain_draft};
ghost use Rattle.drafts.specs.PlainDraft.{is_text};
ghost use Rattle.drafts.specs.Reply as spec;

use crate::clean::cleaned;
use crate::draft::Draft;
use crate::ids::{ids_before, kept_id};
use crate::quoted::quoted_lines;
use folder_letters::Letter;
use headers::{Field, decode_words, first_value, read_header};
use mail_base::{Bytes, Line, Lines, NoMemory};
use std::alloc::Global;

// Whom a reply goes to, as the field has it.
fn replied_to(fields: &[Field]) -> &[u8]
    ensures { result.now ≡ spec.replied_to (map plain_field fields.now) }
{
    match first_value(fields, b"reply-to") {
        Some(value) => value,
        None => first_value(fields, b"from").unwrap_or(&[]),
    }
}

fn to_of(alloc: Global, fields: &[Field]) -> Result<Line, NoMemory>
    ensures { IfOk result
        (λ line. line.items
        ≡ clean (decoded_words (spec.replied_to (map plain_field fields.now)))) }
{
    let value = decode_words(alloc, replied_to(fields))?;
    cleaned(alloc, value.as_slice())
}

// The subject of a reply to a message of the base subject.
fn subject_of(alloc: Global, base: &Line) -> Result<Line, NoMemory>
    ensures { IfOk result (λ line. line.items ≡ clean (codes "Re: " ++ base.now.items)) }
{
    let mut text = Bytes::copy_of(alloc, b"Re: ")?;
    text.append(base.as_slice())?;
    cleaned(alloc, text.as_slice())
}

// The draft of a reply to a message with these fields, this base subject and this id.
fn reply_with(
    alloc: Global,
    fields: &[Field],
    base: &Line,
    own: &Option<Bytes>,
    body: Lines,
) -> Result<Draft, NoMemory>
    requires subject { base.now.items ≡ base_of (subject_in (map plain_field fields.now)) }
    requires own { option_map (λ id. id.items) own.now
        ≡ spec.own_id (map plain_field fields.now) }
    requires body { list_all is_text (plain_texts body) ≡ true }
    ensures { IfOk result (λ draft. plain_draft draft
        ≡ spec.reply_with (map plain_field fields.now) (plain_texts body)) }
{
    Ok(Draft {
        to: to_of(alloc, fields)?,
        subject: subject_of(alloc, base)?,
        in_reply_to: kept_id(alloc, own)?,
        references: ids_before(alloc, fields, own)?,
        body,
    })
}

/// The draft of a reply to the letter: to its Reply-To or From, with `Re: ` before its subject, the
/// ids that lead to it (RFC 5322, section 3.6.4), and the lines of its first part of text, each
/// with the indent before it.
pub fn reply_to(alloc: Global, letter: &Letter, indent: &[u8]) -> Result<Draft, NoMemory>
    ensures { IfOk result (λ draft. plain_draft draft
        ≡ spec.reply_draft (drop letter.now.text_at letter.now.core.items) indent.now) }
{
    let raw = &letter.core.as_slice()[letter.text_at..];
    let body = quoted_lines(alloc, raw, indent)?;
    let header = read_header(alloc, raw)?;
    let fields = header.fields.as_slice();
    reply_with(
        alloc,
        fields,
        &header.base_subject,
        &header.message_id,
        body,
    )
}
