//! The bytes of drafts.

ghost use Rattle.std.specs.Prelude.{◌≡◌, ◌++◌, ◌∷◌, [], IfOk, OnOk, option_map};
ghost use Rattle.std.specs.List.{flat_map, join_with_byte};
ghost use Rattle.std.specs.Str.{byte};
ghost use Rattle.drafts.specs.Draft.{plain_draft};
ghost use Rattle.drafts.specs.Texts.{texts};
ghost use Rattle.drafts.specs.Spelled as spec;

use crate::draft::Draft;
use mail_base::{Bytes, Line, NoMemory};
use std::alloc::Global;

// Adds a line, which begins with the name of a field, at the end.
fn append_field(out: &mut Bytes, name: &[u8], text: &[u8]) -> Result<(), NoMemory>
    ensures { OnOk result (out.new.items ≡ out.old.items ++ spec.field_line name.now text.now) }
{
    out.append(name)?;
    out.append(text)?;
    out.push(b'\n')?;
    Ok(())
}

fn append_reply(out: &mut Bytes, id: &Option<Bytes>) -> Result<(), NoMemory>
    ensures { OnOk result (out.new.items
        ≡ out.old.items ++ spec.reply_line (option_map (λ id. id.items) id.now)) }
{
    let Some(id) = id else {
        return Ok(());
    };
    append_field(out, b"In-Reply-To: ", id.as_slice())?;
    Ok(())
}

// Adds ids with one blank between each two, behind the first.
fn append_ids(out: &mut Bytes, first: &Bytes, ids: &[Bytes]) -> Result<(), NoMemory>
    ensures { OnOk result (out.new.items ≡ out.old.items
        ++ join_with_byte (byte " ") (first.now.items ∷ texts ids.now)) }
{
    out.append(first.as_slice())?;
    let mut left = ids;
    while let [id, rest @ ..] = left {
        out.push(b' ')?;
        out.append(id.as_slice())?;
        left = rest;
    }
    Ok(())
}

fn append_references(out: &mut Bytes, ids: &[Bytes]) -> Result<(), NoMemory>
    ensures { OnOk result (out.new.items ≡ out.old.items ++ spec.references_line (texts ids.now)) }
{
    let [first, rest @ ..] = ids else {
        return Ok(());
    };
    out.append(b"References: ")?;
    append_ids(out, first, rest)?;
    out.push(b'\n')?;
    Ok(())
}

// Adds the fields of a draft and the empty line.
fn append_head(out: &mut Bytes, draft: &Draft) -> Result<(), NoMemory>
    ensures { OnOk result (out.new.items
        ≡ out.old.items ++ spec.head_bytes (plain_draft draft.now)) }
{
    append_field(out, b"To: ", draft.to.as_slice())?;
    append_field(out, b"Subject: ", draft.subject.as_slice())?;
    append_reply(out, &draft.in_reply_to)?;
    append_references(out, draft.references.as_slice())?;
    out.append(b"X-Mutt-Draft: 1\n\n")?;
    Ok(())
}

fn append_lines(out: &mut Bytes, lines: &[Line]) -> Result<(), NoMemory>
    ensures { OnOk result (out.new.items
        ≡ out.old.items ++ flat_map spec.ended (texts lines.now)) }
{
    let mut left = lines;
    while let [line, rest @ ..] = left {
        out.append(line.as_slice())?;
        out.push(b'\n')?;
        left = rest;
    }
    Ok(())
}

/// The bytes of a draft: the lines of its fields, the mark that it is a draft, an empty line, and
/// the lines of its text. Fields that it does not have are left out.
pub fn to_bytes(alloc: Global, draft: &Draft) -> Result<Bytes, NoMemory>
    ensures { IfOk result (λ bytes. bytes.items ≡ spec.draft_bytes (plain_draft draft.now)) }
{
    let mut out = Bytes::new(alloc);
    append_head(&mut out, draft)?;
    append_lines(&mut out, draft.body.as_slice())?;
    Ok(out)
}
