//! Drafts from their bytes.

ghost use Rattle.std.specs.Prelude.{◌≡◌, [], true, IfErr, IfOk, OnOk, option_map};
ghost use Rattle.std.specs.List.{list_all};
ghost use Rattle.mail_base.specs.Series.{plain_texts};
ghost use Rattle.drafts.specs.Draft.{plain_draft};
ghost use Rattle.drafts.specs.Fronts.{IsCause};
ghost use Rattle.drafts.specs.PlainDraft.{is_text};
ghost use Rattle.drafts.specs.Read.{IsRead, Reads};
ghost use Rattle.drafts.specs.Reading as spec;
ghost use Rattle.drafts.specs.Spelled.{draft_bytes};

use crate::draft::{Draft, DraftError};
use crate::fault::Fault;
use crate::line_state::LineState;
use crate::reading::{Head, read_line};
use mail_base::{Bytes, Line, Lines, Names, NoMemory, split_once};
use std::alloc::Global;

fn line_of(alloc: Global, text: &[u8]) -> Result<Line, NoMemory>
    requires { is_text text.now ≡ true }
    ensures { IfOk result (λ line. line.items ≡ text.now) }
{
    Line::copy_of(alloc, text)
}

fn id_of(alloc: Global, id: Option<&[u8]>) -> Result<Option<Bytes>, NoMemory>
    ensures { IfOk result
        (λ o. option_map (λ id. id.items) o ≡ option_map (λ id. id.now) id.entry) }
{
    match id {
        Some(id) => Ok(Some(Bytes::copy_of(alloc, id)?)),
        None => Ok(None),
    }
}

// The ids between the blanks of a text.
fn ids_of(alloc: Global, ids: Option<&[u8]>) -> Result<Names, NoMemory>
    ensures { IfOk result
        (λ names. plain_texts names ≡ spec.ids_in (option_map (λ text. text.now) ids.entry)) }
{
    let mut names = Names::new(alloc);
    let Some(text) = ids else {
        return Ok(names);
    };
    let mut left = text;
    while let Some((id, rest)) = split_once(b' ', left) {
        names.push(Bytes::copy_of(alloc, id)?)?;
        left = rest;
    }
    names.push(Bytes::copy_of(alloc, left)?)?;
    Ok(names)
}

// Reads the lines of a body into an empty list.
fn read_lines(alloc: Global, lines: &mut Lines, text: &[u8]) -> Result<(), Fault>
    requires { lines.old.items ≡ [] }
    ensures value { Reads (λ _. plain_texts lines.new) result (spec.read_lines text.now) }
    ensures texts { OnOk result (list_all is_text (plain_texts lines.new) ≡ true) }
{
    let mut left = text;
    while !left.is_empty() {
        let (line, rest) = read_line(LineState::Text, left)?;
        lines.push(line_of(alloc, line)?)?;
        left = rest;
    }
    Ok(())
}

impl Head<'_> {
    // The draft of these fields and lines.
    fn to_draft(&self, alloc: Global, body: Lines) -> Result<Draft, NoMemory>
        requires fields { spec.are_texts (spec.plain_head self.now) ≡ true }
        requires lines { list_all is_text (plain_texts body) ≡ true }
        ensures { IfOk result
            (λ draft. plain_draft draft
            ≡ spec.draft_of (spec.plain_head self.now) (plain_texts body)) }
    {
        Ok(Draft {
            to: line_of(alloc, self.to)?,
            subject: line_of(alloc, self.subject)?,
            in_reply_to: id_of(alloc, self.in_reply_to)?,
            references: ids_of(alloc, self.references)?,
            body,
        })
    }
}

#[tactic(auto, unfolding(crate::specs::Reading::read_from))]
fn read(alloc: Global, bytes: &[u8]) -> Result<Draft, Fault>
    ensures { Reads plain_draft result (spec.read_from bytes.now) }
{
    let (head, rest) = Head::read(bytes)?;
    let mut body = Lines::new(alloc);
    read_lines(alloc, &mut body, rest)?;
    Ok(head.to_draft(alloc, body)?)
}

/// The draft that the bytes spell. Bytes that are no draft are refused at the first place where no
/// draft's bytes go on.
pub fn from_bytes(alloc: Global, bytes: &[u8]) -> Result<Draft, DraftError>
    ensures value { IsRead result (spec.read_draft bytes.now) }
    ensures ok { IfOk result (λ draft. draft_bytes (plain_draft draft) ≡ bytes.now) }
    ensures cause { IfErr result (IsCause bytes.now) }
{
    match read(alloc, bytes) {
        Ok(draft) => Ok(draft),
        Err(Fault::Left(left)) => Err(DraftError::NotADraft(bytes.len().saturating_sub(left))),
        Err(Fault::NoMemory) => Err(DraftError::NoMemory),
    }
}
