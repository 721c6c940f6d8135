//! Cases of drafts.

use crate::letters::{letter_of, put_lines};
use case_files::{Answer, Case, CaseFault, Subject};
use drafts::{Draft, DraftError, from_bytes, new_draft, reply_to, to_bytes};
use mail_base::{Bytes, Names, NoMemory};
use std::alloc::Global;

/// A draft is new, to `person` with `title`; or it answers `message` with `indent` before each
/// line; or it is read from `bytes`. Its `to`, `subject`, `in_reply_to` (`-` where there is none),
/// `references` (likewise) and `body` are answered, and `written`, its bytes; or `place`, at which
/// the bytes are those of no draft.
pub struct DraftCalls;

impl Subject for DraftCalls {
    fn inputs(&self) -> &[&[u8]] {
        &[b"person", b"title", b"message", b"indent", b"bytes"]
    }

    fn answer(&self, alloc: Global, case: &Case, answer: &mut Answer) -> Result<(), CaseFault> {
        match draft_of(alloc, case)? {
            Ok(draft) => put_draft(alloc, answer, &draft),
            Err(place) => answer.put_count(b"place", place),
        }
    }
}

// The draft of a case, or the place of what is none.
fn draft_of(alloc: Global, case: &Case) -> Result<Result<Draft, usize>, CaseFault> {
    if let Some(bytes) = case.find(b"bytes") {
        return match from_bytes(alloc, bytes) {
            Ok(draft) => Ok(Ok(draft)),
            Err(DraftError::NotADraft(place)) => Ok(Err(place)),
            Err(DraftError::NoMemory) => Err(CaseFault::NoMemory),
        };
    }
    if let Some(message) = case.find(b"message") {
        let letter = letter_of(alloc, message)?;
        return Ok(Ok(reply_to(alloc, &letter, case.need(b"indent")?)?));
    }
    let (person, title) = (case.need(b"person")?, case.need(b"title")?);
    Ok(Ok(new_draft(alloc, person, title)?))
}

fn put_draft(alloc: Global, answer: &mut Answer, draft: &Draft) -> Result<(), CaseFault> {
    answer.put(b"to", draft.to.as_slice())?;
    answer.put(b"subject", draft.subject.as_slice())?;
    match &draft.in_reply_to {
        Some(id) => answer.put(b"in_reply_to", id.as_slice())?,
        None => answer.put(b"in_reply_to", b"-")?,
    }
    put_ids(alloc, answer, &draft.references)?;
    put_lines(alloc, answer, b"body", draft.body.as_slice())?;
    answer.put(b"written", to_bytes(alloc, draft)?.as_slice())
}

fn put_ids(alloc: Global, answer: &mut Answer, ids: &Names) -> Result<(), CaseFault> {
    if ids.as_slice().is_empty() {
        return answer.put(b"references", b"-");
    }
    let mut text = Bytes::new(alloc);
    append_ids(&mut text, ids)?;
    answer.put(b"references", text.as_slice())
}

fn append_ids(text: &mut Bytes, ids: &Names) -> Result<(), NoMemory> {
    for id in ids.as_slice() {
        if text.len() > 0 {
            text.push(b' ')?;
        }
        text.append(id.as_slice())?;
    }
    Ok(())
}
