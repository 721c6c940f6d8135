//! Cases of the header of a message (RFC 5322).

use crate::address_lists::put_persons;
use case_files::{Answer, Case, CaseFault, Subject};
use headers::{Field, Header, SentDate, read_header};
use mail_base::Names;
use std::alloc::Global;

/// `message` is the raw message. A sent date is its seconds since 1970 UTC and its offset in
/// seconds.
pub struct Headers;

impl Subject for Headers {
    fn inputs(&self) -> &[&[u8]] {
        &[b"message"]
    }

    fn answer(&self, alloc: Global, case: &Case, answer: &mut Answer) -> Result<(), CaseFault> {
        let header = read_header(alloc, case.need(b"message")?)?;
        put_header(alloc, answer, &header)
    }
}

fn put_header(alloc: Global, answer: &mut Answer, header: &Header) -> Result<(), CaseFault> {
    put_subject(answer, header)?;
    put_lists(alloc, answer, header)?;
    put_ids(answer, header)?;
    put_sent(alloc, answer, header.sent)?;
    put_fields(answer, header.fields.as_slice())?;
    answer.put_count(b"body at", header.body_at)?;
    let lines = header.body_lines;
    answer.put_text(b"body lines", format!(in alloc; "{lines}")?.as_str())
}

fn put_fields(answer: &mut Answer, fields: &[Field]) -> Result<(), CaseFault> {
    answer.put_count(b"fields", fields.len())?;
    for field in fields {
        answer.put(b"name", field.name.as_slice())?;
        answer.put(b"value", field.value.as_slice())?;
    }
    Ok(())
}

fn put_subject(answer: &mut Answer, header: &Header) -> Result<(), CaseFault> {
    answer.put(b"subject", header.subject.as_slice())?;
    answer.put(b"base", header.base_subject.as_slice())?;
    answer.put_flag(b"reply", header.reply_prefix)
}

fn put_lists(alloc: Global, answer: &mut Answer, header: &Header) -> Result<(), CaseFault> {
    put_persons(alloc, answer, b"author", &header.authors)?;
    put_persons(alloc, answer, b"sender", &header.senders)?;
    put_persons(alloc, answer, b"to", &header.to)?;
    put_persons(alloc, answer, b"cc", &header.cc)?;
    put_persons(alloc, answer, b"reply-to", &header.reply_to)
}

fn put_ids(answer: &mut Answer, header: &Header) -> Result<(), CaseFault> {
    match &header.message_id {
        Some(id) => answer.put(b"id", id.as_slice())?,
        None => answer.put(b"id", b"none")?,
    }
    let candidates: &Names = &header.candidates;
    answer.put_count(b"candidates", candidates.len())?;
    for name in candidates.as_slice() {
        answer.put(b"candidate", name.as_slice())?;
    }
    Ok(())
}

fn put_sent(alloc: Global, answer: &mut Answer, sent: Option<SentDate>) -> Result<(), CaseFault> {
    match sent {
        Some(date) => {
            let seconds = date.seconds;
            let offset = date.offset;
            answer.put_text(b"sent", format!(in alloc; "{seconds} {offset}")?.as_str())
        }
        None => answer.put(b"sent", b"none"),
    }
}
