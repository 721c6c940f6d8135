//! What a message's header says (RFC 5322, section 3.6).

ghost use Rattle.std.specs.Prelude.{◌≡◌, ◌≤◌, length, map, IfOk};
ghost use Rattle.mail_base.specs.Lines as lines;
ghost use Rattle.headers.specs.Field.{plain_fields};
ghost use Rattle.headers.specs.FoldedField.{plain_folded};
ghost use Rattle.headers.specs.Header as spec;

use crate::body_lines::body_lines;
use crate::candidates::candidates_of;
use crate::field::Fields;
use crate::fields::{copies_of, folded_fields};
use crate::folded_field::FoldedField;
use crate::person::Persons;
use crate::sent_date::SentDate;
use crate::subject::{base_of, has_prefix};
use crate::values::{id_in, people_of, sent_in, subject_of};
use mail_base::{Bytes, Line, Names, NoMemory, body_at};
use std::alloc::Global;

/// What the header block of a message says (RFC 5322, section 3.6).
pub struct Header {
    /// Its fields in their order. They are left out where the text is at hand.
    pub fields: Fields,
    /// The first Subject with its encoded words decoded, or nothing.
    pub subject: Line,
    /// The subject without its reply prefixes.
    pub base_subject: Line,
    /// Whether the subject begins with a reply prefix.
    pub reply_prefix: bool,
    pub authors: Persons,
    pub senders: Persons,
    pub to: Persons,
    pub cc: Persons,
    pub reply_to: Persons,
    /// The first id of the first Message-ID, with its brackets.
    pub message_id: Option<Bytes>,
    /// The ids of the messages that this one may answer, the most likely first, each once.
    pub candidates: Names,
    /// The first Date, unless it is refused.
    pub sent: Option<SentDate>,
    /// The place of the empty line that ends the header block, or the length of the message.
    pub body_at: usize,
    /// How many lines stand behind that empty line.
    pub body_lines: u64,
}

impl Drop for Header {
    fn drop(self) {
        let Header {
            fields: _,
            subject: _,
            base_subject: _,
            reply_prefix: _,
            authors: _,
            senders: _,
            to: _,
            cc: _,
            reply_to: _,
            message_id: _,
            candidates: _,
            sent: _,
            body_at: _,
            body_lines: _,
        } = self;
    }
}

impl Header {
    ghost use Rattle.std.specs.Prelude.{◌≡◌, map, OnOk};
    ghost use Rattle.headers.specs.FoldedField.{plain_folded};
    ghost use Rattle.headers.specs.Header as spec;

    // Reads the subject, the ids and the date.
    fn read_texts(&mut self, alloc: Global, fields: &[FoldedField<'_>]) -> Result<(), NoMemory>
        ensures texts { OnOk result (spec.plain_header self.new
            ≡ spec.with_texts (map plain_folded fields.now) (spec.plain_header self.old)) }
        ensures body { self.new.body_at ≡ self.old.body_at }
    {
        self.subject = subject_of(alloc, fields)?;
        self.base_subject = base_of(alloc, &self.subject)?;
        self.reply_prefix = has_prefix(self.subject.as_slice());
        self.message_id = id_in(alloc, fields, b"message-id")?;
        self.candidates = candidates_of(alloc, fields)?;
        self.sent = sent_in(alloc, fields)?;
        Ok(())
    }

    // Reads who wrote the message, and to whom.
    fn read_persons(&mut self, alloc: Global, fields: &[FoldedField<'_>]) -> Result<(), NoMemory>
        ensures persons { OnOk result (spec.plain_header self.new
            ≡ spec.with_persons (map plain_folded fields.now) (spec.plain_header self.old)) }
        ensures body { self.new.body_at ≡ self.old.body_at }
    {
        self.authors = people_of(alloc, fields, b"from")?;
        self.senders = people_of(alloc, fields, b"sender")?;
        self.to = people_of(alloc, fields, b"to")?;
        self.cc = people_of(alloc, fields, b"cc")?;
        self.reply_to = people_of(alloc, fields, b"reply-to")?;
        Ok(())
    }
}

// What a header with these fields says, but for the list of them.
fn values_of(alloc: Global, raw: &[u8], fields: &[FoldedField<'_>]) -> Result<Header, NoMemory>
    requires { map plain_folded fields.now ≡ lines.message_fields raw.now }
    ensures header { IfOk result (λ h. spec.plain_header h ≡ spec.header raw.now) }
    ensures within { IfOk result (λ h. h.body_at ≤ length raw.now) }
{
    let body_at = body_at(raw);
    let mut header = Header {
        fields: Fields::new(alloc),
        subject: Line::new(alloc),
        base_subject: Line::new(alloc),
        reply_prefix: false,
        authors: Persons::new(alloc),
        senders: Persons::new(alloc),
        to: Persons::new(alloc),
        cc: Persons::new(alloc),
        reply_to: Persons::new(alloc),
        message_id: None,
        candidates: Names::new(alloc),
        sent: None,
        body_at,
        body_lines: body_lines(raw, body_at),
    };
    header.read_texts(alloc, fields)?;
    header.read_persons(alloc, fields)?;
    Ok(header)
}

/// The header of a message; none is refused.
pub fn read_header(alloc: Global, raw: &[u8]) -> Result<Header, NoMemory>
    ensures header { IfOk result (λ h. spec.plain_header h ≡ spec.header raw.now) }
    ensures fields { IfOk result (λ h. plain_fields h.fields ≡ lines.message_fields raw.now) }
    ensures within { IfOk result (λ h. h.body_at ≤ length raw.now) }
{
    let fields = folded_fields(alloc, raw)?;
    let mut header = values_of(alloc, raw, fields.as_slice())?;
    header.fields = copies_of(alloc, fields.as_slice())?;
    Ok(header)
}

/// The same with an empty list of fields, for those who keep a header of each message beside its
/// text; `FoldedField` finds a field in the text without memory.
pub fn read_brief_header(alloc: Global, raw: &[u8]) -> Result<Header, NoMemory>
    ensures header { IfOk result (λ h. spec.plain_header h ≡ spec.header raw.now) }
    ensures within { IfOk result (λ h. h.body_at ≤ length raw.now) }
{
    let fields = folded_fields(alloc, raw)?;
    values_of(alloc, raw, fields.as_slice())
}
