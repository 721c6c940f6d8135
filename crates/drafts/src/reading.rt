//! How the fields and the lines of a draft are read. What fails tells how many bytes are left from
//! the first place on at which nothing goes on that may stand there.

ghost use Rattle.std.specs.Prelude.{◌≡◌, ◌<◌, IfOk, length, option_map};
ghost use Rattle.drafts.specs.Reading as spec;
ghost use Rattle.drafts.specs.Reading.{Gives};

use crate::line_state::LineState;
use mail_base::{behind, split_around};

// What follows the bytes, where the text begins with them.
fn behind_bytes<'a>(bytes: &[u8], text: &'a [u8]) -> Result<&'a [u8], usize>
    ensures { Gives (λ r. r.now) result (spec.behind_bytes bytes.now text.now) }
{
    let mut left = text;
    for byte in bytes {
        let Some(rest) = behind(*byte, left) else {
            return Err(left.len());
        };
        left = rest;
    }
    Ok(left)
}

// The line that ends at the place, and what follows it, if a line may end so.
fn line_at(state: LineState, text: &[u8], at: usize) -> Result<(&[u8], &[u8]), usize>
    requires { at < length text.now }
    ensures value { Gives (λ p. (p.0.now, p.1.now)) result (spec.line_at state text.now at) }
    ensures shorter { IfOk result (λ p. length p.1.now < length text.now) }
{
    if state.may_end() && text[at] == b'\n' {
        return Ok(split_around(text, at));
    }
    Err(text.len() - at)
}

/// A line from a state on, and what follows its LF.
pub fn read_line(start: LineState, text: &[u8]) -> Result<(&[u8], &[u8]), usize>
    ensures value { Gives (λ p. (p.0.now, p.1.now)) result (spec.read_line start text.now) }
    ensures shorter { IfOk result (λ p. length p.1.now < length text.now) }
{
    let mut state = start;
    for (at, byte) in text.iter().enumerate() {
        let Some(next) = state.step(*byte) else {
            return line_at(state, text, at);
        };
        state = next;
    }
    Err(0)
}

// The text of a field of the name, and what follows its line.
#[tactic(auto, unfolding(crate::specs::Reading::read_field))]
fn read_field<'a>(
    name: &[u8],
    start: LineState,
    text: &'a [u8],
) -> Result<(&'a [u8], &'a [u8]), usize>
    ensures { Gives (λ p. (p.0.now, p.1.now)) result (spec.read_field name.now start text.now) }
{
    let rest = behind_bytes(name, text)?;
    read_line(start, rest)
}

// Whether the texts have the same first byte.
fn begins_as(name: &[u8], text: &[u8]) -> bool
    ensures { result ≡ spec.begins_as name.now text.now }
{
    match (name, text) {
        ([byte, ..], [first, ..]) => *first == *byte,
        _ => false,
    }
}

// The same as for a field, which may be missing.
#[tactic(auto, unfolding(crate::specs::Reading::read_optional))]
fn read_optional<'a>(
    name: &[u8],
    start: LineState,
    text: &'a [u8],
) -> Result<(Option<&'a [u8]>, &'a [u8]), usize>
    ensures { Gives (λ p. (option_map (λ r. r.now) p.0, p.1.now)) result
        (spec.read_optional name.now start text.now) }
{
    if !begins_as(name, text) {
        return Ok((None, text));
    }
    let (line, rest) = read_field(name, start, text)?;
    Ok((Some(line), rest))
}

/// The fields of a draft as they stand there.
#[derive(Clone, Copy)]
pub struct Head<'a> {
    pub to: &'a [u8],
    pub subject: &'a [u8],
    pub in_reply_to: Option<&'a [u8]>,
    /// The ids before it, with blanks between them.
    pub references: Option<&'a [u8]>,
}

impl<'a> Head<'a> {
    /// The fields with which the bytes of a draft begin, and what follows the empty line.
    #[tactic(auto, unfolding(crate::specs::Reading::read_head))]
    pub fn read(bytes: &'a [u8]) -> Result<(Head<'a>, &'a [u8]), usize>
        ensures { Gives (λ p. (spec.plain_head p.0, p.1.now)) result (spec.read_head bytes.now) }
    {
        let (to, rest) = read_field(b"To: ", LineState::Text, bytes)?;
        let (subject, rest) = read_field(b"Subject: ", LineState::Text, rest)?;
        let (in_reply_to, rest) = read_optional(b"In-Reply-To: ", LineState::NoId, rest)?;
        let (references, rest) = read_optional(b"References: ", LineState::NextId, rest)?;
        let body = behind_bytes(b"X-Mutt-Draft: 1\n\n", rest)?;
        let head = Head {
            to,
            subject,
            in_reply_to,
            references,
        };
        Ok((head, body))
    }
}
