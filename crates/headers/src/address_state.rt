//! How an address list is read from front to back (RFC 5322, sections 3.2 and 3.4).

ghost use Rattle.std.specs.Prelude.{◌≡◌, ◌+◌, ◌<◌, ◌≤◌, ◌^◌, IfOk};
ghost use Rattle.headers.specs.AddressState as spec;

use crate::address_byte::{AddressByte, Role};
use mail_base::NoMemory;
use std::alloc::Global;

/// Where a byte stands; a comment has the number of comments that are open.
#[derive(Clone, Copy)]
pub enum Within {
    Plain,
    Quotes,
    /// Behind a backslash in quotes.
    QuotedPair,
    Comment(usize),
    /// Behind a backslash in a comment.
    CommentPair(usize),
}

/// Where the next byte stands, and whether in angle brackets.
#[derive(Clone, Copy)]
pub struct AddressState {
    pub in_angle: bool,
    pub within: Within,
}

impl AddressState {
    fn new(in_angle: bool, within: Within) -> AddressState
        ensures { result ≡ spec.state_in in_angle within }
    {
        AddressState { in_angle, within }
    }

    fn step(self, byte: u8) -> (Role, AddressState)
        requires { spec.depth_at self.within + 1 < 2 ^ 64 }
        ensures value { result ≡ spec.step self byte }
        ensures depth { spec.depth_at result.1.within ≤ spec.depth_at self.within + 1 }
    {
        let (role, within) = match self.within {
            Within::Plain if is_common(byte) => (Role::Text, Within::Plain),
            Within::Plain => return plain_step(self.in_angle, byte),
            Within::Quotes => quotes_step(byte),
            Within::QuotedPair => (Role::Text, Within::Quotes),
            Within::Comment(depth) => comment_step(depth, byte),
            Within::CommentPair(depth) => (Role::CommentText, Within::Comment(depth)),
        };
        (role, AddressState::new(self.in_angle, within))
    }
}

// Whether the byte is text wherever it stands outside quotes and comments, as most are.
fn is_common(byte: u8) -> bool
    ensures { result ≡ spec.is_common byte }
{
    !matches!(byte, b'"' | b'(' | b',' | b':' | b';' | b'<' | b'>')
}

fn plain_step(in_angle: bool, byte: u8) -> (Role, AddressState)
    ensures value { result ≡ spec.plain_step in_angle byte }
    ensures depth { spec.depth_at result.1.within ≤ 1 }
{
    match byte {
        b'"' => (Role::Quote, AddressState::new(in_angle, Within::Quotes)),
        b'(' => (
            Role::CommentStart,
            AddressState::new(in_angle, Within::Comment(1)),
        ),
        b'>' if in_angle => (Role::AngleEnd, AddressState::new(false, Within::Plain)),
        _ if in_angle => (Role::Text, AddressState::new(true, Within::Plain)),
        b'<' => (Role::AngleStart, AddressState::new(true, Within::Plain)),
        b':' => (Role::GroupEnd, AddressState::new(false, Within::Plain)),
        b',' | b';' => (Role::Separator, AddressState::new(false, Within::Plain)),
        _ => (Role::Text, AddressState::new(false, Within::Plain)),
    }
}

fn quotes_step(byte: u8) -> (Role, Within)
    ensures value { result ≡ spec.quotes_step byte }
    ensures depth { spec.depth_at result.1 ≤ 0 }
{
    match byte {
        b'"' => (Role::Quote, Within::Plain),
        b'\\' => (Role::Quote, Within::QuotedPair),
        _ => (Role::Text, Within::Quotes),
    }
}

fn comment_step(depth: usize, byte: u8) -> (Role, Within)
    requires { depth + 1 < 2 ^ 64 }
    ensures value { result ≡ spec.comment_step depth byte }
    ensures depth { spec.depth_at result.1 ≤ depth + 1 }
{
    match byte {
        b'\\' => (Role::CommentText, Within::CommentPair(depth)),
        b'(' => (Role::CommentText, Within::Comment(depth + 1)),
        b')' if depth <= 1 => (Role::CommentEnd, Within::Plain),
        b')' => (Role::CommentText, Within::Comment(depth - 1)),
        _ => (Role::CommentText, Within::Comment(depth)),
    }
}

/// The bytes of an address list with what they are, read once from front to back.
pub fn read_address_bytes(alloc: Global, value: &[u8]) -> Result<Vec<AddressByte>, NoMemory>
    ensures { IfOk result (λ v. v.items ≡ spec.address_bytes value.now) }
{
    let mut bytes = Vec::with_capacity(alloc, value.len())?;
    let mut state = AddressState::new(false, Within::Plain);
    let mut left = value;
    while let [first, rest @ ..] = left {
        let (role, next) = state.step(*first);
        bytes.push_reserved(AddressByte { byte: *first, role });
        state = next;
        left = rest;
    }
    Ok(bytes)
}
