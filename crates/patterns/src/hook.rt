//! The texts of hooks for messages, which may be those of patterns or of one expression.

ghost use Rattle.std.specs.Prelude.{◌≡◌, ◌++◌, not, IfOk, OnOk};
ghost use Rattle.std.specs.List.{list_all};
ghost use Rattle.patterns.specs.Hooks as spec;
ghost use Rattle.patterns.specs.Arguments.{is_end as is_end_byte, is_quote as is_quote_byte};
ghost use Rattle.patterns.specs.Printed.{is_bare, lacks as lacks_byte, printed_argument};

use crate::argument::is_end;
use mail_base::{Bytes, NoMemory};
use std::alloc::Global;

fn holds_sign(text: &[u8]) -> bool
    ensures { result ≡ spec.holds_sign text.now }
{
    text.iter().any(|b| *b == b'~' || *b == b'=')
}

// A quote, which has no escapes in it.
fn is_quote(byte: u8) -> bool
    ensures { result ≡ is_quote_byte byte }
{
    byte == b'"' || byte == b'\''
}

fn holds_no_end(text: &[u8]) -> bool
    ensures { result ≡ list_all (λ b. not (is_end_byte b)) text.now }
{
    text.iter().all(|b| !is_end(*b))
}

// Whether an argument needs no quotes.
fn needs_no_quotes(text: &[u8]) -> bool
    ensures { result ≡ is_bare text.now }
{
    match text.split_first() {
        None => false,
        Some((first, _)) => !is_quote(*first) && holds_no_end(text),
    }
}

// Whether the byte does not stand in the text.
fn lacks(byte: u8, text: &[u8]) -> bool
    ensures { result ≡ lacks_byte byte text.now }
{
    text.iter().all(|b| !(*b == byte))
}

// The quote in which a text stands: the other one where it holds this one.
fn quote_for(text: &[u8]) -> u8
    ensures { result ≡ spec.quote_for text.now }
{
    if lacks(b'"', text) { b'"' } else { b'\'' }
}

// Adds an argument, in quotes where it needs them.
fn append_argument(bytes: &mut Bytes, text: &[u8]) -> Result<(), NoMemory>
    ensures { OnOk result (bytes.new.items ≡ bytes.old.items ++ printed_argument text.now) }
{
    if needs_no_quotes(text) {
        return bytes.append(text);
    }
    let quote = quote_for(text);
    bytes.push(quote)?;
    bytes.append(text)?;
    bytes.push(quote)
}

// Adds what stands for an expression: it is searched for in From, or, of the reader's own messages,
// in To and Cc.
fn append_people(bytes: &mut Bytes, text: &[u8]) -> Result<(), NoMemory>
    ensures { OnOk result (bytes.new.items ≡ bytes.old.items ++ spec.people_pattern text.now) }
{
    bytes.append(b"~f ")?;
    append_argument(bytes, text)?;
    bytes.append(b" !~P | (~P ~C ")?;
    append_argument(bytes, text)?;
    bytes.push(b')')
}

/// The pattern as which the text of a hook is read (Mutt's manual, "default_hook"): the text itself
/// where it holds `~` or `=`, else what searches for it as one expression. It is read as one only
/// where it needs no quotes or lacks one of both.
pub fn hook_pattern(alloc: Global, text: &[u8]) -> Result<Bytes, NoMemory>
    ensures { IfOk result (λ bytes. bytes.items ≡ spec.hook_pattern text.now) }
{
    if holds_sign(text) {
        return Bytes::copy_of(alloc, text);
    }
    let mut bytes = Bytes::new(alloc);
    append_people(&mut bytes, text)?;
    Ok(bytes)
}
