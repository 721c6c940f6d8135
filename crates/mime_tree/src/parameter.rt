//! Parameters of a structured field (RFC 2045, section 5.1).

ghost use Rattle.std.specs.Prelude.{◌≡◌, ◌==◌, ◌||◌, ◌≤◌, ◌<◌, false, length, position, option_map};
ghost use Rattle.std.specs.Prelude.{IfOk, IfSome};
ghost use Rattle.mail_base.specs.Blanks as blanks;
ghost use Rattle.std.specs.Str.{byte};
ghost use Rattle.mime_tree.specs.Parameter as spec;

use crate::quotes::behind_semicolon;
use mail_base::{Bytes, NoMemory, behind, is_blank, is_same_name, token_len, without_blanks};
use std::alloc::Global;

/// The value of a parameter, and what stands behind it.
#[derive(Drop)]
pub struct Value<'a> {
    pub bytes: Bytes,
    pub rest: &'a [u8],
}

/// A parameter of a structured field.
#[derive(Drop)]
pub struct Parameter<'a> {
    pub name: &'a [u8],
    pub value: Value<'a>,
}

// The place of the first blank or semicolon.
fn plain_end(text: &[u8]) -> Option<usize>
    ensures value { result ≡ position (λ b. blanks.is_blank b || b == byte ";") text.now }
    ensures within { IfSome result (λ end. end < length text.now) }
{
    text.iter().position(|b| is_blank(*b) || *b == b';')
}

// How many bytes stand before the next blank or semicolon.
#[tactic(auto, using(mail_base::proofs::PlacesLemmas::place_or_len))]
fn plain_len(text: &[u8]) -> usize
    ensures value { result ≡ spec.plain_len text.now }
    ensures within { result ≤ length text.now }
{
    plain_end(text).unwrap_or(text.len())
}

// The value of a quoted string behind its first quote, if the string is closed.
fn quoted_value<'a>(alloc: Global, text: &'a [u8]) -> Result<Option<Value<'a>>, NoMemory>
    ensures value { IfOk result
        (λ o. option_map spec.plain_value o ≡ spec.quoted_value false text.now) }
    ensures shorter { IfOk result (λ o. IfSome o (λ v. length v.rest.now ≤ length text.now)) }
{
    let mut bytes = Bytes::new(alloc);
    let mut escaped = false;
    let mut left = text;
    while let [first, rest @ ..] = left {
        if !escaped && *first == b'"' {
            return Ok(Some(Value { bytes, rest }));
        }
        escaped = !escaped && *first == b'\\';
        if !escaped {
            bytes.push(*first)?;
        }
        left = rest;
    }
    Ok(None)
}

impl<'a> Value<'a> {
    fn read(alloc: Global, text: &'a [u8]) -> Result<Option<Value<'a>>, NoMemory>
        ensures value { IfOk result (λ o. option_map spec.plain_value o ≡ spec.value text.now) }
        ensures shorter { IfOk result (λ o. IfSome o (λ v. length v.rest.now ≤ length text.now)) }
    {
        if let Some(inside) = behind(b'"', text) {
            return quoted_value(alloc, inside);
        }
        let (bytes, rest) = text.split_at(plain_len(text));
        let bytes = Bytes::copy_of(alloc, bytes)?;
        Ok(Some(Value { bytes, rest }))
    }
}

impl<'a> Parameter<'a> {
    /// The parameter that stands behind a semicolon, if it is of the form.
    fn read(alloc: Global, text: &'a [u8]) -> Result<Option<Parameter<'a>>, NoMemory>
        ensures value { IfOk result
            (λ o. option_map spec.plain_parameter o ≡ spec.parameter text.now) }
        ensures shorter { IfOk result
            (λ o. IfSome o (λ p. length p.value.rest.now ≤ length text.now)) }
    {
        let text = without_blanks(text);
        let (name, tail) = text.split_at(token_len(text));
        let Some(rest) = behind(b'=', without_blanks(tail)) else {
            return Ok(None);
        };
        if name.is_empty() {
            return Ok(None);
        }
        let Some(value) = Value::read(alloc, without_blanks(rest))? else {
            return Ok(None);
        };
        Ok(Some(Parameter { name, value }))
    }
}

/// The value of the first parameter of the name in the value of a field (RFC 2045, section 5.1).
pub fn parameter_of(alloc: Global, text: &[u8], name: &[u8]) -> Result<Option<Bytes>, NoMemory>
    ensures { IfOk result
        (λ o. option_map (λ b. b.items) o ≡ spec.value_of name.now (spec.parameters text.now)) }
{
    let mut left = text;
    while let Some(text) = behind_semicolon(left) {
        left = text;
        if let Some(found) = Parameter::read(alloc, text)? {
            if is_same_name(found.name, name) {
                return Ok(Some(found.value.bytes));
            }
            left = found.value.rest;
        }
    }
    Ok(None)
}
