//! Encoded words, as they are written and decoded (RFC 2047, section 2).

ghost use Rattle.std.specs.Prelude.{◌≡◌, ◌<◌, ◌≤◌, length, option_map, not, position, IfOk, IfSome};
ghost use Rattle.headers.specs.EncodedWord as spec;

use crate::charset::Charset;
use crate::encoding::Encoding;
use mail_base::{Bytes, NoMemory, behind};
use std::alloc::Global;

/// An encoded word as it is written, and the text behind it.
#[derive(Clone, Copy)]
pub struct WrittenWord<'a> {
    pub charset: &'a [u8],
    pub encoding: Encoding,
    pub text: &'a [u8],
    pub rest: &'a [u8],
}

/// The bytes of an encoded word with their charset, and the text behind it.
#[derive(Drop)]
pub struct DecodedWord<'a> {
    pub charset: Charset,
    pub bytes: Bytes,
    pub rest: &'a [u8],
}

fn is_word_byte(byte: u8) -> bool
    ensures { result ≡ spec.is_word_byte byte }
{
    33 <= byte && byte <= 126 && byte != b'?'
}

// The place of the first byte that stands in no encoded word.
fn word_end(text: &[u8]) -> Option<usize>
    ensures value { result ≡ position (λ b. not (spec.is_word_byte b)) text.now }
    ensures within { IfSome result (λ end. end < length text.now) }
{
    text.iter().position(|b| !is_word_byte(*b))
}

// How many bytes at the front may stand in an encoded word.
#[tactic(auto, using(mail_base::proofs::PlacesLemmas::place_or_len))]
fn word_len(text: &[u8]) -> usize
    ensures value { result ≡ spec.word_len text.now }
    ensures within { result ≤ length text.now }
{
    word_end(text).unwrap_or(text.len())
}

// What stands behind the name of the charset: the encoding and the text.
fn read_behind<'a>(charset: &'a [u8], text: &'a [u8]) -> Option<WrittenWord<'a>>
    ensures value { option_map spec.plain_written_word result
        ≡ spec.written_behind charset.now text.now }
    ensures shorter { IfSome result (λ w. length w.rest.now < length text.now) }
{
    let text = behind(b'?', text)?;
    let (letter, text) = text.split_first()?;
    let encoding = Encoding::from_letter(*letter)?;
    let text = behind(b'?', text)?;
    let (text, rest) = text.split_at(word_len(text));
    let rest = behind(b'=', behind(b'?', rest)?)?;
    Some(WrittenWord {
        charset,
        encoding,
        text,
        rest,
    })
}

impl<'a> WrittenWord<'a> {
    /// The encoded word with which the text begins, if it is of the form (RFC 2047, section 2).
    pub fn read(text: &'a [u8]) -> Option<WrittenWord<'a>>
        ensures value { option_map spec.plain_written_word result ≡ spec.written_word text.now }
        ensures shorter { IfSome result (λ w. length w.rest.now < length text.now) }
    {
        let text = behind(b'?', behind(b'=', text)?)?;
        let (charset, text) = text.split_at(word_len(text));
        if charset.is_empty() {
            return None;
        }
        read_behind(charset, text)
    }
}

impl<'a> DecodedWord<'a> {
    /// The encoded word with which the text begins. One that is malformed is none.
    pub fn read(alloc: Global, text: &'a [u8]) -> Result<Option<DecodedWord<'a>>, NoMemory>
        ensures value { IfOk result
            (λ o. option_map spec.plain_decoded_word o ≡ spec.encoded_word text.now) }
        ensures shorter { IfOk result (λ o. IfSome o (λ w. length w.rest.now < length text.now)) }
    {
        let Some(word) = WrittenWord::read(text) else {
            return Ok(None);
        };
        let Some(bytes) = word.encoding.decode(alloc, word.text)? else {
            return Ok(None);
        };
        Ok(Some(DecodedWord {
            charset: Charset::from_name(word.charset),
            bytes,
            rest: word.rest,
        }))
    }
}
