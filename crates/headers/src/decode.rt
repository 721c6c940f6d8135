//! Text with its encoded words decoded (RFC 2047, section 6).

ghost use Rattle.std.specs.Prelude.{◌≡◌, ◌<◌, ◌+◌, ◌++◌, IfOk, OnOk, IfSome, IfNone, length, take};
ghost use Rattle.std.specs.Prelude.{drop, option_map};
ghost use Rattle.headers.specs.Decode as spec;

use crate::encoded_word::DecodedWord;
use mail_base::{Line, NoMemory, append_utf8, is_all_blank};
use memchr::memchr;
use std::alloc::Global;

/// The first encoded word of a text, with the text before and behind it.
#[derive(Drop)]
pub struct FoundWord<'a> {
    pub before: &'a [u8],
    pub word: DecodedWord<'a>,
}

// The place of the first byte with which an encoded word may begin.
fn equals_at(text: &[u8]) -> Option<usize>
    ensures none { IfNone result (spec.first_word text.now ≡ None) }
    ensures within { IfSome result (λ k. k < length text.now) }
    ensures some { IfSome result
        (λ k. spec.first_word text.now
        ≡ option_map (spec.with_text (take k text.now)) (spec.first_word (drop k text.now))) }
{
    memchr(b'=', text)
}

impl<'a> FoundWord<'a> {
    fn find(alloc: Global, text: &'a [u8]) -> Result<Option<FoundWord<'a>>, NoMemory>
        ensures value { IfOk result
            (λ o. option_map spec.plain_found_word o ≡ spec.first_word text.now) }
        ensures shorter { IfOk result
            (λ o. IfSome o (λ f. length f.word.rest.now < length text.now)) }
    {
        let mut at = 0;
        while let Some(step) = equals_at(&text[at..]) {
            let (before, left) = text.split_at(at + step);
            if let Some(word) = DecodedWord::read(alloc, left)? {
                return Ok(Some(FoundWord { before, word }));
            }
            at += step + 1;
        }
        Ok(None)
    }
}

// Adds the text before an encoded word. White space between two of them is dropped (RFC 2047,
// section 6.2).
fn append_before(line: &mut Line, after_word: bool, text: &[u8]) -> Result<(), NoMemory>
    ensures { OnOk result (line.new.items
        ≡ line.old.items ++ spec.text_before after_word text.now) }
{
    if after_word && is_all_blank(text) {
        return Ok(());
    }
    append_utf8(line, text)
}

/// The value of a field with its encoded words decoded; what is malformed stays as written.
pub fn decode_words(alloc: Global, value: &[u8]) -> Result<Line, NoMemory>
    ensures { IfOk result (λ l. l.items ≡ spec.decoded_words value.now) }
{
    let mut line = Line::new(alloc);
    let mut after_word = false;
    let mut left = value;
    while let Some(found) = FoundWord::find(alloc, left)? {
        append_before(&mut line, after_word, found.before)?;
        let word = found.word;
        word.charset.append_to(&mut line, word.bytes.as_slice())?;
        after_word = true;
        left = word.rest;
    }
    append_utf8(&mut line, left)?;
    Ok(line)
}
