//! A word of muttrc: text, and variables whose values are put in later.

ghost use Rattle.std.specs.Prelude.{◌≡◌, ◌++◌, ◌∷◌, [], ◌+◌, ◌≤◌, ◌<◌, length, not, position};
ghost use Rattle.std.specs.Prelude.{option_map, option_to_list, OnOk, IfOk, IfSome};
ghost use Rattle.rc_lang_words.specs.Signs.{is_in_name};
ghost use Rattle.rc_lang_words.specs.Words as spec;

use crate::sign::Sign;
use mail_base::{Bytes, NoMemory, Series};
use std::alloc::Global;

/// A part of a word.
#[derive(Drop)]
pub enum RcPiece {
    Text(Bytes),
    /// The name of a variable, whose value stands here.
    Variable(Bytes),
}

/// A list of parts.
pub type RcPieces = Series<RcPiece>;

/// A word by its parts; no text stands beside another, and none is empty.
#[derive(Drop)]
pub struct RcWord {
    pub pieces: RcPieces,
}

/// A list of words.
pub type RcWords = Series<RcWord>;

/// A variable's name, and how many characters it takes behind its `$`.
#[derive(Clone, Copy, Debug)]
pub struct FoundName<'a> {
    pub name: &'a [Sign],
    pub size: usize,
}

fn name_end(signs: &[Sign]) -> Option<usize>
    ensures value { result ≡ position (λ s. not (is_in_name s)) signs.now }
    ensures within { IfSome result (λ end. end < length signs.now) }
{
    signs.iter().position(|s| !s.is_in_name())
}

// How many characters at the front may stand in a name.
#[tactic(auto, unfolding(crate::specs::Words::name_len))]
fn name_len(signs: &[Sign]) -> usize
    ensures value { result ≡ spec.name_len signs.now }
    ensures within { result ≤ length signs.now }
{
    name_end(signs).unwrap_or(signs.len())
}

// The name behind `${`.
fn braced_name(signs: &[Sign]) -> Option<FoundName<'_>>
    ensures value { option_map spec.found_view result
        ≡ spec.braced_name signs.now (spec.name_len signs.now) }
    ensures within { IfSome result (λ f. f.size ≤ length signs.now + 1) }
{
    let size = name_len(signs);
    let (name, rest) = signs.split_at(size);
    match rest {
        [end, ..] if size > 0 && end.is_active(b'}') => Some(FoundName {
            name,
            size: size + 2,
        }),
        _ => None,
    }
}

fn bare_name(signs: &[Sign]) -> Option<FoundName<'_>>
    ensures value { option_map spec.found_view result
        ≡ spec.bare_name signs.now (spec.name_len signs.now) }
    ensures within { IfSome result (λ f. f.size ≤ length signs.now) }
{
    let size = name_len(signs);
    if size == 0 {
        return None;
    }
    let (name, _) = signs.split_at(size);
    Some(FoundName { name, size })
}

// The variable that a character begins, with the characters behind it.
fn name_at(sign: Sign, signs: &[Sign]) -> Option<FoundName<'_>>
    ensures value { option_map spec.found_view result ≡ spec.name_at sign signs.now }
    ensures within { IfSome result (λ f. f.size ≤ length signs.now) }
{
    if !sign.is_active(b'$') {
        return None;
    }
    match signs {
        [] => None,
        [first, rest @ ..] if first.is_active(b'{') => braced_name(rest),
        _ => bare_name(signs),
    }
}

fn text_of(alloc: Global, signs: &[Sign]) -> Result<Bytes, NoMemory>
    ensures { IfOk result (λ b. b.items ≡ spec.text_of signs.now) }
{
    let mut text = Bytes::new(alloc);
    let mut left = signs;
    while let [first, rest @ ..] = left {
        push_byte(&mut text, first.byte())?;
        left = rest;
    }
    Ok(text)
}

fn push_byte(text: &mut Bytes, byte: Option<u8>) -> Result<(), NoMemory>
    ensures { OnOk result (text.new.items ≡ text.old.items ++ option_to_list byte) }
{
    if let Some(byte) = byte {
        text.push(byte)?;
    }
    Ok(())
}

// Adds a text, if there is any.
fn push_text(pieces: &mut RcPieces, text: Bytes) -> Result<(), NoMemory>
    ensures { OnOk result
        (spec.plain_pieces pieces.new
        ≡ spec.plain_pieces pieces.old ++ spec.with_text text.items []) }
{
    if text.len() > 0 {
        pieces.push(RcPiece::Text(text))?;
    }
    Ok(())
}

fn push_variable(alloc: Global, pieces: &mut RcPieces, name: &[Sign]) -> Result<(), NoMemory>
    ensures { OnOk result (spec.plain_pieces pieces.new
        ≡ spec.plain_pieces pieces.old ++ spec.Variable (spec.text_of name.now) ∷ []) }
{
    pieces.push(RcPiece::Variable(text_of(alloc, name)?))?;
    Ok(())
}

impl RcWord {
    /// The word of which these are the characters.
    pub fn read(alloc: Global, word: &[Sign]) -> Result<RcWord, NoMemory>
        ensures { IfOk result (λ w. spec.plain_word w ≡ spec.pieces_of word.now) }
    {
        let mut pieces = RcPieces::new(alloc);
        let mut text = Bytes::new(alloc);
        let mut left = word;
        while let Some((sign, rest)) = left.split_first() {
            match name_at(*sign, rest) {
                Some(found) => {
                    push_text(&mut pieces, text)?;
                    push_variable(alloc, &mut pieces, found.name)?;
                    text = Bytes::new(alloc);
                    (_, left) = rest.split_at(found.size);
                }
                None => {
                    push_byte(&mut text, sign.byte())?;
                    left = rest;
                }
            }
        }
        push_text(&mut pieces, text)?;
        Ok(RcWord { pieces })
    }
}
