//! The words of a command, as the characters of which they are made.

ghost use Rattle.std.specs.Prelude.{◌≡◌, ◌++◌, [], IfOk, OnOk};
ghost use Rattle.rc_lang_words.specs.Words as spec;

use crate::sign::Sign;
use mail_base::NoMemory;
use std::alloc::Global;

// Adds a word, if it has a character.
fn push_word(words: &mut Vec<Vec<Sign>>, word: Vec<Sign>) -> Result<(), NoMemory>
    ensures { OnOk result (spec.written_words words.new.items
        ≡ spec.written_words words.old.items ++ spec.ended_word word.items) }
{
    if !word.is_empty() {
        words.push(word)?;
    }
    Ok(())
}

/// The words of a command, which blanks part.
pub fn split_words(alloc: Global, signs: &[Sign]) -> Result<Vec<Vec<Sign>>, NoMemory>
    ensures { IfOk result (λ v. spec.written_words v.items ≡ spec.words_from [] signs.now) }
{
    let mut words = Vec::new(alloc);
    let mut word = Vec::new(alloc);
    let mut left = signs;
    while let [sign, rest @ ..] = left {
        if sign.is_blank() {
            push_word(&mut words, word)?;
            word = Vec::new(alloc);
        } else {
            word.push(*sign)?;
        }
        left = rest;
    }
    push_word(&mut words, word)?;
    Ok(words)
}

fn is_set(word: &[Sign]) -> bool
    ensures { result ≡ spec.is_set word.now }
{
    match word {
        [s, e, t] => s.is_plain(b's') && e.is_plain(b'e') && t.is_plain(b't'),
        _ => false,
    }
}

fn begins_equals(word: &[Sign]) -> bool
    ensures { result ≡ spec.begins_equals word.now }
{
    match word {
        [] => false,
        [first, ..] => first.is_plain(b'='),
    }
}

fn ends_equals(word: &[Sign]) -> bool
    ensures { result ≡ spec.ends_equals word.now }
{
    let (_, last) = word.split_at(word.len().saturating_sub(1));
    begins_equals(last)
}

// Adds a word and those behind it, of which blanks round an equals sign part none.
fn push_joined(
    alloc: Global,
    joined: &mut Vec<Vec<Sign>>,
    first: &[Sign],
    words: &[Vec<Sign>],
) -> Result<(), NoMemory>
    ensures { OnOk result (spec.written_words joined.new.items
        ≡ spec.written_words joined.old.items
        ++ spec.joined_from first.now (spec.written_words words.now)) }
{
    let mut word = first.to_vec(alloc)?;
    let mut left = words;
    while let [next, rest @ ..] = left {
        if ends_equals(word.as_slice()) || begins_equals(next.as_slice()) {
            word.extend_from_slice(next.as_slice())?;
        } else {
            joined.push(word)?;
            word = next.as_slice().to_vec(alloc)?;
        }
        left = rest;
    }
    joined.push(word)?;
    Ok(())
}

/// The words of a command, of which `set` joins those behind it round an equals sign.
pub fn join_words(alloc: Global, words: Vec<Vec<Sign>>) -> Result<Vec<Vec<Sign>>, NoMemory>
    ensures { IfOk result (λ v. spec.written_words v.items
        ≡ spec.joined_words (spec.written_words words.items)) }
{
    match words.as_slice() {
        [first, next, rest @ ..] if is_set(first.as_slice()) => {
            let mut joined = Vec::new(alloc);
            joined.push(first.as_slice().to_vec(alloc)?)?;
            push_joined(alloc, &mut joined, next.as_slice(), rest)?;
            Ok(joined)
        }
        _ => Ok(words),
    }
}
