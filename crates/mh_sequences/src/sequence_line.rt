//! A line of the file of sequences (mh-sequence(5)).

ghost use Rattle.std.specs.Prelude.{◌≡◌, ◌++◌, [], IfOk, OnOk, option_map};
ghost use Rattle.mh_sequences.specs.SequenceLine as spec;

use crate::range::{Range, Ranges, any_holds, append_text, copied, in_order, with_range, without};
use mail_base::{Bytes, NoMemory, is_blank, split_once};
use std::alloc::Global;

/// A line, without its line end.
#[derive(Drop)]
pub enum SequenceLine {
    /// The name of a sequence, and its numbers as ranges in rising order.
    Named(Bytes, Ranges),
    /// Any other line.
    Kept(Bytes),
}

fn has_blank(name: &[u8]) -> bool
    ensures { result ≡ spec.has_blank name.now }
{
    let mut left = name;
    while let [first, rest @ ..] = left {
        if is_blank(*first) {
            return true;
        }
        left = rest;
    }
    false
}

fn is_name(name: &[u8]) -> bool
    ensures { result ≡ spec.is_name name.now }
{
    !name.is_empty() && !has_blank(name)
}

// Adds the range of a word, if it is not empty; whether it is well-formed.
fn push_word(ranges: &mut Vec<Range>, word: &[u8]) -> Result<bool, NoMemory>
    ensures { IfOk result (spec.PushesWord ranges.old.items word.now ranges.new.items) }
{
    if word.is_empty() {
        return Ok(true);
    }
    match Range::read(word) {
        Some(range) => {
            ranges.push(range)?;
            Ok(true)
        }
        None => Ok(false),
    }
}

// The ranges as they are written, if they are well-formed.
fn read_ranges(alloc: Global, text: &[u8]) -> Result<Option<Vec<Range>>, NoMemory>
    ensures { IfOk result
        (λ o. option_map (λ r. r.items) o ≡ spec.ranges_from [] [] text.now) }
{
    let mut ranges = Vec::new(alloc);
    let mut word = Bytes::new(alloc);
    let mut left = text;
    while let [first, rest @ ..] = left {
        if is_blank(*first) {
            if !push_word(&mut ranges, word.as_slice())? {
                return Ok(None);
            }
            word = Bytes::new(alloc);
        } else {
            word.push(*first)?;
        }
        left = rest;
    }
    if push_word(&mut ranges, word.as_slice())? {
        Ok(Some(ranges))
    } else {
        Ok(None)
    }
}

// The sequence that a line tells.
fn read_named(alloc: Global, line: &[u8]) -> Result<Option<SequenceLine>, NoMemory>
    ensures { IfOk result (λ o. option_map spec.plain_line o ≡ spec.named_line line.now) }
{
    let Some((name, text)) = split_once(b':', line) else {
        return Ok(None);
    };
    if !is_name(name) {
        return Ok(None);
    }
    match read_ranges(alloc, text)? {
        Some(ranges) => Ok(Some(SequenceLine::Named(
            Bytes::copy_of(alloc, name)?,
            in_order(alloc, ranges)?,
        ))),
        None => Ok(None),
    }
}

impl SequenceLine {
    /// A line of the file, without its line end.
    pub fn read(alloc: Global, line: &[u8]) -> Result<SequenceLine, NoMemory>
        ensures { IfOk result (λ l. spec.plain_line l ≡ spec.line_of line.now) }
    {
        match read_named(alloc, line)? {
            Some(named) => Ok(named),
            None => Ok(SequenceLine::Kept(Bytes::copy_of(alloc, line)?)),
        }
    }

    /// A sequence without numbers.
    pub fn empty(alloc: Global, name: &[u8]) -> Result<SequenceLine, NoMemory>
        ensures { IfOk result (λ l. spec.plain_line l ≡ spec.empty_line name.now) }
    {
        Ok(SequenceLine::Named(Bytes::copy_of(alloc, name)?, Ranges::new(alloc)))
    }

    pub fn has_name(&self, name: &[u8]) -> bool
        ensures { result ≡ spec.has_name name.now (spec.plain_line self.now) }
    {
        match self {
            SequenceLine::Named(own, _) => own.as_slice() == name,
            SequenceLine::Kept(_) => false,
        }
    }

    /// Whether it is a sequence of this name that holds the number.
    pub fn holds(&self, name: &[u8], number: u32) -> bool
        ensures { result ≡ spec.line_holds name.now number (spec.plain_line self.now) }
    {
        match self {
            SequenceLine::Named(own, ranges) => {
                own.as_slice() == name && any_holds(ranges.as_slice(), number)
            }
            SequenceLine::Kept(_) => false,
        }
    }

    /// The ranges of a sequence of this name.
    pub fn ranges_of(&self, name: &[u8]) -> &[Range]
        ensures { result.now ≡ spec.ranges_named name.now (spec.plain_line self.now) }
    {
        match self {
            SequenceLine::Named(own, ranges) if own.as_slice() == name => ranges.as_slice(),
            _ => &[],
        }
    }

    pub fn copy(&self, alloc: Global) -> Result<SequenceLine, NoMemory>
        ensures { IfOk result (λ l. spec.plain_line l ≡ spec.plain_line self.now) }
    {
        match self {
            SequenceLine::Named(name, ranges) => Ok(SequenceLine::Named(
                Bytes::copy_of(alloc, name.as_slice())?,
                copied(alloc, ranges.as_slice())?,
            )),
            SequenceLine::Kept(line) => {
                Ok(SequenceLine::Kept(Bytes::copy_of(alloc, line.as_slice())?))
            }
        }
    }

    /// The line with one more number; a line that is no sequence as it is.
    pub fn with_number(&self, alloc: Global, number: u32) -> Result<SequenceLine, NoMemory>
        ensures { IfOk result
            (λ l. spec.plain_line l ≡ spec.with_number number (spec.plain_line self.now)) }
    {
        match self {
            SequenceLine::Named(name, ranges) => Ok(SequenceLine::Named(
                Bytes::copy_of(alloc, name.as_slice())?,
                with_range(alloc, ranges.as_slice(), Range::one(number))?,
            )),
            SequenceLine::Kept(_) => self.copy(alloc),
        }
    }

    /// The line without a number.
    pub fn without(&self, alloc: Global, number: u32) -> Result<SequenceLine, NoMemory>
        ensures { IfOk result
            (λ l. spec.plain_line l ≡ spec.without_number number (spec.plain_line self.now)) }
    {
        match self {
            SequenceLine::Named(name, ranges) => Ok(SequenceLine::Named(
                Bytes::copy_of(alloc, name.as_slice())?,
                without(alloc, ranges.as_slice(), number)?,
            )),
            SequenceLine::Kept(_) => self.copy(alloc),
        }
    }

    /// Adds the line with its line end, if it is not a sequence without numbers.
    pub fn append_to(&self, alloc: Global, text: &mut Bytes) -> Result<(), NoMemory>
        ensures { OnOk result (text.new.items
            ≡ text.old.items ++ spec.line_text (spec.plain_line self.now)) }
    {
        match self {
            SequenceLine::Named(name, ranges) => {
                append_named(alloc, text, name.as_slice(), ranges.as_slice())
            }
            SequenceLine::Kept(line) => {
                text.append(line.as_slice())?;
                text.push(b'\n')
            }
        }
    }
}

fn append_named(
    alloc: Global,
    text: &mut Bytes,
    name: &[u8],
    ranges: &[Range],
) -> Result<(), NoMemory>
    ensures { OnOk result (text.new.items
        ≡ text.old.items ++ spec.named_text name.now ranges.now) }
{
    if ranges.is_empty() {
        return Ok(());
    }
    text.append(name)?;
    text.push(b':')?;
    append_ranges(alloc, text, ranges)?;
    text.push(b'\n')
}

fn append_ranges(alloc: Global, text: &mut Bytes, ranges: &[Range]) -> Result<(), NoMemory>
    ensures { OnOk result (text.new.items ≡ text.old.items ++ spec.ranges_text ranges.now) }
{
    let mut left = ranges;
    while let [range, rest @ ..] = left {
        append_text(alloc, text, *range)?;
        left = rest;
    }
    Ok(())
}
