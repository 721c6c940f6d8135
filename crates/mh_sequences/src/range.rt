//! Ranges of numbers (mh-sequence(5), "Sequences").

ghost use Rattle.std.specs.Prelude.{◌≡◌, ◌++◌, IfOk, OnOk};
ghost use Rattle.std.specs.Prelude.{true};
ghost use Rattle.std.specs.List.{list_all};
ghost use Rattle.mh_sequences.specs.Laws.{is_upright};
ghost use Rattle.mh_sequences.specs.Ranges as spec;

use folder_core::read_number;
use mail_base::{Bytes, NoMemory, Series, split_once};
use std::alloc::Global;

/// The numbers from the first to the last, both of them too.
#[derive(Clone, Copy, Debug, PartialEq, Eq)]
pub struct Range {
    pub first: u32,
    pub last: u32,
}

/// A list of ranges.
pub type Ranges = Series<Range>;

impl Range {
    pub fn one(number: u32) -> Range
        ensures { result ≡ spec.one number }
    {
        Range {
            first: number,
            last: number,
        }
    }

    /// A word of the form `n` or `n-m`, where `n` is not above `m`.
    pub fn read(word: &[u8]) -> Option<Range>
        ensures { result ≡ spec.range_of word.now }
    {
        match split_once(b'-', word) {
            None => Some(Range::one(read_number(word)?)),
            Some((first, last)) => Range::between(read_number(first)?, read_number(last)?),
        }
    }

    fn between(first: u32, last: u32) -> Option<Range>
        ensures { result ≡ spec.between first last }
    {
        if first <= last {
            Some(Range { first, last })
        } else {
            None
        }
    }

    pub fn holds(self, number: u32) -> bool
        ensures { result ≡ spec.holds number self }
    {
        self.first <= number && number <= self.last
    }

    // Whether it ends before the other begins, with a number between them.
    fn is_before(self, other: Range) -> bool
        ensures { result ≡ spec.is_before self other }
    {
        self.last < other.first && other.first - self.last > 1
    }

    // From the lower of the first numbers to the higher of the last.
    fn joined(self, other: Range) -> Range
        ensures { result ≡ spec.joined self other }
    {
        Range {
            first: self.first.min(other.first),
            last: self.last.max(other.last),
        }
    }
}

pub fn any_holds(ranges: &[Range], number: u32) -> bool
    ensures { result ≡ spec.any_holds number ranges.now }
{
    let mut left = ranges;
    while let [range, rest @ ..] = left {
        if range.holds(number) {
            return true;
        }
        left = rest;
    }
    false
}

pub fn copied(alloc: Global, ranges: &[Range]) -> Result<Ranges, NoMemory>
    ensures { IfOk result (λ r. r.items ≡ ranges.now) }
{
    Ok(Ranges::from_vec(ranges.to_vec(alloc)?))
}

fn append(ranges: &mut Ranges, more: &[Range]) -> Result<(), NoMemory>
    ensures { OnOk result (ranges.new.items ≡ ranges.old.items ++ more.now) }
{
    let mut left = more;
    while let [range, rest @ ..] = left {
        ranges.push(*range)?;
        left = rest;
    }
    Ok(())
}

/// The ranges with one more, joined with those that it meets.
pub fn with_range(alloc: Global, ranges: &[Range], range: Range) -> Result<Ranges, NoMemory>
    ensures { IfOk result (λ r. r.items ≡ spec.with_range range ranges.now) }
{
    let mut made = Ranges::new(alloc);
    let mut range = range;
    let mut left = ranges;
    while let [next, rest @ ..] = left {
        if range.is_before(*next) {
            made.push(range)?;
            append(&mut made, left)?;
            return Ok(made);
        }
        if next.is_before(range) {
            made.push(*next)?;
        } else {
            range = range.joined(*next);
        }
        left = rest;
    }
    made.push(range)?;
    Ok(made)
}

fn push_without(ranges: &mut Ranges, range: Range, number: u32) -> Result<(), NoMemory>
    ensures { OnOk result (ranges.new.items ≡ ranges.old.items ++ spec.parts number range) }
{
    if !range.holds(number) {
        ranges.push(range)?;
        return Ok(());
    }
    if range.first < number {
        ranges.push(Range {
            last: number - 1,
            ..range
        })?;
    }
    if number < range.last {
        ranges.push(Range {
            first: number + 1,
            ..range
        })?;
    }
    Ok(())
}

/// The ranges without a number.
pub fn without(alloc: Global, ranges: &[Range], number: u32) -> Result<Ranges, NoMemory>
    ensures { IfOk result (λ r. r.items ≡ spec.without number ranges.now) }
{
    let mut made = Ranges::new(alloc);
    let mut left = ranges;
    while let [range, rest @ ..] = left {
        push_without(&mut made, *range, number)?;
        left = rest;
    }
    Ok(made)
}

#[tactic(auto, using(crate::proofs::RangesLemmas::short_rises))]
fn is_rising(ranges: &[Range]) -> bool
    ensures { result ≡ spec.is_rising ranges.now }
{
    let mut left = ranges;
    while let [range, next, ..] = left {
        if !range.is_before(*next) {
            return false;
        }
        left = &left[1..];
    }
    true
}

// Ranges in rising order of their first numbers, joined where they meet.
fn join_sorted(alloc: Global, ranges: &[Range]) -> Result<Ranges, NoMemory>
    ensures { IfOk result (λ r. r.items ≡ spec.joined_sorted ranges.now) }
{
    let mut made = Ranges::new(alloc);
    let [first, rest @ ..] = ranges else {
        return Ok(made);
    };
    let mut range = *first;
    let mut left = rest;
    while let [next, behind @ ..] = left {
        if range.is_before(*next) {
            made.push(range)?;
            range = *next;
        } else {
            range = range.joined(*next);
        }
        left = behind;
    }
    made.push(range)?;
    Ok(made)
}

/// The ranges in rising order, of which no two meet. Those that stand so already, as other programs
/// write them, are not sorted.
#[tactic(auto, using(crate::proofs::RangesLemmas::rising_stays))]
pub fn in_order(alloc: Global, ranges: Vec<Range>) -> Result<Ranges, NoMemory>
    requires { list_all is_upright ranges.items ≡ true }
    ensures { IfOk result (λ r. r.items ≡ spec.in_order ranges.items) }
{
    if is_rising(ranges.as_slice()) {
        return Ok(Ranges::from_vec(ranges));
    }
    put_in_order(alloc, ranges)
}

fn put_in_order(alloc: Global, ranges: Vec<Range>) -> Result<Ranges, NoMemory>
    requires { list_all is_upright ranges.items ≡ true }
    ensures { IfOk result (λ r. r.items ≡ spec.in_order ranges.items) }
{
    let mut sorted = ranges;
    sorted.sort_by_key(|range| range.first)?;
    join_sorted(alloc, sorted.as_slice())
}

/// Adds the range as it is written, with a blank before it.
pub fn append_text(alloc: Global, text: &mut Bytes, range: Range) -> Result<(), NoMemory>
    ensures { OnOk result (text.new.items ≡ text.old.items ++ spec.text_of range) }
{
    text.push(b' ')?;
    text.append(range.first.to_string(alloc)?.as_bytes())?;
    if range.first < range.last {
        text.push(b'-')?;
        text.append(range.last.to_string(alloc)?.as_bytes())?;
    }
    Ok(())
}
