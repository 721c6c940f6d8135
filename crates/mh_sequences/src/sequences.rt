//! The sequences of a folder (mh-sequence(5)).

ghost use Rattle.std.specs.Prelude.{◌≡◌, ◌++◌, ◌∷◌, ℕ, [], IfOk, OnOk, OnErr, true};
ghost use Rattle.mh_sequences.specs.Laws.{are_upright};
ghost use Rattle.mh_sequences.specs.Marks.{has_member};
ghost use Rattle.mh_sequences.specs.SequenceLine as one;
ghost use Rattle.mh_sequences.specs.Sequences as spec;

use crate::members::Members;
use crate::range::Range;
use crate::sequence_line::SequenceLine;
use mail_base::{Bytes, NoMemory, Series};
use std::alloc::Global;
use std::marker::Model;

/// The lines of the file of sequences. Contracts see each sequence as its name and its ranges in
/// rising order, and each other line as it is, without its line end.
#[derive(Drop)]
pub struct Sequences {
    lines: Series<SequenceLine>,
    alloc: Global,
}

impl Model for Sequences {
    ghost use Rattle.std.specs.Prelude.{List};
    ghost use Rattle.mh_sequences.specs.SequenceLine.{PlainLine};
    ghost use Rattle.mh_sequences.specs.Sequences.{plain_lines};

    ghost Value = { List PlainLine };

    ghost view = { λ s. plain_lines s.lines.items };
}

fn any_has_name(lines: &[SequenceLine], name: &[u8]) -> bool
    ensures { result ≡ spec.any_has_name name.now (spec.plain_lines lines.now) }
{
    let mut left = lines;
    while let [line, rest @ ..] = left {
        if line.has_name(name) {
            return true;
        }
        left = rest;
    }
    false
}

fn any_holds(lines: &[SequenceLine], name: &[u8], number: u32) -> bool
    ensures { result ≡ spec.holds name.now number (spec.plain_lines lines.now) }
{
    let mut left = lines;
    while let [line, rest @ ..] = left {
        if line.holds(name, number) {
            return true;
        }
        left = rest;
    }
    false
}

// The ranges of the sequences of the name, as they stand in the lines.
fn ranges_of(alloc: Global, lines: &[SequenceLine], name: &[u8]) -> Result<Vec<Range>, NoMemory>
    ensures { IfOk result (λ r. r.items ≡ spec.ranges_of name.now (spec.plain_lines lines.now)) }
{
    let mut ranges = Vec::new(alloc);
    let mut left = lines;
    while let [line, rest @ ..] = left {
        ranges.extend_from_slice(line.ranges_of(name))?;
        left = rest;
    }
    Ok(ranges)
}

fn read_lines(alloc: Global, bytes: &[u8]) -> Result<Series<SequenceLine>, NoMemory>
    ensures { IfOk result (λ l. spec.plain_lines l.items ≡ spec.lines_from [] bytes.now) }
{
    let mut lines = Series::new(alloc);
    let mut line = Bytes::new(alloc);
    let mut left = bytes;
    while let [first, rest @ ..] = left {
        if *first == b'\n' {
            lines.push(SequenceLine::read(alloc, line.as_slice())?)?;
            line = Bytes::new(alloc);
        } else {
            line.push(*first)?;
        }
        left = rest;
    }
    push_last(alloc, &mut lines, line.as_slice())?;
    Ok(lines)
}

// Adds a line without a line end, if it is not empty.
fn push_last(alloc: Global, lines: &mut Series<SequenceLine>, line: &[u8]) -> Result<(), NoMemory>
    ensures { OnOk result (spec.plain_lines lines.new.items
        ≡ spec.plain_lines lines.old.items ++ spec.last_line line.now) }
{
    if !line.is_empty() {
        lines.push(SequenceLine::read(alloc, line)?)?;
    }
    Ok(())
}

// Adds a sequence without numbers, where there is none of the name.
fn push_missing(
    alloc: Global,
    lines: &mut Series<SequenceLine>,
    name: &[u8],
) -> Result<(), NoMemory>
    ensures { OnOk result (spec.plain_lines lines.new.items
        ≡ spec.with_name name.now (spec.plain_lines lines.old.items)) }
{
    if !any_has_name(lines.as_slice(), name) {
        lines.push(SequenceLine::empty(alloc, name)?)?;
    }
    Ok(())
}

fn without_number(
    alloc: Global,
    lines: &[SequenceLine],
    number: u32,
) -> Result<Series<SequenceLine>, NoMemory>
    ensures { IfOk result (λ l. spec.plain_lines l.items
        ≡ spec.without_number number (spec.plain_lines lines.now)) }
{
    let mut made = Series::new(alloc);
    let mut left = lines;
    while let [line, rest @ ..] = left {
        made.push(line.without(alloc, number)?)?;
        left = rest;
    }
    Ok(made)
}

// The lines of which those of the name are without the number.
fn without_member(
    alloc: Global,
    lines: &[SequenceLine],
    name: &[u8],
    number: u32,
) -> Result<Series<SequenceLine>, NoMemory>
    ensures { IfOk result (λ l. spec.plain_lines l.items
        ≡ spec.without_member name.now number (spec.plain_lines lines.now)) }
{
    let mut made = Series::new(alloc);
    let mut left = lines;
    while let [line, rest @ ..] = left {
        if line.has_name(name) {
            made.push(line.without(alloc, number)?)?;
        } else {
            made.push(line.copy(alloc)?)?;
        }
        left = rest;
    }
    Ok(made)
}

fn append_copies(
    lines: &mut Series<SequenceLine>,
    alloc: Global,
    more: &[SequenceLine],
) -> Result<(), NoMemory>
    ensures { OnOk result (spec.plain_lines lines.new.items
        ≡ spec.plain_lines lines.old.items ++ spec.plain_lines more.now) }
{
    let mut left = more;
    while let [line, rest @ ..] = left {
        push_copy(lines, alloc, line)?;
        left = rest;
    }
    Ok(())
}

// The lines of which the first of the name has the number, or a new one behind all.
fn with_member(
    alloc: Global,
    lines: &[SequenceLine],
    name: &[u8],
    number: u32,
) -> Result<Series<SequenceLine>, NoMemory>
    ensures { IfOk result (λ l. spec.plain_lines l.items
        ≡ spec.with_member name.now number (spec.plain_lines lines.now)) }
{
    let mut made = Series::new(alloc);
    push_with_member(&mut made, alloc, lines, name, number)?;
    Ok(made)
}

// Adds the lines of which the first of the name has the number, or a new one behind all.
fn push_with_member(
    made: &mut Series<SequenceLine>,
    alloc: Global,
    lines: &[SequenceLine],
    name: &[u8],
    number: u32,
) -> Result<(), NoMemory>
    ensures { OnOk result (spec.plain_lines made.new.items ≡ spec.plain_lines made.old.items
        ++ spec.with_member name.now number (spec.plain_lines lines.now)) }
{
    let mut left = lines;
    while let [line, rest @ ..] = left {
        if line.has_name(name) {
            push_with_number(made, alloc, line, number)?;
            return append_copies(made, alloc, rest);
        }
        push_copy(made, alloc, line)?;
        left = rest;
    }
    push_new(made, alloc, name, number)
}

fn push_with_number(
    made: &mut Series<SequenceLine>,
    alloc: Global,
    line: &SequenceLine,
    number: u32,
) -> Result<(), NoMemory>
    ensures { OnOk result (spec.plain_lines made.new.items
        ≡ spec.plain_lines made.old.items
        ++ (one.with_number number (one.plain_line line.now) ∷ [])) }
{
    made.push(line.with_number(alloc, number)?)
}

fn push_copy(
    made: &mut Series<SequenceLine>,
    alloc: Global,
    line: &SequenceLine,
) -> Result<(), NoMemory>
    ensures { OnOk result (spec.plain_lines made.new.items
        ≡ spec.plain_lines made.old.items ++ (one.plain_line line.now ∷ [])) }
{
    made.push(line.copy(alloc)?)
}

fn push_new(
    made: &mut Series<SequenceLine>,
    alloc: Global,
    name: &[u8],
    number: u32,
) -> Result<(), NoMemory>
    ensures { OnOk result (spec.plain_lines made.new.items
        ≡ spec.plain_lines made.old.items
        ++ (one.with_number number (one.empty_line name.now) ∷ [])) }
{
    made.push(SequenceLine::empty(alloc, name)?.with_number(alloc, number)?)
}

impl Sequences {
    /// The sequences of a file. Those of the names `unseen`, `flagged` and `replied` that it lacks
    /// stand last in this order, without numbers.
    pub fn read(alloc: Global, bytes: &[u8]) -> Result<Sequences, NoMemory>
        ensures { IfOk result (λ s. s ≡ spec.sequences_of bytes.now) }
    {
        let mut lines = read_lines(alloc, bytes)?;
        push_missing(alloc, &mut lines, b"unseen")?;
        push_missing(alloc, &mut lines, b"flagged")?;
        push_missing(alloc, &mut lines, b"replied")?;
        Ok(Sequences { lines, alloc })
    }

    /// Whether a sequence of the name holds the number. Of two lines of one name both count.
    pub fn holds(&self, name: &[u8], number: u32) -> bool
        ensures { result ≡ spec.holds name.now number self.now }
    {
        any_holds(self.lines.as_slice(), name, number)
    }

    /// The numbers in the sequences of the name.
    pub fn members(&self, alloc: Global, name: &[u8]) -> Result<Members, NoMemory>
        requires { are_upright self.now ≡ true }
        ensures { IfOk result (λ m. (n : ℕ) → has_member m n ≡ spec.holds name.now n self.now) }
    {
        let ranges = ranges_of(alloc, self.lines.as_slice(), name)?;
        Ok(Members::of(alloc, ranges)?)
    }

    /// Puts the number into the first sequence of the name, or takes it out of all of the name.
    /// Without memory all stays as it was. It takes time by the length of the file.
    pub fn put(&mut self, name: &[u8], number: u32, member: bool) -> Result<(), NoMemory>
        ensures ok { OnOk result (self.new ≡ spec.put name.now number member self.old) }
        ensures err { OnErr result (self.new ≡ self.old) }
    {
        if self.holds(name, number) == member {
            return Ok(());
        }
        self.lines = if member {
            with_member(self.alloc, self.lines.as_slice(), name, number)?
        } else {
            without_member(self.alloc, self.lines.as_slice(), name, number)?
        };
        Ok(())
    }

    /// Takes the number out of all sequences. Without memory all stays as it was.
    pub fn drop_number(&mut self, number: u32) -> Result<(), NoMemory>
        ensures ok { OnOk result (self.new ≡ spec.without_number number self.old) }
        ensures err { OnErr result (self.new ≡ self.old) }
    {
        self.lines = without_number(self.alloc, self.lines.as_slice(), number)?;
        Ok(())
    }

    /// The file of the sequences; one without numbers is not written.
    pub fn write(&self, alloc: Global) -> Result<Bytes, NoMemory>
        ensures { IfOk result (λ b. b.items ≡ spec.file_of self.now) }
    {
        let mut text = Bytes::new(alloc);
        append_lines(alloc, &mut text, self.lines.as_slice())?;
        Ok(text)
    }
}

fn append_lines(alloc: Global, text: &mut Bytes, lines: &[SequenceLine]) -> Result<(), NoMemory>
    ensures { OnOk result (text.new.items
        ≡ text.old.items ++ spec.file_of (spec.plain_lines lines.now)) }
{
    let mut left = lines;
    while let [line, rest @ ..] = left {
        line.append_to(alloc, text)?;
        left = rest;
    }
    Ok(())
}
