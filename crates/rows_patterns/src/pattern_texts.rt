//! Cases of texts of patterns.

ghost use Rattle.std.specs.Prelude.{pos, neg_ℤ, ◌≤ℤ◌, IfOk};

use case_files::{Answer, Case, CaseFault, Subject};
use mail_base::{Bytes, Names};
use patterns::{
    Asked, Field, Operation, Pattern, PatternError, Sought, hook_pattern, read_pattern,
};
use patterns_match::Relation;
use people::{RegexBuild, Verdicts};
use std::alloc::Global;

/// `text`, or the `pattern` that the text of a `hook` stands for, is read as a pattern at `moment`,
/// in seconds since 1970, where the clock is `east` seconds before UTC or `west` behind it; `size`
/// are expressions that count as too large. `error` tells why it is none; else `asks` are its
/// operations in order, skips left out, each operator behind what it is about. A plain text follows
/// `=`.
pub struct PatternTexts;

impl Subject for PatternTexts {
    fn inputs(&self) -> &[&[u8]] {
        &[b"text", b"hook", b"moment", b"east", b"west", b"size"]
    }

    fn answer(&self, alloc: Global, case: &Case, answer: &mut Answer) -> Result<(), CaseFault> {
        let text = text_of(alloc, case)?;
        answer.put(b"pattern", text.as_slice())?;
        let moment = bounded(case, b"moment", 253_000_000_000)?;
        let offset = offset_of(case)?;
        let builder = Box::new(alloc, RegexBuild::new(sizes_of(alloc, case)?))?;
        let mut verdicts = Verdicts::new(alloc, builder);
        put_read(
            alloc,
            read_pattern(alloc, text.as_slice(), moment, offset, &mut verdicts),
            answer,
        )
    }
}

fn text_of(alloc: Global, case: &Case) -> Result<Bytes, CaseFault> {
    match case.find(b"hook") {
        Some(hook) => Ok(hook_pattern(alloc, hook)?),
        None => Ok(Bytes::copy_of(alloc, case.need(b"text")?)?),
    }
}

fn sizes_of(alloc: Global, case: &Case) -> Result<Names, CaseFault> {
    let mut sizes = Names::new(alloc);
    if let Some(size) = case.find(b"size") {
        sizes.push(Bytes::copy_of(alloc, size)?)?;
    }
    Ok(sizes)
}

// How far the clock is before UTC, or behind it.
fn offset_of(case: &Case) -> Result<i32, CaseFault>
    ensures low { IfOk result (λ n. neg_ℤ (pos 86_400) ≤ℤ n) }
    ensures high { IfOk result (λ n. n ≤ℤ pos 86_400) }
{
    let east = bounded(case, b"east", 86_400)?;
    let west = bounded(case, b"west", 86_400)?;
    Ok(if west > 0 {
        -(west as i32)
    } else {
        east as i32
    })
}

fn put_read(
    alloc: Global,
    read: Result<Pattern, PatternError>,
    answer: &mut Answer,
) -> Result<(), CaseFault> {
    match read {
        Ok(pattern) => put_asked(alloc, &pattern, answer),
        Err(error) => put_error(alloc, error, answer),
    }
}

fn put_error(alloc: Global, error: PatternError, answer: &mut Answer) -> Result<(), CaseFault> {
    if let PatternError::NoMemory = error {
        return Err(CaseFault::NoMemory);
    }
    answer.put(b"error", format!(in alloc; "{error}")?.as_bytes())
}

// A number of the case up to a greatest one, or 0.
fn bounded(case: &Case, key: &[u8], most: i64) -> Result<i64, CaseFault>
    requires { pos 0 ≤ℤ most }
    ensures low { IfOk result (λ n. pos 0 ≤ℤ n) }
    ensures high { IfOk result (λ n. n ≤ℤ most) }
{
    match i64::try_from(case.number(key)?.unwrap_or(0)) {
        Ok(number) if number >= 0 && number <= most => Ok(number),
        _ => Err(CaseFault::BadInput),
    }
}

fn put_asked(alloc: Global, pattern: &Pattern, answer: &mut Answer) -> Result<(), CaseFault> {
    let mut line = Bytes::new(alloc);
    put_operations(alloc, pattern, &mut line)?;
    answer.put(b"asks", line.as_slice().trim_ascii())
}

fn put_operations(alloc: Global, pattern: &Pattern, line: &mut Bytes) -> Result<(), CaseFault> {
    for operation in pattern.operations.as_slice() {
        put_operation(alloc, operation, line)?;
    }
    Ok(())
}

fn put_operation(
    alloc: Global,
    operation: &Operation<Asked>,
    line: &mut Bytes,
) -> Result<(), CaseFault> {
    match operation {
        Operation::Ask(asked) => put_leaf(alloc, asked, line),
        Operation::Related(relation) => put_relation(alloc, *relation, line),
        Operation::SkipUnless(_) | Operation::SkipIf(_) | Operation::Others(_, _) => Ok(()),
        Operation::Negate => put_word(b" not", line),
        Operation::Both => put_word(b" and", line),
        Operation::Either => put_word(b" or", line),
        Operation::Group => put_word(b" group", line),
    }
}

fn put_word(word: &[u8], line: &mut Bytes) -> Result<(), CaseFault> {
    line.append(word)?;
    Ok(())
}

fn put_relation(alloc: Global, relation: Relation, line: &mut Bytes) -> Result<(), CaseFault> {
    put_word(format!(in alloc; " {relation:?}")?.as_bytes(), line)
}

fn put_leaf(alloc: Global, asked: &Asked, line: &mut Bytes) -> Result<(), CaseFault> {
    match asked {
        Asked::Tells(mark) => put_word(format!(in alloc; " {mark:?}")?.as_bytes(), line),
        Asked::Searches(field, sought) => put_search(alloc, *field, sought, line),
        Asked::Dated(day, range) => {
            put_word(format!(in alloc; " {day:?} {range:?}")?.as_bytes(), line)
        }
        Asked::Counts(number, range) => {
            put_word(format!(in alloc; " {number:?} {range:?}")?.as_bytes(), line)
        }
    }
}

fn put_search(
    alloc: Global,
    field: Field,
    sought: &Sought,
    line: &mut Bytes,
) -> Result<(), CaseFault> {
    put_word(format!(in alloc; " {field:?}")?.as_bytes(), line)?;
    if let Sought::Plain(text) = sought {
        put_word(b"=", line)?;
        put_word(text.as_slice(), line)?;
    }
    Ok(())
}
