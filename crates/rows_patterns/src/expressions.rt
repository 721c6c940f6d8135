//! Cases of expressions that are read and searched for.

use case_files::{Answer, Case, CaseFault, Subject};
use mail_base::{Bytes, Names, NoMemory};
use people::{Expr, ExprError, Judged, RegexBuild, Verdict, Verdicts};
use std::alloc::Global;

/// Each `expr` is read in turn, and `read` tells how; `text` is searched for the last one, and
/// `found` tells whether it is there. `size` are texts that count as too large. `judged` are the
/// texts that were judged, each with its verdict and the counts of refusals before and after.
pub struct Expressions;

impl Subject for Expressions {
    fn inputs(&self) -> &[&[u8]] {
        &[b"size", b"expr", b"text"]
    }

    fn answer(&self, alloc: Global, case: &Case, answer: &mut Answer) -> Result<(), CaseFault> {
        let builder = Box::new(alloc, RegexBuild::new(sizes_of(alloc, case)?))?;
        let mut verdicts = Verdicts::new(alloc, builder);
        let mut last = None;
        for entry in case.entries.as_slice() {
            let value = entry.value.as_slice();
            if entry.role() == b"expr".as_slice() {
                put_read(Expr::read(alloc, value, &mut verdicts), &mut last, answer)?;
            } else if entry.role() == b"text".as_slice() {
                put_found(&mut last, value, answer)?;
            }
        }
        put_verdicts(alloc, &verdicts, answer)
    }
}

fn put_verdicts(alloc: Global, verdicts: &Verdicts, answer: &mut Answer) -> Result<(), CaseFault> {
    for place in 0..verdicts.len() {
        if let Some(judged) = verdicts.get(place) {
            put_judged(alloc, judged, answer)?;
        }
    }
    Ok(())
}

fn sizes_of(alloc: Global, case: &Case) -> Result<Names, NoMemory> {
    let mut sizes = Names::new(alloc);
    for entry in case.entries.as_slice() {
        if entry.role() == b"size".as_slice() {
            sizes.push(Bytes::copy_of(alloc, entry.value.as_slice())?)?;
        }
    }
    Ok(sizes)
}

fn put_read(
    read: Result<Expr, ExprError>,
    last: &mut Option<Expr>,
    answer: &mut Answer,
) -> Result<(), CaseFault> {
    match read {
        Ok(expr) => {
            *last = Some(expr);
            answer.put_text(b"read", "good")
        }
        Err(error) => {
            *last = None;
            put_error(error, answer)
        }
    }
}

fn put_error(error: ExprError, answer: &mut Answer) -> Result<(), CaseFault> {
    match error {
        ExprError::Syntax => answer.put_text(b"read", "syntax"),
        ExprError::Size => answer.put_text(b"read", "size"),
        ExprError::NoMemory => Err(CaseFault::NoMemory),
    }
}

fn put_found(expr: &mut Option<Expr>, text: &[u8], answer: &mut Answer) -> Result<(), CaseFault> {
    match expr {
        Some(expr) => answer.put_flag(b"found", expr.finds(text)?),
        None => Err(CaseFault::BadInput),
    }
}

fn put_judged(alloc: Global, judged: &Judged, answer: &mut Answer) -> Result<(), CaseFault> {
    let mut line = Bytes::new(alloc);
    write_judged(alloc, judged, &mut line)?;
    answer.put(b"judged", line.as_slice())
}

fn write_judged(alloc: Global, judged: &Judged, line: &mut Bytes) -> Result<(), CaseFault> {
    let before = judged.before;
    let after = judged.after;
    line.append(judged.text.as_slice())?;
    line.append(word_of(judged.verdict))?;
    line.append(format!(in alloc; " {before} {after}")?.as_bytes())?;
    Ok(())
}

fn word_of(verdict: Verdict) -> &'static [u8] {
    match verdict {
        Verdict::Good => b" good",
        Verdict::Syntax => b" syntax",
        Verdict::Size => b" size",
    }
}
