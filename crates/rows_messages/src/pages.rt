//! Cases of a message on pages.

ghost use Rattle.std.specs.Prelude.{◌≤◌};

use crate::letters::{letter_of, put_lines};
use case_files::{Answer, Case, CaseFault, Entry, Subject, read_number};
use mail_base::{Bytes, Names, NoMemory};
use pager::{Pager, Weeding};
use people::{Expr, ExprError, RegexBuild, Verdicts};
use std::alloc::Global;

/// `message` is opened with the fields that `ignore`, `unignore` and `order` name, or with all
/// where `noweed` stands, in `cols` columns, 80 at first; with `part` a part of it alone, which is
/// `opened: none` where there is none. Then come steps in their order: `scroll` to a line, `quotes`
/// hidden or shown, and questions: `lines N` are so many lines from the top, `top` its number,
/// `find N EXPR` the first line behind one in which the expression is found, or `-`, and
/// `attachments` the rows of the parts.
pub struct Pages;

impl Subject for Pages {
    fn inputs(&self) -> &[&[u8]] {
        &[
            b"message",
            b"ignore",
            b"unignore",
            b"order",
            b"noweed",
            b"cols",
            b"part",
            b"scroll",
            b"quotes",
        ]
    }

    fn answer(&self, alloc: Global, case: &Case, answer: &mut Answer) -> Result<(), CaseFault> {
        let builder = Box::new(alloc, RegexBuild::new(Names::new(alloc)))?;
        let mut verdicts = Verdicts::new(alloc, builder);
        let Some(mut pager) = opened(alloc, case)? else {
            return answer.put(b"opened", b"none");
        };
        for entry in case.entries.as_slice() {
            match step_named(entry.role()) {
                Some(Step::Find) => {
                    let (after, text) = searched(entry.about())?;
                    let found = found(&mut pager, after, Expr::read(alloc, text, &mut verdicts))?;
                    put_found(answer, entry, found)?;
                }
                Some(step) => play(alloc, answer, &mut pager, step, entry)?,
                None => {}
            }
        }
        Ok(())
    }
}

// The pager of the message, or of one of its parts.
fn opened(alloc: Global, case: &Case) -> Result<Option<Pager>, CaseFault> {
    let letter = letter_of(alloc, case.need(b"message")?)?;
    let cols = columns(case)?;
    if cols < 2 {
        return Err(CaseFault::BadInput);
    }
    match case.number(b"part")? {
        Some(number) => {
            let number = usize::try_from(number).unwrap_or(0);
            Ok(Pager::open_part(alloc, &letter, number, cols)?)
        }
        None => {
            let weeding = weeding(alloc, case)?;
            Ok(Some(Pager::open_message(alloc, &letter, &weeding, cols)?))
        }
    }
}

fn columns(case: &Case) -> Result<u16, CaseFault> {
    Ok(u16::try_from(case.number(b"cols")?.unwrap_or(80)).unwrap_or(0))
}

fn weeding(alloc: Global, case: &Case) -> Result<Weeding, NoMemory> {
    Ok(Weeding {
        shown: names(alloc, case, b"unignore")?,
        hidden: names(alloc, case, b"ignore")?,
        order: names(alloc, case, b"order")?,
        weed: case.find(b"noweed").is_none(),
    })
}

// The words of the values of a key.
fn names(alloc: Global, case: &Case, key: &[u8]) -> Result<Names, NoMemory> {
    let mut names = Names::new(alloc);
    for word in case.find(key).unwrap_or(b"").split(|byte| *byte == b' ') {
        if !word.is_empty() {
            names.push(Bytes::copy_of(alloc, word)?)?;
        }
    }
    Ok(names)
}

// The line behind which an expression is sought, and the expression.
fn searched(about: &[u8]) -> Result<(usize, &[u8]), CaseFault> {
    let Some(blank) = about.iter().position(|byte| *byte == b' ') else {
        return Err(CaseFault::BadInput);
    };
    let after = read_number(about.get(..blank).unwrap_or(b""))?;
    let text = about.get(blank.saturating_add(1)..).unwrap_or(b"");
    Ok((usize::try_from(after).unwrap_or(0), text))
}

fn found(
    pager: &mut Pager,
    after: usize,
    expr: Result<Expr, ExprError>,
) -> Result<Option<usize>, CaseFault> {
    match expr {
        Ok(mut expr) => Ok(pager.find(&mut expr, after)?),
        Err(ExprError::NoMemory) => Err(CaseFault::NoMemory),
        Err(_) => Err(CaseFault::BadInput),
    }
}

fn put_found(answer: &mut Answer, entry: &Entry, found: Option<usize>) -> Result<(), CaseFault> {
    match found {
        Some(number) => answer.put_count(entry.key.as_slice(), number),
        None => answer.put(entry.key.as_slice(), b"-"),
    }
}

// What an entry asks of a pager.
#[derive(Clone, Copy)]
enum Step {
    Scroll,
    Quotes,
    Top,
    Lines,
    Find,
    Attachments,
}

fn step_named(name: &[u8]) -> Option<Step> {
    match name {
        b"scroll" => Some(Step::Scroll),
        b"quotes" => Some(Step::Quotes),
        b"top" => Some(Step::Top),
        b"lines" => Some(Step::Lines),
        b"find" => Some(Step::Find),
        b"attachments" => Some(Step::Attachments),
        _ => None,
    }
}

// Does a step, or answers a question.
fn play(
    alloc: Global,
    answer: &mut Answer,
    pager: &mut Pager,
    step: Step,
    entry: &Entry,
) -> Result<(), CaseFault> {
    match step {
        Step::Scroll => scroll(pager, entry),
        Step::Quotes => {
            pager.toggle_quoted();
            Ok(())
        }
        Step::Top => answer.put_count(entry.key.as_slice(), pager.top()),
        Step::Lines => put_page(alloc, answer, pager, entry),
        Step::Attachments => put_attachments(alloc, answer, pager, entry),
        Step::Find => Ok(()),
    }
}

fn scroll(pager: &mut Pager, entry: &Entry) -> Result<(), CaseFault> {
    let to = read_number(entry.value.as_slice())?;
    pager.scroll(usize::try_from(to).unwrap_or(0));
    Ok(())
}

fn put_page(
    alloc: Global,
    answer: &mut Answer,
    pager: &Pager,
    entry: &Entry,
) -> Result<(), CaseFault> {
    let rows = u16::try_from(read_number(entry.about())?).unwrap_or(0);
    let lines = pager.lines(alloc, rows)?;
    put_lines(alloc, answer, entry.key.as_slice(), lines.as_slice())
}

fn put_attachments(
    alloc: Global,
    answer: &mut Answer,
    pager: &Pager,
    entry: &Entry,
) -> Result<(), CaseFault> {
    let rows = pager.attachments(alloc)?;
    put_lines(alloc, answer, entry.key.as_slice(), rows.as_slice())
}
