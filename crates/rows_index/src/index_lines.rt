//! Cases of rows of the index.

use crate::people_calls::{add, table_of};
use case_files::{Answer, Case, CaseFault, Subject};
use expando::read_format;
use headers::{Header, read_header};
use index_rows::{Entry, Shut, Ties, index_row};
use mail_base::{Flags, Line, Names, append_utf8, read_zone};
use people::{Expr, People, RegexBuild, Verdicts};
use std::alloc::Global;

/// `message` is the text of a message, and each `line` its row by a `format`. `marks` are S seen,
/// A aged, R replied, F flagged, D deleted and T tagged; `shut` is `n` and `o` for what stands in
/// the shut thread whose others it hides, or `-`. `mine` and `subscribed` are expressions of
/// tables; the other inputs are what else a row shows.
pub struct IndexLines;

impl Subject for IndexLines {
    fn inputs(&self) -> &[&[u8]] {
        &[
            b"message",
            b"format",
            b"marks",
            b"shut",
            b"number",
            b"count",
            b"score",
            b"tree",
            b"received",
            b"to_chars",
            b"offset",
            b"cols",
            b"mine",
            b"subscribed",
        ]
    }

    fn answer(&self, alloc: Global, case: &Case, answer: &mut Answer) -> Result<(), CaseFault> {
        let header = read_header(alloc, case.need(b"message")?)?;
        let ties = ties_of(alloc, case, &header)?;
        put_tied(alloc, case, &header, &ties, answer)
    }
}

fn put_tied(
    alloc: Global,
    case: &Case,
    header: &Header,
    ties: &Ties,
    answer: &mut Answer,
) -> Result<(), CaseFault> {
    let mut tree = Line::new(alloc);
    append_utf8(&mut tree, case.find(b"tree").unwrap_or(b""))?;
    put_rows(alloc, case, &entry_of(case, header, ties, &tree)?, answer)
}

fn put_rows(
    alloc: Global,
    case: &Case,
    entry: &Entry<'_>,
    answer: &mut Answer,
) -> Result<(), CaseFault> {
    for given in case.entries.as_slice() {
        if given.key.as_slice() == b"format".as_slice() {
            put_row(alloc, case, given.value.as_slice(), entry, answer)?;
        }
    }
    Ok(())
}

fn ties_of(alloc: Global, case: &Case, header: &Header) -> Result<Ties, CaseFault> {
    let mut people = People::new(alloc);
    add_people(alloc, case, &mut people)?;
    Ok(Ties::of(alloc, &mut people, header)?)
}

fn add_people(alloc: Global, case: &Case, people: &mut People) -> Result<(), CaseFault> {
    let builder = Box::new(alloc, RegexBuild::new(Names::new(alloc)))?;
    let mut verdicts = Verdicts::new(alloc, builder);
    for given in case.entries.as_slice() {
        if let Some(table) = table_of(given) {
            let read = Expr::read(alloc, given.value.as_slice(), &mut verdicts);
            add(people, table, read)?;
        }
    }
    Ok(())
}

fn has(case: &Case, key: &[u8], letter: u8) -> bool {
    case.find(key).unwrap_or(b"").contains(&letter)
}

fn shut_of(case: &Case) -> Option<Shut> {
    case.find(b"shut")?;
    Some(Shut {
        has_new: has(case, b"shut", b'n'),
        has_old: has(case, b"shut", b'o'),
    })
}

fn flags_of(case: &Case) -> Flags {
    Flags {
        seen: has(case, b"marks", b'S'),
        aged: has(case, b"marks", b'A'),
        replied: has(case, b"marks", b'R'),
        flagged: has(case, b"marks", b'F'),
        passed: false,
        draft: false,
        trashed: false,
    }
}

fn entry_of<'a>(
    case: &'a Case,
    header: &'a Header,
    ties: &'a Ties,
    tree: &'a Line,
) -> Result<Entry<'a>, CaseFault> {
    let raw = case.need(b"message")?;
    let received = i64::try_from(case.number(b"received")?.unwrap_or(0));
    Ok(Entry {
        number: case.number(b"number")?.unwrap_or(1),
        count: case.number(b"count")?.unwrap_or(1),
        flags: flags_of(case),
        deleted: has(case, b"marks", b'D'),
        tagged: has(case, b"marks", b'T'),
        shut: shut_of(case),
        ties,
        header,
        raw,
        size: raw.len() as u64,
        score: case.number(b"score")?.unwrap_or(0),
        tree,
        received: received.unwrap_or(0),
        to_chars: case.find(b"to_chars").unwrap_or(b" +TCFL"),
        offset: read_zone(case.find(b"offset").unwrap_or(b"+0000")).unwrap_or(0),
    })
}

fn put_row(
    alloc: Global,
    case: &Case,
    format: &[u8],
    entry: &Entry<'_>,
    answer: &mut Answer,
) -> Result<(), CaseFault> {
    let cols = u16::try_from(case.number(b"cols")?.unwrap_or(80)).unwrap_or(u16::MAX);
    match read_format(alloc, format, b"CmZ{[anFLtisSclNy") {
        Ok(format) => answer.put(b"line", index_row(alloc, &format, entry, cols)?.as_slice()),
        Err(_) => Err(CaseFault::BadInput),
    }
}
