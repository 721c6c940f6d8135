//! Cases of the status line of the index.

use case_files::{Answer, Case, CaseFault, Subject};
use expando::read_format;
use index_rows::{Summary, status_line};
use std::alloc::Global;

/// Each `line` is the status line by a `format`. `state` is `%` where the folder is read only and
/// `*` where there are changes. The other keys are the counts and texts that it shows.
pub struct StatusLines;

impl Subject for StatusLines {
    fn inputs(&self) -> &[&[u8]] {
        &[
            b"format", b"path", b"state", b"count", b"new", b"old", b"unread", b"deleted",
            b"flagged", b"tagged", b"limit", b"visible", b"before", b"last", b"sort", b"aux",
            b"cols",
        ]
    }

    fn answer(&self, alloc: Global, case: &Case, answer: &mut Answer) -> Result<(), CaseFault> {
        let summary = summary_of(case)?;
        for given in case.entries.as_slice() {
            if given.key.as_slice() == b"format".as_slice() {
                put_line(alloc, case, given.value.as_slice(), &summary, answer)?;
            }
        }
        Ok(())
    }
}

fn count(case: &Case, key: &[u8]) -> Result<u64, CaseFault> {
    Ok(case.number(key)?.unwrap_or(0))
}

fn text<'a>(case: &'a Case, key: &[u8]) -> &'a [u8] {
    case.find(key).unwrap_or(b"")
}

fn summary_of(case: &Case) -> Result<Summary<'_>, CaseFault> {
    Ok(Summary {
        path: text(case, b"path"),
        read_only: text(case, b"state").contains(&b'%'),
        changed: text(case, b"state").contains(&b'*'),
        count: count(case, b"count")?,
        new: count(case, b"new")?,
        old: count(case, b"old")?,
        unread: count(case, b"unread")?,
        deleted: count(case, b"deleted")?,
        flagged: count(case, b"flagged")?,
        tagged: count(case, b"tagged")?,
        limit: case.find(b"limit"),
        visible: count(case, b"visible")?,
        before: count(case, b"before")?,
        last: count(case, b"last")?,
        sort: text(case, b"sort"),
        sort_aux: text(case, b"aux"),
    })
}

fn put_line(
    alloc: Global,
    case: &Case,
    format: &[u8],
    summary: &Summary<'_>,
    answer: &mut Answer,
) -> Result<(), CaseFault> {
    let cols = u16::try_from(case.number(b"cols")?.unwrap_or(80)).unwrap_or(u16::MAX);
    match read_format(alloc, format, b"frmMnoudFtVsSP") {
        Ok(format) => answer.put(
            b"line",
            status_line(alloc, &format, summary, cols)?.as_slice(),
        ),
        Err(_) => Err(CaseFault::BadInput),
    }
}
