//! The reader of case files.

ghost use Rattle.std.specs.Prelude.{◌<◌, length, IfSome};

use crate::{Case, CaseFault, Entry, FileFault, unescaped};
use mail_base::Bytes;
use std::alloc::Global;

/// The cases of a file. Lines that begin with `#` are left out, and empty lines part the cases. A
/// line `KEY: VALUE` begins an entry; a line `| TEXT` adds its text and a line feed to the value
/// above it.
pub fn read_cases(alloc: Global, text: &[u8]) -> Result<Vec<Case>, FileFault> {
    let mut cases = Vec::new(alloc);
    let mut is_open = false;
    for (place, line) in text.split(|byte| *byte == b'\n').enumerate() {
        let number = place.saturating_add(1);
        match read_line(alloc, line, number, is_open, &mut cases) {
            Ok(open) => is_open = open,
            Err(fault) => return Err(FileFault {
                line: number,
                fault,
            }),
        }
    }
    match unnamed(cases.as_slice()) {
        Some(line) => Err(FileFault {
            line,
            fault: CaseFault::NoName,
        }),
        None => Ok(cases),
    }
}

/// Reads a line, and says whether a case is open behind it.
fn read_line(
    alloc: Global,
    line: &[u8],
    number: usize,
    is_open: bool,
    cases: &mut Vec<Case>,
) -> Result<bool, CaseFault> {
    match line {
        [] => Ok(false),
        [b'#', ..] => Ok(is_open),
        [b'|', rest @ ..] => {
            let entry = last_entry(cases.as_mut_slice()).ok_or(CaseFault::NoKey)?;
            add_line(alloc, rest, &mut entry.value)?;
            Ok(is_open)
        }
        _ => {
            let entry = read_entry(alloc, line)?;
            put_entry(alloc, number, is_open, entry, cases)?;
            Ok(true)
        }
    }
}

fn last_entry(cases: &mut [Case]) -> Option<&mut Entry> {
    let case = cases.last_mut()?;
    case.entries.as_mut_slice().last_mut()
}

fn add_line(alloc: Global, text: &[u8], value: &mut Bytes) -> Result<(), CaseFault> {
    let text = match text {
        [b' ', rest @ ..] => rest,
        _ => text,
    };
    value.append(unescaped(alloc, text)?.as_slice())?;
    value.push(b'\n')?;
    Ok(())
}

fn read_entry(alloc: Global, line: &[u8]) -> Result<Entry, CaseFault> {
    let Some(colon) = key_end(line) else {
        return Err(CaseFault::NoColon);
    };
    let value = match &line[colon + 1..] {
        [b' ', rest @ ..] => rest,
        rest => rest,
    };
    Ok(Entry {
        key: unescaped(alloc, &line[..colon])?,
        value: unescaped(alloc, value)?,
    })
}

/// The place of the first colon with a blank or nothing behind it, so that names of files may have
/// colons.
fn key_end(line: &[u8]) -> Option<usize>
    ensures { IfSome result (λ place. place < length line.now) }
{
    for (place, byte) in line.iter().enumerate() {
        let next = line.get(place.saturating_add(1));
        if *byte == b':' && (next.is_none() || next == Some(&b' ')) {
            return Some(place);
        }
    }
    None
}

fn put_entry(
    alloc: Global,
    line: usize,
    is_open: bool,
    entry: Entry,
    cases: &mut Vec<Case>,
) -> Result<(), CaseFault> {
    if is_open {
        if let Some(case) = cases.as_mut_slice().last_mut() {
            case.entries.push(entry)?;
            return Ok(());
        }
    }
    let mut entries = Vec::new(alloc);
    entries.push(entry)?;
    cases.push(Case { line, entries })?;
    Ok(())
}

/// The line of the first case without a name and a source.
fn unnamed(cases: &[Case]) -> Option<usize> {
    for case in cases {
        let [name, source, ..] = case.entries.as_slice() else {
            return Some(case.line);
        };
        if name.key.as_slice() != b"case".as_slice()
            || source.key.as_slice() != b"source".as_slice()
        {
            return Some(case.line);
        }
    }
    None
}
