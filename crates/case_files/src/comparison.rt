//! The comparison of an answer with what a case expects.

use crate::{Answer, Case, CaseFault, Entry, Report, Subject};
use mail_base::NoMemory;

/// Tells each key under which the answer is not what the case expects, and whether there is one.
/// All values of a key are compared in their order; keys of the answer that the case does not name
/// are not.
pub fn compare<S: Subject>(
    subject: &S,
    case: &Case,
    answer: &Answer,
    report: &mut Report,
) -> Result<bool, NoMemory> {
    let mut differs = false;
    let wanted = case.entries.as_slice();
    let given = answer.entries.as_slice();
    for (place, entry) in wanted.iter().enumerate() {
        let key = entry.key.as_slice();
        if is_expected(subject, entry)
            && is_first(wanted, place, key)
            && !is_same(wanted, given, key)
        {
            report.tell_difference(key, wanted, given)?;
            differs = true;
        }
    }
    Ok(differs)
}

/// Refuses a case that expects nothing.
pub fn expects<S: Subject>(subject: &S, case: &Case) -> Result<(), CaseFault> {
    if case
        .entries
        .as_slice()
        .iter()
        .any(|entry| is_expected(subject, entry))
    {
        Ok(())
    } else {
        Err(CaseFault::NothingExpected)
    }
}

fn is_expected<S: Subject>(subject: &S, entry: &Entry) -> bool {
    let role = entry.role();
    role != b"case".as_slice()
        && role != b"source".as_slice()
        && !subject.inputs().iter().any(|input| *input == role)
}

/// Whether the key stands at no earlier place.
fn is_first(entries: &[Entry], place: usize, key: &[u8]) -> bool {
    !entries
        .iter()
        .take(place)
        .any(|entry| entry.key.as_slice() == key)
}

/// Whether both have the same values under a key.
fn is_same(wanted: &[Entry], given: &[Entry], key: &[u8]) -> bool {
    let mut left = given.iter().filter(|entry| entry.key.as_slice() == key);
    for entry in wanted.iter().filter(|entry| entry.key.as_slice() == key) {
        match left.next() {
            Some(other) if other.value.as_slice() == entry.value.as_slice() => {}
            _ => return false,
        }
    }
    left.next().is_none()
}
