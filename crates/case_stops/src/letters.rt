//! The texts that a folder must have when it is opened again.

use case_files::Case;
use folder_core::Letter;

fn times_in(letters: &[Letter], text: &[u8]) -> usize {
    letters
        .iter()
        .filter(|letter| letter.core.as_slice() == text)
        .count()
}

fn is_named(case: &Case, text: &[u8]) -> bool {
    case.entries.as_slice().iter().any(|entry| {
        (entry.key.as_slice() == b"must".as_slice() || entry.key.as_slice() == b"may".as_slice())
            && entry.value.as_slice() == text
    })
}

/// Whether each text that must be there is there once, and no other but those that may be.
pub fn has_all(case: &Case, letters: &[Letter]) -> bool {
    let all_there = case.entries.as_slice().iter().all(|entry| {
        entry.key.as_slice() != b"must".as_slice() || times_in(letters, entry.value.as_slice()) == 1
    });
    all_there
        && letters
            .iter()
            .all(|letter| is_named(case, letter.core.as_slice()))
}
