//! Flags by their letters.

use case_files::CaseFault;
use mail_base::Flags;

/// The flags of these letters: S seen, O old, R replied, F flagged, P passed, D draft, T trashed.
pub fn flags_named(letters: &[u8]) -> Result<Flags, CaseFault> {
    if letters.iter().all(|letter| b"SORFPDT".contains(letter)) {
        Ok(Flags {
            seen: letters.contains(&b'S'),
            aged: letters.contains(&b'O'),
            replied: letters.contains(&b'R'),
            flagged: letters.contains(&b'F'),
            passed: letters.contains(&b'P'),
            draft: letters.contains(&b'D'),
            trashed: letters.contains(&b'T'),
        })
    } else {
        Err(CaseFault::BadInput)
    }
}

fn letter_of(flag: bool, letter: &str) -> &str {
    if flag { letter } else { "" }
}

/// The letters of flags, one behind the other.
pub fn letters_of(flags: Flags) -> [&'static str; 7] {
    [
        letter_of(flags.seen, "S"),
        letter_of(flags.aged, "O"),
        letter_of(flags.replied, "R"),
        letter_of(flags.flagged, "F"),
        letter_of(flags.passed, "P"),
        letter_of(flags.draft, "D"),
        letter_of(flags.trashed, "T"),
    ]
}
