//! Cases of flags that a change is applied to, and of what each kind of folder stores.

use case_files::{Answer, Case, CaseFault, Subject};
use mail_base::{Delta, Flags, Kind};
use std::alloc::Global;

/// `flags`, and the `added` and `cleared` ones, are letters of `named`.
pub struct FlagChanges;

impl Subject for FlagChanges {
    fn inputs(&self) -> &[&[u8]] {
        &[b"flags", b"added", b"cleared"]
    }

    fn answer(&self, alloc: Global, case: &Case, answer: &mut Answer) -> Result<(), CaseFault> {
        let flags = flags_named(case.need(b"flags")?)?;
        let added = flags_named(case.find(b"added").unwrap_or(b""))?;
        let cleared = flags_named(case.find(b"cleared").unwrap_or(b""))?;
        let delta = Delta::new(added, cleared).ok_or(CaseFault::BadInput)?;
        put_flags(answer, b"applied", flags.apply(delta))?;
        for kind in [Kind::Mbox, Kind::Maildir, Kind::Mh, Kind::Mmdf] {
            put_flags(answer, kind_name(kind), flags.stored(kind))?;
        }
        Ok(())
    }
}

/// The name of a kind as `-m` takes it.
pub fn kind_name(kind: Kind) -> &'static [u8] {
    match kind {
        Kind::Mbox => b"mbox",
        Kind::Maildir => b"Maildir",
        Kind::Mh => b"MH",
        Kind::Mmdf => b"MMDF",
    }
}

/// The flags of these letters: S seen, O old, R replied, F flagged, P passed, D draft, T trashed.
pub fn flags_named(letters: &[u8]) -> Result<Flags, CaseFault> {
    if letters.iter().all(|letter| b"SORFPDT".contains(letter)) {
        Ok(Flags {
            seen: letters.contains(&b'S'),
            aged: letters.contains(&b'O'),
            replied: letters.contains(&b'R'),
            flagged: letters.contains(&b'F'),
            passed: letters.contains(&b'P'),
            draft: letters.contains(&b'D'),
            trashed: letters.contains(&b'T'),
        })
    } else {
        Err(CaseFault::BadInput)
    }
}

/// Puts the letters of flags under a key.
pub fn put_flags(answer: &mut Answer, key: &[u8], flags: Flags) -> Result<(), CaseFault> {
    let letters = [
        if flags.seen { "S" } else { "" },
        if flags.aged { "O" } else { "" },
        if flags.replied { "R" } else { "" },
        if flags.flagged { "F" } else { "" },
        if flags.passed { "P" } else { "" },
        if flags.draft { "D" } else { "" },
        if flags.trashed { "T" } else { "" },
    ];
    answer.put_joined(key, &letters)
}
