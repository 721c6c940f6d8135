//! Cases of the sequences of a folder (mh-sequence(5)).

use case_files::{Answer, Case, CaseFault, Entry, Subject};
use folder_core::read_number;
use mail_base::split_once;
use mh_sequences::Sequences;
use std::alloc::Global;

/// `file` holds the sequences. The other inputs come in their order: `put` and `take` are a name
/// and a number that is put into the sequence or taken out, `drop` is a number that goes from all,
/// and `ask` is a name and a number of which `held` tells whether it is there. `written` is the
/// file made at the end.
pub struct MhSequences;

impl Subject for MhSequences {
    fn inputs(&self) -> &[&[u8]] {
        &[b"file", b"put", b"take", b"drop", b"ask"]
    }

    fn answer(&self, alloc: Global, case: &Case, answer: &mut Answer) -> Result<(), CaseFault> {
        let mut sequences = Sequences::read(alloc, case.need(b"file")?)?;
        run_all(alloc, answer, &mut sequences, case)
    }
}

fn run_all(
    alloc: Global,
    answer: &mut Answer,
    sequences: &mut Sequences,
    case: &Case,
) -> Result<(), CaseFault> {
    for entry in case.entries.as_slice() {
        run(answer, sequences, entry)?;
    }
    answer.put(b"written", sequences.write(alloc)?.as_slice())
}

fn run(answer: &mut Answer, sequences: &mut Sequences, entry: &Entry) -> Result<(), CaseFault> {
    let value = entry.value.as_slice();
    match entry.key.as_slice() {
        b"put" => {
            let (name, number) = member(value)?;
            sequences.put(name, number, true)?;
        }
        b"take" => {
            let (name, number) = member(value)?;
            sequences.put(name, number, false)?;
        }
        b"drop" => sequences.drop_number(read_number(value).ok_or(CaseFault::BadInput)?)?,
        b"ask" => {
            let (name, number) = member(value)?;
            answer.put_flag(b"held", sequences.holds(name, number))?;
        }
        _ => {}
    }
    Ok(())
}

// The name and the number of an entry.
fn member(entry: &[u8]) -> Result<(&[u8], u32), CaseFault> {
    let Some((name, digits)) = split_once(b' ', entry) else {
        return Err(CaseFault::BadInput);
    };
    match read_number(digits) {
        Some(number) => Ok((name, number)),
        None => Err(CaseFault::BadInput),
    }
}
