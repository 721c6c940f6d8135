//! Calls that are made again and again, each time with another call of the disk in trouble.

use crate::images::is_kept_in_all;
use crate::trouble::{Trouble, disk_in};
use case_files::{Case, CaseFault};
use disk_model::Device;
use folder_core::Archive;
use std::alloc::Global;

/// What a case does on a disk, and how what that leaves is opened again.
pub trait Played {
    /// Makes the calls of a case. What they answer does not count.
    fn play(&self, alloc: Global, case: &Case, dev: &mut Device) -> Result<(), CaseFault>;

    /// The letters of the folder of a case, opened again; `None` where that is refused.
    fn open_again(
        &self,
        alloc: Global,
        case: &Case,
        dev: &mut Device,
    ) -> Result<Option<Archive>, CaseFault>;
}

/// How many entries the calls made, which are no fewer than the calls, and whether each image is as
/// it must be.
#[derive(Clone, Copy)]
struct Outcome {
    entries: u64,
    kept: bool,
}

/// Makes the calls of a case on a disk in trouble.
fn play_in<P: Played>(
    alloc: Global,
    played: &P,
    case: &Case,
    trouble: Trouble,
) -> Result<Outcome, CaseFault> {
    let mut dev = Device::new(Box::new(alloc, disk_in(alloc, case, trouble)?)?);
    played.play(alloc, case, &mut dev)?;
    Ok(Outcome {
        entries: dev.mark(),
        kept: is_kept_in_all(alloc, played, case, &dev)?,
    })
}

/// Whether each image, opened again, has each text under `must` once and no other but those under
/// `may`, with nothing at the paths under `gone`: the calls of the case are stopped at each call of
/// the disk, or only at those from call `from` on, and made again with each of them refused alone.
/// Where others do something under `each`, the calls are made again with that before each call of
/// the disk in turn, and nothing fails then.
pub fn is_always_kept<P: Played>(
    alloc: Global,
    played: &P,
    case: &Case,
) -> Result<bool, CaseFault> {
    let whole = play_in(alloc, played, case, Trouble::No)?;
    if has_turns(case) {
        return is_kept_in_turn(alloc, played, case, whole.entries);
    }
    let first = case.number(b"from")?.unwrap_or(0);
    let mut kept = whole.kept;
    for call in first..=whole.entries {
        kept = kept && play_in(alloc, played, case, Trouble::From(call))?.kept;
        kept = kept && play_in(alloc, played, case, Trouble::At(call))?.kept;
    }
    Ok(kept)
}

fn has_turns(case: &Case) -> bool {
    case.entries
        .as_slice()
        .iter()
        .any(|entry| entry.role() == b"each".as_slice())
}

/// Whether each image is as it must be, whenever others act.
fn is_kept_in_turn<P: Played>(
    alloc: Global,
    played: &P,
    case: &Case,
    entries: u64,
) -> Result<bool, CaseFault> {
    let mut kept = true;
    for call in 0..entries {
        kept = kept && play_in(alloc, played, case, Trouble::Others(call))?.kept;
    }
    Ok(kept)
}
