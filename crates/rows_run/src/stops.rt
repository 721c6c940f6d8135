//! Cases of whole runs while calls of the disk fail, and of the folder that is opened again from
//! what that leaves.

use crate::runs::{play_run, streams_of};
use case_disks::words_of;
use case_files::{Answer, Case, CaseFault, Subject};
use case_stops::{Played, is_always_kept};
use disk_model::Device;
use folder_core::Archive;
use mail_base::{Bytes, MemorySource, Numbers};
use std::alloc::Global;

/// The runs of the other cases, stopped, refused, and made beside others; the folder is opened
/// again by a run with the same words and no key. The rest is as the calls in case_stops say.
pub struct StoppedRuns;

impl Subject for StoppedRuns {
    fn inputs(&self) -> &[&[u8]] {
        &[
            b"file", b"folder", b"failing", b"others", b"each", b"words", b"word", b"keys",
            b"moments", b"behind", b"from", b"must", b"may", b"gone",
        ]
    }

    fn answer(&self, alloc: Global, case: &Case, answer: &mut Answer) -> Result<(), CaseFault> {
        answer.put_flag(b"kept", is_always_kept(alloc, self, case)?)
    }
}

impl Played for StoppedRuns {
    fn play(&self, alloc: Global, case: &Case, dev: &mut Device) -> Result<(), CaseFault> {
        let words = words_of(alloc, case)?;
        let mut streams = streams_of(alloc, case)?;
        play_run(alloc, &words, dev, &mut streams)?;
        Ok(())
    }

    fn open_again(
        &self,
        alloc: Global,
        case: &Case,
        dev: &mut Device,
    ) -> Result<Option<Archive>, CaseFault> {
        let words = words_of(alloc, case)?;
        let mut streams = streams_of(alloc, case)?;
        streams.keys = MemorySource::new(Bytes::new(alloc), Numbers::new(alloc));
        let ended = play_run(alloc, &words, dev, &mut streams)?;
        Ok(Some(ended.archive))
    }
}
