//! How a file is cut into its messages (mbox(5)).

ghost use Rattle.std.specs.Prelude.{◌≡◌, ◌<◌, ◌&&◌, true, false, length, IfOk, IsOk, IsErrOf};
ghost use Rattle.bstr.specs.Text.{lines_of};
ghost use Rattle.mail_base.specs.Lines as lines;
ghost use Rattle.folder_core.specs.Mbox as spec;
ghost use Rattle.mbox_text.specs.Regions.{last_empty};

use crate::postmark::is_postmark;
use bstr::ByteSlice;
use folder_core::{Region, Regions};
use mail_base::{NoMemory, first_line, is_empty_line};
use memchr::memmem;
use std::alloc::Global;
use thiserror::Error;

/// Why a file is not cut into its messages.
#[derive(Clone, Copy, Debug, PartialEq, Eq, Error)]
pub enum CutError {
    /// The file is not empty, and its first line is no postmark.
    #[error("not a mailbox")]
    NotMailbox,
    /// Memory ran out.
    #[error("no memory")]
    NoMemory,
}

impl From<NoMemory> for CutError {
    ghost use Rattle.mbox_text.specs.declared.regions.CutError.TheVariants as CutError;

    ghost from_gives = { λ _ e. e ≡ CutError.NoMemory };

    fn from(_: NoMemory) -> Self {
        CutError::NoMemory
    }
}

/// Cuts a file into its messages, each from a postmark up to the next (mbox(5)).
pub fn cut_regions(alloc: Global, bytes: &[u8]) -> Result<Regions, CutError>
    ensures cut { IfOk result (λ r. r.items ≡ spec.regions bytes.now) }
    ensures cover { IfOk result (λ r. spec.Cover 0 (length bytes.now) r.items) }
    ensures mailbox { IsOk result → spec.begins_mailbox bytes.now ≡ true }
    ensures not_mailbox { IsErrOf result CutError.NotMailbox → spec.begins_mailbox bytes.now
        ≡ false }
{
    if bytes.is_empty() {
        return Ok(Regions::new(alloc));
    }
    if !is_postmark(first_line(bytes)) {
        return Err(CutError::NotMailbox);
    }
    Ok(regions_of(alloc, bytes)?)
}

// The regions of a file that is not empty.
fn regions_of(alloc: Global, bytes: &[u8]) -> Result<Regions, NoMemory>
    requires { 0 < length bytes.now }
    ensures { IfOk result (λ r. r.items ≡ spec.regions bytes.now) }
{
    let mut regions = Regions::new(alloc);
    let finder = memmem::Finder::new(b"\nFrom ".as_slice());
    let (mut start, mut at) = (0, 0);
    while let Some(feed) = finder.find(&bytes[at..]) {
        let next = at + feed + 1;
        if is_border(&bytes[at..next], &bytes[next..]) {
            regions.push(Region { start, end: next })?;
            start = next;
        }
        at = next;
    }
    regions.push(Region {
        start,
        end: bytes.len(),
    })?;
    Ok(regions)
}

// Whether a message ends with the lines in front, where others stand behind them.
fn is_border(front: &[u8], behind: &[u8]) -> bool
    ensures { result ≡ (last_empty false (lines_of front.now)
        && spec.is_postmark (lines.first_line (lines_of behind.now))) }
{
    ends_empty(front) && is_postmark(first_line(behind))
}

// Whether the last line is empty.
fn ends_empty(text: &[u8]) -> bool
    ensures { result ≡ last_empty false (lines_of text.now) }
{
    match text.lines_with_terminator().next_back() {
        Some(line) => is_empty_line(line),
        None => false,
    }
}
