//! Drafts that are begun anew.

ghost use Rattle.std.specs.Prelude.{◌≡◌, IfOk};
ghost use Rattle.drafts.specs.Draft.{plain_draft};
ghost use Rattle.drafts.specs.Reply as spec;

use crate::clean::cleaned;
use crate::draft::Draft;
use mail_base::{Lines, Names, NoMemory};
use std::alloc::Global;

/// A draft with these two fields alone. LF and CR in them are blanks, and each malformed byte is a
/// `?`.
pub fn new_draft(alloc: Global, to: &[u8], subject: &[u8]) -> Result<Draft, NoMemory>
    ensures { IfOk result (λ draft. plain_draft draft ≡ spec.new_draft to.now subject.now) }
{
    Ok(Draft {
        to: cleaned(alloc, to)?,
        subject: cleaned(alloc, subject)?,
        in_reply_to: None,
        references: Names::new(alloc),
        body: Lines::new(alloc),
    })
}
