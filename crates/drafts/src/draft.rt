//! Messages that are being written.

ghost use Rattle.std.specs.Prelude.{◌≡◌, true, option_map};
ghost use Rattle.mail_base.specs.Series.{plain_texts};
ghost use Rattle.drafts.specs.PlainDraft.{can_be};

use mail_base::{Bytes, Line, Lines, Names, NoMemory};
use thiserror::Error;

/// A message that is being written. Its texts hold no LF and no CR, and its ids are not empty and
/// hold no byte below 33.
#[derive(Drop)]
pub struct Draft {
    pub to: Line,
    pub subject: Line,
    /// The id of the message that it answers (RFC 5322, section 3.6.4).
    pub in_reply_to: Option<Bytes>,
    /// The ids of the messages before it.
    pub references: Names,
    /// The lines of its text.
    pub body: Lines,
    pub ghost may_be: { can_be (record {
      to = to.items;
      subject = subject.items;
      in_reply_to = option_map (λ id. id.items) in_reply_to;
      references = plain_texts references;
      body = plain_texts body;
    }) ≡ true },
}

/// Why bytes are not read as a draft.
#[derive(Clone, Copy, Debug, PartialEq, Eq, Error)]
pub enum DraftError {
    /// They are those of no draft; no draft's bytes go on at the place.
    #[error("not a draft at {0}")]
    NotADraft(usize),
    /// Memory ran out.
    #[error("no memory")]
    NoMemory,
}

impl From<NoMemory> for DraftError {
    ghost use Rattle.drafts.specs.declared.draft.DraftError.TheVariants as DraftError;

    ghost from_gives = { λ _ e. e ≡ DraftError.NoMemory };

    fn from(_: NoMemory) -> Self {
        DraftError::NoMemory
    }
}
