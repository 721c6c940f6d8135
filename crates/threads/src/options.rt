//! How messages are put into threads, and how one follows another.

use mail_base::Id;

/// How messages are put into threads.
#[derive(Clone, Copy, Debug, PartialEq, Eq)]
pub struct ThreadOptions {
    /// No message follows another by its subject alone.
    pub strict: bool,
    /// Only a subject with a reply prefix is followed.
    pub reply_only: bool,
    /// A message follows the first with its own id.
    pub duplicates: bool,
}

/// By what a message follows its parent.
#[derive(Clone, Copy, Debug, PartialEq, Eq)]
pub enum Link {
    /// By In-Reply-To or References (RFC 5322, section 3.6.4).
    Reference,
    /// By the same Message-ID.
    Duplicate,
    /// By the same subject.
    Subject,
}

/// The message that another follows.
#[derive(Clone, Copy, Debug, PartialEq, Eq)]
pub struct Parent {
    pub id: Id,
    pub link: Link,
}
