//! What the message line says of the index and of the folder.

/// What the message line says of the index and of the folder.
#[derive(Clone, Copy, Debug, PartialEq, Eq)]
pub enum Notice {
    NoMessages,
    NoUndeleted,
    OnLast,
    OnFirst,
    NoUnread,
    NoThread,
    NoParent,
    ParentHidden,
    NoTagged,
    NotFound,
    NotThreaded,
    ReadOnly,
    NotBound,
    MacroLoop,
    NewMail,
    Modified,
    CheckStarved,
    Unchanged,
    QuitForbidden,
}

impl Notice {
    ghost use Rattle.std.specs.Prelude.{◌≡◌};
    ghost use Rattle.index_functions.specs.Notices.{notice_text};

    /// Its text.
    pub fn text(self) -> &'static str
        ensures { result.now ≡ notice_text self }
    {
        match self {
            Notice::NoMessages => "There are no messages.",
            Notice::NoUndeleted => "No undeleted messages.",
            Notice::OnLast => "You are on the last message.",
            Notice::OnFirst => "You are on the first message.",
            Notice::NoUnread => "No unread messages.",
            Notice::NoThread => "No more threads.",
            Notice::NoParent => "Parent message is not available.",
            Notice::ParentHidden => "Parent message is not visible.",
            Notice::NoTagged => "No tagged messages.",
            Notice::NotFound => "Not found.",
            Notice::NotThreaded => "Threading is not enabled.",
            Notice::ReadOnly => "Mailbox is read-only.",
            Notice::NotBound => "Key is not bound.",
            Notice::MacroLoop => "Macro loop.",
            Notice::NewMail => "New mail in this mailbox.",
            Notice::Modified => "Mailbox was externally modified. Flags may be wrong.",
            Notice::CheckStarved => "Check failed: no memory",
            Notice::Unchanged => "Mailbox is unchanged.",
            Notice::QuitForbidden => "Quit is not allowed.",
        }
    }
}
