//! What the settings, the screen and the folder say of functions.

ghost use Rattle.std.specs.Prelude.{◌≡◌};
ghost use Rattle.index_functions.specs.Rules as spec;

use mail_base::Kind;
use rc_lang::Quad;

/// What the settings, the screen and the folder say of functions.
#[derive(Clone, Copy, Debug, PartialEq, Eq)]
pub struct Rule {
    /// The cursor goes on behind a message that was changed (Mutt's manual, "resolve").
    pub resolves: bool,
    /// How many messages a page has; not 0.
    pub page: usize,
    /// Messages that are marked deleted go where a folder is written ("delete").
    pub delete: Quad,
    /// The run may be ended ("quit").
    pub quit: Quad,
    /// Unread messages become old where the run ends ("mark_old").
    pub mark_old: bool,
    /// The kind of the folder that is open.
    pub kind: Kind,
}

/// Whether folders of the kind are written; those of the MMDF form are not yet.
pub fn is_written(kind: Kind) -> bool
    ensures { result ≡ spec.is_written kind }
{
    matches!(kind, Kind::Mbox | Kind::Maildir | Kind::Mh)
}
