//! What the last line of the screen says.

ghost use Rattle.std.specs.Prelude.{◌≡◌, ◌++◌, OnOk};
ghost use Rattle.index_functions.specs.Syncs.{synced_text};

use crate::notice::Notice;
use mail_base::{Line, NoMemory};
use std::alloc::Global;

/// What the last line of the screen says where no prompt stands.
#[derive(Drop)]
pub enum Message {
    Blank,
    Says(Notice),
    Text(Line),
    /// A sync kept and took away so many messages.
    Synced { kept: usize, gone: usize },
}

impl Message {
    ghost use Rattle.std.specs.Prelude.{◌≡◌, ◌++◌, OnOk};
    ghost use Rattle.index_functions.specs.Messages.{message_text};

    /// Adds the text of the last line where no prompt stands.
    pub fn append_text(&self, alloc: Global, line: &mut Line) -> Result<(), NoMemory>
        ensures { OnOk result (line.new.items ≡ line.old.items ++ message_text self.now) }
    {
        match self {
            Message::Blank => Ok(()),
            Message::Says(notice) => line.append(notice.text()),
            Message::Text(text) => line.append(text.as_str()),
            Message::Synced { kept, gone } => append_synced(alloc, line, *kept, *gone),
        }
    }
}

// Adds how many messages a sync kept and took away.
fn append_synced(alloc: Global, line: &mut Line, kept: usize, gone: usize) -> Result<(), NoMemory>
    ensures { OnOk result (line.new.items ≡ line.old.items ++ synced_text kept gone) }
{
    line.append(kept.to_string(alloc)?.as_str())?;
    line.append(" kept, ")?;
    line.append(gone.to_string(alloc)?.as_str())?;
    line.append(" deleted.")
}
