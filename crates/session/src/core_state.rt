//! What keys act on.

use index_view::View;
use mail_base::{Kind, Line, NoMemory};
use patterns_match::Scores;
use people::People;
use session_index::{Desk, Message, Wanted};
use session_pager::Reader;
use session_screen::options_of;
use session_state::{Frame, Rules};
use std::alloc::Global;

/// What keys act on: what muttrc has set, the index, the text of its limit, what is shown in its
/// place, the kind of the open folder, and the files of commands that are not at their ends.
pub struct Core {
    pub rules: Rules,
    pub desk: Desk,
    pub limit: Option<Line>,
    pub reader: Reader,
    pub kind: Kind,
    pub frames: Vec<Frame>,
}

impl Drop for Core {
    fn drop(self) {
        let Core {
            rules: _,
            desk: _,
            limit: _,
            reader: _,
            kind: _,
            frames: _,
        } = self;
    }
}

impl Core {
    ghost use Rattle.std.specs.Prelude.{◌≡◌, [], IfOk, true, false};
    ghost use Rattle.session_state.specs.Frames.{plain_frames};
    ghost use Rattle.session.specs.Core.{IsEmpty, first_core, plain_core};

    /// What keys act on before these files of commands are read and a folder is open.
    pub fn new(alloc: Global, read_only: bool, frames: Vec<Frame>) -> Result<Core, NoMemory>
        ensures core { IfOk result
            (λ core. plain_core core ≡ first_core read_only (plain_frames frames)) }
        ensures empty { IfOk result (λ core. IsEmpty core.desk.view) }
    {
        let rules = Rules::new(alloc)?;
        let options = options_of(rules.settings());
        Ok(Core {
            rules,
            desk: Desk {
                alloc,
                view: View::new(alloc, options, People::new(alloc), Scores::new(alloc)),
                message: Message::Blank,
                prompt: None,
                search: None,
                prefix: false,
                read_only,
                wanted: Wanted::Unasked,
            },
            limit: None,
            reader: Reader::new(alloc),
            kind: Kind::Mbox,
            frames,
        })
    }

    /// Whether a file of commands is still to be read.
    pub fn waits_for_file(&self) -> bool
        ensures some { result ≡ true → (plain_core self.now).frames ≡ [] → ⊥ }
        ensures none { result ≡ false → (plain_core self.now).frames ≡ [] }
    {
        !self.frames.is_empty()
    }
}
