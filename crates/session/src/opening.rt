//! What an opened folder makes of the index.

use crate::core_state::Core;
use folder_core::{Archive, Listing};
use index_view::first_folder_is_taken;
use mail_base::NoMemory;
use session_index::first_found;

impl Core {
    ghost use Rattle.std.specs.Prelude.{List, map, OnOk};
    ghost use Rattle.folder_letters.specs.Letters.{Mail, plain_letter};
    ghost use Rattle.session_events.specs.Happened.{IsFresh};
    ghost use Rattle.session.specs.Core.{IsEmpty, Reads, Stands, plain_core};
    ghost use Rattle.session_screen.specs.declared.window.Window.{Window};
    ghost use Rattle.session.specs.Opening.{opened};

    /// Takes in the messages of the first folder.
    #[tactic(auto, unfolding(crate::specs::Opening::opened))]
    pub fn open(&mut self, archive: &Archive, came: &Listing) -> Result<(), NoMemory>
        requires empty { IsEmpty self.old.desk.view }
        requires fresh { IsFresh (map plain_letter archive.now.items) came.now.items }
        ensures core { OnOk result (Stands (map plain_letter archive.now.items)
            (opened (map plain_letter archive.now.items) came.now.items (plain_core self.old))
            self.new) }
        ensures reads { OnOk result ((mails : List Mail) → (window : Window)
            → Reads mails window self.new) }
    {
        first_folder_is_taken();
        let found = first_found(self.desk.alloc, came)?;
        self.learn(archive)?;
        self.tune(archive)?;
        self.desk.take_in(archive, &found)?;
        self.reader.close();
        Ok(())
    }
}
