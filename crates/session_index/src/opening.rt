//! What a listing that changed, and other options, make of a desk.

ghost use Rattle.std.specs.Prelude.{◌≡◌};
ghost use Rattle.session_index.specs.Opening as spec;
ghost use Rattle.session_index.specs.Shown.{seen};

use crate::desk::Desk;
use crate::sought::{Sought, first_shown};
use folder_letters::{Archive, Found};
use index_functions::found_notice;
use index_view::{View, ViewOptions};
use mail_base::{Id, NoMemory};

// The first new message, else the first unread one, else the last.
fn first_of(view: &View) -> Option<Id>
    ensures { result ≡ spec.first_of view.now.answers (seen view.now.answers) }
{
    let ids = view.visible().as_slice();
    if let Some(id) = first_shown(view, Sought::New, ids) {
        return Some(id);
    }
    if let Some(id) = first_shown(view, Sought::Unread, ids) {
        return Some(id);
    }
    ids.last().copied()
}

impl Desk {
    ghost use Rattle.std.specs.Prelude.{map, List, OnErr, OnOk};
    ghost use Rattle.folder_letters.specs.Letters.{Mail, plain_letter};
    ghost use Rattle.index_view.specs.View.{IsOf, MayTake};
    ghost use Rattle.session_index.specs.Desk.{Holds, plain_desk};
    ghost use Rattle.session_index.specs.Opening as spec;

    /// The index stands by other options.
    pub fn tune(&mut self, archive: &Archive, options: ViewOptions) -> Result<(), NoMemory>
        requires { IsOf (map plain_letter archive.now.items) self.old.view }
        ensures { OnOk result (Holds (map plain_letter archive.now.items)
            (spec.tuned (map plain_letter archive.now.items) options (plain_desk self.old))
            self.new) }
    {
        self.view.set_options(archive, options)
    }

    /// Takes in what a scan found.
    pub fn take_in(&mut self, archive: &Archive, found: &Found) -> Result<(), NoMemory>
        requires is_of { IsOf (map plain_letter archive.now.items) self.old.view }
        requires found { MayTake (map plain_letter archive.now.items)
            (plain_desk self.old).index.facts.items found.now }
        ensures ok { OnOk result (Holds (map plain_letter archive.now.items)
            (spec.taken_in (map plain_letter archive.now.items) found.now (plain_desk self.old))
            self.new) }
        ensures err { OnErr result (self.new ≡ self.old) }
    {
        self.view.take_delta(archive, found)
    }

    /// Takes in what a check found, unless that is nothing, and says nothing.
    pub fn take_quietly(&mut self, archive: &Archive, found: &Found) -> Result<(), NoMemory>
        requires is_of { IsOf (map plain_letter archive.now.items) self.old.view }
        requires found { MayTake (map plain_letter archive.now.items)
            (plain_desk self.old).index.facts.items found.now }
        ensures ok { OnOk result (Holds (map plain_letter archive.now.items)
            (spec.taken_if (map plain_letter archive.now.items) found.now found.now.gone.items
            found.now.reflagged.items found.now.came.items (plain_desk self.old)) self.new) }
        ensures err { OnErr result (self.new ≡ self.old) }
    {
        let gone = found.gone.as_slice();
        let reflagged = found.reflagged.as_slice();
        match (gone, reflagged, found.came.as_slice()) {
            ([], [], []) => Ok(()),
            (_, _, _) => self.take_in(archive, found),
        }
    }

    /// Takes in what a check found, and tells of it.
    pub fn check_in(&mut self, archive: &Archive, found: &Found) -> Result<(), NoMemory>
        requires is_of { IsOf (map plain_letter archive.now.items) self.old.view }
        requires found { MayTake (map plain_letter archive.now.items)
            (plain_desk self.old).index.facts.items found.now }
        ensures ok { OnOk result (Holds (map plain_letter archive.now.items)
            (spec.checked (map plain_letter archive.now.items) found.now (plain_desk self.old))
            self.new) }
        ensures err { OnErr result (self.new ≡ self.old) }
    {
        self.take_quietly(archive, found)?;
        if let Some(notice) = found_notice(found) {
            self.say(notice);
        }
        Ok(())
    }

    /// A folder was opened: the cursor goes to the first new message, else to the first unread
    /// one, else to the last.
    pub fn begin(&mut self)
        ensures { (mails : List Mail) → IsOf mails self.old.view
            → Holds mails (spec.begun mails (plain_desk self.old)) self.new }
    {
        if let Some(id) = first_of(&self.view) {
            self.view.move_to(id);
        }
    }
}
