//! What a pager makes of a desk, and asks of it.

use crate::acting::act_on;
use crate::desk::Desk;
use crate::sought::{Sought, shows};
use crate::ways::go;
use folder_letters::Archive;
use index_functions::{Motion, Rule, is_in, writes};
use index_items::{Act, Mark};
use keymap::Function;
use mail_base::{Id, NoMemory};
use patterns_match::Pattern;

impl Desk {
    ghost use Rattle.std.specs.Prelude.{◌≡◌, ◌<◌, List, map, IfOk, OnOk};
    ghost use Rattle.folder_letters.specs.Letters.{Mail, plain_letter};
    ghost use Rattle.index_view.specs.View.{IsOf};
    ghost use Rattle.patterns_match.specs.Pattern.{plain_pattern};
    ghost use Rattle.session_index.specs.Desk.{Holds, plain_desk};
    ghost use Rattle.session_index.specs.Viewing as spec;

    /// An unread message becomes seen, since it is shown. Nothing changes where the desk is read
    /// only, or where the message is seen already or not listed.
    pub fn see(&mut self, archive: &Archive, id: Id) -> Result<(), NoMemory>
        requires { IsOf (map plain_letter archive.now.items) self.old.view }
        ensures { OnOk result (Holds (map plain_letter archive.now.items)
            (spec.viewed (map plain_letter archive.now.items) id (plain_desk self.old)) self.new) }
    {
        if self.read_only || !shows(&self.view, Sought::Unread, id) {
            return Ok(());
        }
        act_on(
            self.alloc,
            &mut self.view,
            archive,
            Act::Clear(Mark::New),
            &[id],
        )
    }

    /// Whether `perform` does not refuse a function.
    pub fn allows(&self, function: Function) -> bool
        ensures { (mails : List Mail) → IsOf mails self.now.view
            → result ≡ spec.allows mails function (plain_desk self.now) }
    {
        !self.lacks_message(function) && !(writes(function) && self.read_only)
    }

    /// Moves the cursor to the next message that is not deleted, without a text; whether there is
    /// one.
    pub fn next_undeleted(&mut self, rule: Rule, archive: &Archive) -> Result<bool, NoMemory>
        requires page { 0 < rule.page }
        requires is_of { IsOf (map plain_letter archive.now.items) self.old.view }
        ensures found { IfOk result (λ found. found ≡ spec.leads
            (spec.way_on rule (map plain_letter archive.now.items) (plain_desk self.old))) }
        ensures moved { OnOk result (Holds (map plain_letter archive.now.items)
            (spec.gone_on rule (map plain_letter archive.now.items) (plain_desk self.old))
            self.new) }
    {
        let notice = go(self.alloc, &mut self.view, rule.page, Motion::NextUndeleted)?;
        Ok(notice.is_none())
    }

    /// Whether a message is seen and satisfies a pattern.
    pub fn matches(
        &mut self,
        archive: &Archive,
        pattern: &mut Pattern,
        id: Id,
    ) -> Result<bool, NoMemory>
        requires { IsOf (map plain_letter archive.now.items) self.old.view }
        ensures value { IfOk result (λ is. is ≡ spec.matches
            (map plain_letter archive.now.items) (plain_pattern pattern.old) id
            (plain_desk self.old)) }
        ensures same { (self.new ≡ self.old) × (pattern.new ≡ pattern.old) }
    {
        let ids = self.view.pick(self.alloc, archive, pattern)?;
        Ok(is_in(ids.as_slice(), id))
    }
}
