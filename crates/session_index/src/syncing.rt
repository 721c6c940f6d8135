//! How a sync and the end of the run are asked for, and what a sync leaves.

use crate::acting::act_on_all;
use crate::desk::Desk;
use folder_letters::{Archive, Changes};
use index_functions::{Message, Notice, Rule, Wanted, count_discards, is_written};
use index_items::{Act, Mark};
use mail_base::{Kind, NoMemory};
use prompts::Asking;
use rc_lang::Quad;

impl Desk {
    ghost use Rattle.std.specs.Prelude.{◌≡◌, List, length, map, IfOk, OnErr, OnOk};
    ghost use Rattle.folder_letters.specs.Letters.{Mail, plain_letter};
    ghost use Rattle.index_items.specs.Changes.{AreBelow, plain_changes};
    ghost use Rattle.index_view.specs.View.{IsOf};
    ghost use Rattle.session_index.specs.Desk.{Holds, plain_desk};
    ghost use Rattle.session_index.specs.Syncing as spec;

    // How many of the listed messages are marked deleted.
    fn deleted_count(&self) -> usize
        ensures { result ≡ spec.deleted_count (plain_desk self.now) }
    {
        self.view.tally().deleted as usize
    }

    // Whether a sync has nothing to do.
    fn is_unchanged(&self, kind: Kind, purge: bool) -> Result<bool, NoMemory>
        ensures { IfOk result
            (λ is. is ≡ spec.is_unchanged kind purge (plain_desk self.now)) }
    {
        let changes = self.view.changes(self.alloc, kind, purge)?;
        Ok(changes.len() == 0)
    }

    // Wants a sync, where that has something to do.
    fn answer_sync(&mut self, rule: Rule, purge: bool) -> Result<(), NoMemory>
        ensures desk { OnOk result
            (plain_desk self.new ≡ spec.sync_answered rule purge (plain_desk self.old)) }
        ensures view { self.new.view ≡ self.old.view }
    {
        if self.is_unchanged(rule.kind, purge)? {
            self.say(Notice::Unchanged);
        } else {
            let quits = false;
            self.wanted = Wanted::ToSync { purge, quits };
        }
        Ok(())
    }

    // Wants the end of the run, behind a sync where that has something to do.
    fn end(&mut self, kind: Kind, purge: bool) -> Result<(), NoMemory>
        ensures desk { OnOk result
            (plain_desk self.new ≡ spec.ended kind purge (plain_desk self.old)) }
        ensures view { self.new.view ≡ self.old.view }
    {
        if self.is_unchanged(kind, purge)? {
            self.wanted = Wanted::ToEnd;
        } else {
            let quits = true;
            self.wanted = Wanted::ToSync { purge, quits };
        }
        Ok(())
    }

    // Takes all marks of deletion away, unless the messages go.
    fn drop_unless(&mut self, archive: &Archive, purge: bool) -> Result<(), NoMemory>
        requires { IsOf (map plain_letter archive.now.items) self.old.view }
        ensures { OnOk result (Holds (map plain_letter archive.now.items)
            (spec.dropped_unless (map plain_letter archive.now.items) purge
            (plain_desk self.old)) self.new) }
    {
        if purge {
            return Ok(());
        }
        let act = Act::Clear(Mark::Deleted);
        act_on_all(self.alloc, &mut self.view, archive, act)
    }

    // Makes unread messages old, where that is wished.
    fn age_if(&mut self, archive: &Archive, ages: bool) -> Result<(), NoMemory>
        requires { IsOf (map plain_letter archive.now.items) self.old.view }
        ensures { OnOk result (Holds (map plain_letter archive.now.items)
            (spec.aged_if (map plain_letter archive.now.items) ages
            (plain_desk self.old)) self.new) }
    {
        if !ages {
            return Ok(());
        }
        act_on_all(self.alloc, &mut self.view, archive, Act::Age)
    }

    // Wants the end of the run, where it is known whether deleted messages go.
    fn answer_quit(&mut self, rule: Rule, archive: &Archive, purge: bool) -> Result<(), NoMemory>
        requires { IsOf (map plain_letter archive.now.items) self.old.view }
        ensures { OnOk result (Holds (map plain_letter archive.now.items)
            (spec.quit_answered rule (map plain_letter archive.now.items) purge
            (plain_desk self.old)) self.new) }
    {
        self.drop_unless(archive, purge)?;
        self.age_if(archive, rule.mark_old)?;
        self.end(rule.kind, purge)
    }

    /// Goes on where it is known whether deleted messages go.
    pub(crate) fn answer_purge(
        &mut self,
        rule: Rule,
        archive: &Archive,
        purge: bool,
        quits: bool,
    ) -> Result<(), NoMemory>
        requires { IsOf (map plain_letter archive.now.items) self.old.view }
        ensures { OnOk result (Holds (map plain_letter archive.now.items)
            (spec.purge_answered rule (map plain_letter archive.now.items) purge quits
            (plain_desk self.old)) self.new) }
    {
        if quits {
            return self.answer_quit(rule, archive, purge);
        }
        self.answer_sync(rule, purge)
    }

    // Asks whether deleted messages go, unless the variable says so.
    fn purge_by(&mut self, rule: Rule, archive: &Archive, quits: bool) -> Result<(), NoMemory>
        requires { IsOf (map plain_letter archive.now.items) self.old.view }
        ensures { OnOk result (Holds (map plain_letter archive.now.items)
            (spec.purge_by rule.delete rule (map plain_letter archive.now.items) quits
            (plain_desk self.old)) self.new) }
    {
        let count = self.deleted_count();
        match rule.delete {
            Quad::Yes => self.answer_purge(rule, archive, true, quits),
            Quad::No => self.answer_purge(rule, archive, false, quits),
            Quad::AskYes => {
                let yes = true;
                self.ask(Asking::Purge { count, yes, quits });
                Ok(())
            }
            Quad::AskNo => {
                let yes = false;
                self.ask(Asking::Purge { count, yes, quits });
                Ok(())
            }
        }
    }

    // The same, where messages are marked deleted.
    fn ask_purge(&mut self, rule: Rule, archive: &Archive, quits: bool) -> Result<(), NoMemory>
        requires { IsOf (map plain_letter archive.now.items) self.old.view }
        ensures { OnOk result (Holds (map plain_letter archive.now.items)
            (spec.purge_asked rule (map plain_letter archive.now.items) quits
            (plain_desk self.old)) self.new) }
    {
        if self.deleted_count() == 0 {
            return self.answer_purge(rule, archive, false, quits);
        }
        self.purge_by(rule, archive, quits)
    }

    /// Changes are to be written.
    pub(crate) fn begin_sync(&mut self, rule: Rule, archive: &Archive) -> Result<(), NoMemory>
        requires { IsOf (map plain_letter archive.now.items) self.old.view }
        ensures { OnOk result (Holds (map plain_letter archive.now.items)
            (spec.sync_begun rule (map plain_letter archive.now.items)
            (plain_desk self.old)) self.new) }
    {
        if !is_written(rule.kind) {
            self.say(Notice::ReadOnly);
            return Ok(());
        }
        self.ask_purge(rule, archive, false)
    }

    /// Leaves the run.
    pub(crate) fn leave(&mut self, rule: Rule, archive: &Archive) -> Result<(), NoMemory>
        requires { IsOf (map plain_letter archive.now.items) self.old.view }
        ensures { OnOk result (Holds (map plain_letter archive.now.items)
            (spec.left rule (map plain_letter archive.now.items)
            (plain_desk self.old)) self.new) }
    {
        if self.read_only || !is_written(rule.kind) {
            self.wanted = Wanted::ToEnd;
            return Ok(());
        }
        self.ask_purge(rule, archive, true)
    }

    /// The run is to end, as the variable says.
    pub(crate) fn begin_quit(&mut self, rule: Rule, archive: &Archive) -> Result<(), NoMemory>
        requires { IsOf (map plain_letter archive.now.items) self.old.view }
        ensures { OnOk result (Holds (map plain_letter archive.now.items)
            (spec.quit_begun rule (map plain_letter archive.now.items)
            (plain_desk self.old)) self.new) }
    {
        match rule.quit {
            Quad::Yes => self.leave(rule, archive),
            Quad::No => {
                self.say(Notice::QuitForbidden);
                Ok(())
            }
            Quad::AskYes => {
                self.ask(Asking::Quit { yes: true });
                Ok(())
            }
            Quad::AskNo => {
                self.ask(Asking::Quit { yes: false });
                Ok(())
            }
        }
    }

    /// Takes in that a sync made these changes, and tells of it.
    pub fn synced(
        &mut self,
        archive: &Archive,
        kind: Kind,
        changes: &Changes,
    ) -> Result<(), NoMemory>
        requires is_of { IsOf (map plain_letter archive.now.items) self.old.view }
        requires below { AreBelow (length archive.now.items) changes.now.items }
        ensures ok { OnOk result (Holds (map plain_letter archive.now.items)
            (spec.synced (map plain_letter archive.now.items) kind
            (plain_changes changes.now.items) (plain_desk self.old)) self.new) }
        ensures err { OnErr result (self.new ≡ self.old) }
    {
        self.view.settle(archive, kind, changes)?;
        self.message = Message::Synced {
            kept: self.view.ordered().len(),
            gone: count_discards(changes.as_slice()),
        };
        Ok(())
    }
}
