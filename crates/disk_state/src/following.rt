//! What a state becomes by an entry of the journal.

ghost use Rattle.std.specs.Prelude.{◌≡◌, ◌<◌, ◌^◌, OnOk, OnErr};
ghost use Rattle.disk_model.specs.Journal.{Puts, Removes, Renames};
ghost use Rattle.disk_model.specs.State as spec;
ghost use Rattle.disk_state.specs.Plain.{plain_action, plain_call, plain_state};

use crate::file::Change;
use crate::state::State;
use crate::{Action, Call};
use disk_model::folder_of;
use mail_base::{NoMemory, is_utf8};
use std::alloc::Global;

impl State {
    /// Does what a call does that is answered Ok.
    pub fn follow(&mut self, alloc: Global, call: &Call) -> Result<(), NoMemory>
        requires { (plain_state self.old).clock < 2 ^ 127 }
        ensures ok { OnOk result (plain_state self.new
            ≡ spec.after_done (plain_call call.now) (plain_state self.old)) }
        ensures err { OnErr result (plain_state self.new ≡ plain_state self.old) }
    {
        match call {
            Call::ListDir(_) | Call::StatPath(_) | Call::ReadFront(_, _) | Call::ReadAll(_, _) =>
                Ok(()),
            Call::Create(path) => self.make_file(alloc, path.as_slice(), b""),
            Call::WriteAt(path, at, piece) => self.change(
                alloc,
                path.as_slice(),
                Change::Write(*at as usize, piece.as_slice()),
            ),
            Call::Cut(path, size) => {
                self.change(alloc, path.as_slice(), Change::Cut(*size as usize))
            }
            Call::Sync(path) => self.sync(alloc, path.as_slice()),
            Call::Rename(from, to) => self.rename(alloc, from.as_slice(), to.as_slice()),
            Call::Remove(path) => self.remove(alloc, path.as_slice()),
            Call::SyncDir(_) => {
                self.settle_names();
                Ok(())
            }
            Call::MakeDir(path) => self.make_folder(alloc, path.as_slice()),
        }
    }

    /// Does what others do, which is a barrier.
    pub fn follow_others(&mut self, alloc: Global, action: &Action) -> Result<(), NoMemory>
        requires { (plain_state self.old).clock < 2 ^ 127 }
        ensures ok { OnOk result (plain_state self.new
            ≡ spec.barrier (spec.after_action (plain_action action.now) (plain_state self.old))) }
        ensures err { OnErr result (plain_state self.new ≡ plain_state self.old) }
    {
        self.act(alloc, action)?;
        self.settle_names();
        Ok(())
    }

    /// An action that does not fit does nothing.
    fn act(&mut self, alloc: Global, action: &Action) -> Result<(), NoMemory>
        requires { self.old.clock < 2 ^ 127 }
        ensures ok { OnOk result (plain_state self.new
            ≡ spec.after_action (plain_action action.now) (plain_state self.old)) }
        ensures err { OnErr result (plain_state self.new ≡ plain_state self.old) }
    {
        match action {
            Action::Append { path, bytes } => {
                self.change(alloc, path.as_slice(), Change::Append(bytes.as_slice()))
            }
            Action::Put { path, bytes } => self.put(alloc, path.as_slice(), bytes.as_slice()),
            Action::Rename { from, to } => { self.take(alloc, from.as_slice(), to.as_slice()) }
            Action::Remove { path } => self.drop_file(alloc, path.as_slice()),
            Action::Write { path, bytes } => {
                self.change(alloc, path.as_slice(), Change::Replace(bytes.as_slice()))
            }
        }
    }

    fn put(&mut self, alloc: Global, path: &[u8], bytes: &[u8]) -> Result<(), NoMemory>
        requires { self.old.clock < 2 ^ 127 }
        ensures ok { OnOk result (plain_state self.new
            ≡ spec.after_action (Puts path.now bytes.now) (plain_state self.old)) }
        ensures err { OnErr result (plain_state self.new ≡ plain_state self.old) }
    {
        if !self.can_make(path) {
            return Ok(());
        }
        self.make_file(alloc, path, bytes)
    }

    fn take(&mut self, alloc: Global, from: &[u8], to: &[u8]) -> Result<(), NoMemory>
        ensures ok { OnOk result (plain_state self.new
            ≡ spec.after_action (Renames from.now to.now) (plain_state self.old)) }
        ensures err { OnErr result (plain_state self.new ≡ plain_state self.old) }
    {
        if !self.can_take(to) {
            return Ok(());
        }
        self.rename(alloc, from, to)
    }

    fn drop_file(&mut self, alloc: Global, path: &[u8]) -> Result<(), NoMemory>
        ensures ok { OnOk result (plain_state self.new
            ≡ spec.after_action (Removes path.now) (plain_state self.old)) }
        ensures err { OnErr result (plain_state self.new ≡ plain_state self.old) }
    {
        if !matches!(self.name_at(path), Some(Some(_))) {
            return Ok(());
        }
        self.remove(alloc, path)
    }

    fn is_folder(&self, path: &[u8]) -> bool
        ensures { result ≡ spec.is_folder (spec.name_at (plain_state self.now).names path.now) }
    {
        matches!(self.name_at(path), Some(None))
    }

    fn can_make(&self, path: &[u8]) -> bool
        ensures { result ≡ spec.can_make (plain_state self.now).names path.now }
    {
        is_utf8(path) && self.is_folder(folder_of(path)) && self.name_at(path).is_none()
    }

    fn can_take(&self, path: &[u8]) -> bool
        ensures { result ≡ spec.can_take (plain_state self.now).names path.now }
    {
        is_utf8(path) && self.is_folder(folder_of(path)) && !self.is_folder(path)
    }
}
