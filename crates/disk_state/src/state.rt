//! What a journal leaves, kept up to date.

ghost use Rattle.std.specs.Prelude.{◌≡◌, ◌<◌, ◌^◌, ◌∷◌, map, IfOk, OnOk, OnErr, vec_len};
ghost use Rattle.std.specs.Prelude.{vec_capacity};
ghost use Rattle.disk_model.specs.State as spec;
ghost use Rattle.disk_state.specs.Plain.{plain_change, plain_name};
ghost use Rattle.disk_state.specs.Plain.{plain_state};

use crate::bytes::put_first;
use crate::file::{Change, File};
use crate::names::{Name, copy_names, copy_without, name_at};
use mail_base::{Bytes, NoMemory};
use std::alloc::Global;
use std::mem;

/// The names, those before each name operation since the last barrier (the latest first), the files
/// by their numbers, and a stamp above all that files have had. Each change is made whole, or not
/// at all.
#[derive(Drop)]
pub struct State {
    pub(crate) names: Vec<Name>,
    pub(crate) earlier: Vec<Vec<Name>>,
    pub(crate) files: Vec<File>,
    pub(crate) clock: u128,
}

impl State {
    /// What stands at a path: nothing, a folder, or the file of that number.
    pub(crate) fn name_at(&self, path: &[u8]) -> Option<Option<usize>>
        ensures { result ≡ spec.name_at (plain_state self.now).names path.now }
    {
        name_at(self.names.as_slice(), path)
    }

    /// Takes these names, by one name operation.
    fn take_names(&mut self, names: Vec<Name>) -> Result<(), NoMemory>
        ensures ok { OnOk result (plain_state self.new
            ≡ spec.with_names (map plain_name names.items) (plain_state self.old)) }
        ensures err { OnErr result (plain_state self.new ≡ plain_state self.old) }
    {
        self.earlier.reserve(1)?;
        self.put_names(names);
        Ok(())
    }

    /// The same, where there is room for it.
    fn put_names(&mut self, names: Vec<Name>)
        requires { vec_len self.old.earlier < vec_capacity self.old.earlier }
        ensures { plain_state self.new ≡ spec.with_names (map plain_name names.items)
            (plain_state self.old) }
    {
        let before = mem::replace(&mut self.names, names);
        put_first(&mut self.earlier, before);
    }

    /// All names are on the disk.
    pub(crate) fn settle_names(&mut self)
        ensures { plain_state self.new ≡ spec.barrier (plain_state self.old) }
    {
        self.earlier.clear();
    }

    /// The names with one more before them.
    fn names_with(
        &self,
        alloc: Global,
        path: &[u8],
        file: Option<usize>,
    ) -> Result<Vec<Name>, NoMemory>
        ensures { IfOk result (λ names. map plain_name names.items
            ≡ record { path = path.now; file = file } ∷ (plain_state self.now).names) }
    {
        let mut names = Vec::new(alloc);
        names.push(Name {
            path: Bytes::copy_of(alloc, path)?,
            file,
        })?;
        copy_names(alloc, &mut names, self.names.as_slice())?;
        Ok(names)
    }

    pub(crate) fn make_file(
        &mut self,
        alloc: Global,
        path: &[u8],
        bytes: &[u8],
    ) -> Result<(), NoMemory>
        requires { self.old.clock < 2 ^ 127 }
        ensures ok { OnOk result (plain_state self.new
            ≡ spec.with_made path.now bytes.now (plain_state self.old)) }
        ensures err { OnErr result (plain_state self.new ≡ plain_state self.old) }
    {
        let file = File::durable(alloc, bytes, self.clock)?;
        let names = self.names_with(alloc, path, Some(self.files.len()))?;
        self.files.reserve(1)?;
        self.earlier.reserve(1)?;
        self.files.push_reserved(file);
        self.clock += 1;
        self.put_names(names);
        Ok(())
    }

    pub(crate) fn make_folder(&mut self, alloc: Global, path: &[u8]) -> Result<(), NoMemory>
        ensures ok { OnOk result (plain_state self.new ≡ spec.with_folder path.now
            (plain_state self.old)) }
        ensures err { OnErr result (plain_state self.new ≡ plain_state self.old) }
    {
        let names = self.names_with(alloc, path, None)?;
        self.take_names(names)
    }

    /// Changes the file at a path, where one stands there.
    pub(crate) fn change(
        &mut self,
        alloc: Global,
        path: &[u8],
        change: Change<'_>,
    ) -> Result<(), NoMemory>
        requires { self.old.clock < 2 ^ 127 }
        ensures ok { OnOk result (plain_state self.new
            ≡ spec.changed (spec.name_at (plain_state self.old).names path.now)
            (plain_change change.entry) (plain_state self.old)) }
        ensures err { OnErr result (plain_state self.new ≡ plain_state self.old) }
    {
        let Some(Some(number)) = self.name_at(path) else {
            return Ok(());
        };
        self.change_file(alloc, number, change)
    }

    fn change_file(
        &mut self,
        alloc: Global,
        number: usize,
        change: Change<'_>,
    ) -> Result<(), NoMemory>
        requires { self.old.clock < 2 ^ 127 }
        ensures ok { OnOk result (plain_state self.new
            ≡ spec.with_change number (plain_change change.entry) (plain_state self.old)) }
        ensures err { OnErr result (plain_state self.new ≡ plain_state self.old) }
    {
        let stamp = self.clock;
        if number < self.files.len() {
            self.files[number].change(alloc, change, stamp)?;
        }
        self.clock = stamp + 1;
        Ok(())
    }

    /// Puts the bytes of the file at a path on the disk, where one stands there.
    pub(crate) fn sync(&mut self, alloc: Global, path: &[u8]) -> Result<(), NoMemory>
        ensures ok { OnOk result (plain_state self.new
            ≡ spec.settled (spec.name_at (plain_state self.old).names path.now)
            (plain_state self.old)) }
        ensures err { OnErr result (plain_state self.new ≡ plain_state self.old) }
    {
        let Some(Some(number)) = self.name_at(path) else {
            return Ok(());
        };
        self.sync_file(alloc, number)
    }

    fn sync_file(&mut self, alloc: Global, number: usize) -> Result<(), NoMemory>
        ensures ok { OnOk result (plain_state self.new ≡ spec.with_synced number
            (plain_state self.old)) }
        ensures err { OnErr result (plain_state self.new ≡ plain_state self.old) }
    {
        if number < self.files.len() {
            self.files[number].sync(alloc)?;
        }
        Ok(())
    }

    /// Moves the file at a path, where one stands there.
    pub(crate) fn rename(&mut self, alloc: Global, from: &[u8], to: &[u8]) -> Result<(), NoMemory>
        ensures ok { OnOk result (plain_state self.new
            ≡ spec.moved (spec.name_at (plain_state self.old).names from.now) from.now to.now
            (plain_state self.old)) }
        ensures err { OnErr result (plain_state self.new ≡ plain_state self.old) }
    {
        let Some(Some(number)) = self.name_at(from) else {
            return Ok(());
        };
        let names = self.names_moved(alloc, number, from, to)?;
        self.take_names(names)
    }

    /// The names with the file of that number moved.
    fn names_moved(
        &self,
        alloc: Global,
        number: usize,
        from: &[u8],
        to: &[u8],
    ) -> Result<Vec<Name>, NoMemory>
        ensures { IfOk result (λ names. map plain_name names.items
            ≡ record { path = to.now; file = Some number }
            ∷ spec.without to.now (spec.without from.now (plain_state self.now).names)) }
    {
        let mut others = Vec::new(alloc);
        copy_without(alloc, &mut others, self.names.as_slice(), from)?;
        let mut names = Vec::new(alloc);
        names.push(Name {
            path: Bytes::copy_of(alloc, to)?,
            file: Some(number),
        })?;
        copy_without(alloc, &mut names, others.as_slice(), to)?;
        Ok(names)
    }

    pub(crate) fn remove(&mut self, alloc: Global, path: &[u8]) -> Result<(), NoMemory>
        ensures ok { OnOk result (plain_state self.new
            ≡ spec.with_names (spec.without path.now (plain_state self.old).names)
            (plain_state self.old)) }
        ensures err { OnErr result (plain_state self.new ≡ plain_state self.old) }
    {
        let mut names = Vec::new(alloc);
        copy_without(alloc, &mut names, self.names.as_slice(), path)?;
        self.take_names(names)
    }
}
