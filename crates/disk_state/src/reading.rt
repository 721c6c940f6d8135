//! What the calls give that look.

ghost use Rattle.std.specs.Prelude.{◌≡◌, IfOk};
ghost use Rattle.disk_model.specs.Answers.{IsPlainStat, IsWhole};
ghost use Rattle.disk_model.specs.Judge.{node_bytes, plain_read, read_node, read_of, stat_node};
ghost use Rattle.disk_model.specs.Judge.{stat_of};
ghost use Rattle.disk_model.specs.Refusals.{file_refusal, first_refusal, length_refusal};
ghost use Rattle.disk_model.specs.Refusals.{long_refusal, refusal};
ghost use Rattle.disk_model.specs.State as spec;
ghost use Rattle.disk_model.specs.Tree.{node_at};
ghost use Rattle.disk_state.specs.Plain.{plain_call, plain_state};

use crate::Call;
use crate::state::State;
use disk_model::{DiskError, FileRead, Stat};
use mail_base::{Bytes, NoMemory};
use std::alloc::Global;

const FOLDER: Stat = Stat {
    folder: true,
    length: 0,
    stamp: 0,
};

impl State {
    /// The bytes of the file of a number.
    fn bytes_of(&self, number: usize) -> &[u8]
        ensures { result.now ≡ (spec.file_at (plain_state self.now).files number).bytes }
    {
        match self.files.get(number) {
            Some(file) => file.bytes.as_slice(),
            None => b"",
        }
    }

    fn stat_of(&self, number: usize) -> Stat
        ensures stat { result ≡ stat_node (Some
            (spec.file_at (plain_state self.now).files number).bytes)
            (spec.file_at (plain_state self.now).files number).stamp }
        ensures plain { IsPlainStat result }
    {
        match self.files.get(number) {
            Some(file) => Stat {
                folder: false,
                length: file.bytes.len() as u64,
                stamp: file.stamp,
            },
            None => Stat {
                folder: false,
                length: 0,
                stamp: 0,
            },
        }
    }

    /// What stands at the path.
    pub fn stat(&self, path: &str) -> Result<Stat, DiskError>
        ensures stat { result ≡ stat_of (spec.tree_of (plain_state self.now)) path.now }
        ensures plain { IfOk result IsPlainStat }
    {
        match self.name_at(path.as_bytes()) {
            None => Err(DiskError::Missing),
            Some(None) => Ok(FOLDER),
            Some(Some(number)) => Ok(self.stat_of(number)),
        }
    }

    /// The bytes of what stands at a path: none of a folder.
    pub fn bytes_at(&self, path: &str) -> &[u8]
        ensures { result.now ≡ node_bytes (node_at (spec.tree_of (plain_state self.now)) path.now) }
    {
        match self.name_at(path.as_bytes()) {
            None => b"",
            Some(None) => b"",
            Some(Some(number)) => self.bytes_of(number),
        }
    }

    /// The whole file at the path, of at most `limit` bytes.
    pub fn read(
        &self,
        alloc: Global,
        path: &str,
        limit: u64,
    ) -> Result<Result<FileRead, DiskError>, NoMemory>
        ensures read { IfOk result (λ read. plain_read read
            ≡ read_of (spec.tree_of (plain_state self.now)) path.now limit) }
        ensures whole { IfOk result (λ read. IfOk read (IsWhole limit)) }
    {
        match self.name_at(path.as_bytes()) {
            None => Ok(Err(DiskError::Missing)),
            Some(None) => Ok(Err(DiskError::WrongNode)),
            Some(Some(number)) => self.read_file(alloc, number, limit),
        }
    }

    fn read_file(
        &self,
        alloc: Global,
        number: usize,
        limit: u64,
    ) -> Result<Result<FileRead, DiskError>, NoMemory>
        ensures read { IfOk result (λ read. plain_read read
            ≡ read_node (Some (spec.file_at (plain_state self.now).files number).bytes)
            (spec.file_at (plain_state self.now).files number).stamp limit) }
        ensures whole { IfOk result (λ read. IfOk read (IsWhole limit)) }
    {
        let stat = self.stat_of(number);
        if stat.length > limit {
            return Ok(Err(DiskError::Long(stat.length)));
        }
        let bytes = Bytes::copy_of(alloc, self.bytes_of(number))?;
        Ok(Ok(FileRead { stat, bytes }))
    }

    /// Why a whole read is refused.
    fn read_refusal(&self, path: &[u8], limit: u64) -> Option<DiskError>
        ensures { result ≡ first_refusal
            (file_refusal (node_at (spec.tree_of (plain_state self.now)) path.now))
            (long_refusal limit (node_at (spec.tree_of (plain_state self.now)) path.now)) }
    {
        match self.name_at(path) {
            None => Some(DiskError::Missing),
            Some(None) => Some(DiskError::WrongNode),
            Some(Some(number)) => self.long_refusal(number, limit),
        }
    }

    fn long_refusal(&self, number: usize, limit: u64) -> Option<DiskError>
        ensures { result ≡ length_refusal limit
            (Some (spec.file_at (plain_state self.now).files number).bytes) }
    {
        let length = self.stat_of(number).length;
        if length > limit {
            Some(DiskError::Long(length))
        } else {
            None
        }
    }

    /// Why a call is refused, where it is.
    pub fn refusal(&self, call: &Call) -> Option<DiskError>
        ensures { result ≡ refusal (plain_call call.now) (spec.tree_of (plain_state self.now)) }
    {
        match call {
            Call::ListDir(dir) => self.folder_refusal(dir.as_slice()),
            Call::StatPath(path) => self.missing_refusal(path.as_slice()),
            Call::ReadFront(path, _) => self.file_refusal(path.as_slice()),
            Call::ReadAll(path, limit) => self.read_refusal(path.as_slice(), *limit),
            Call::Create(path) => self.make_refusal(path.as_slice()),
            Call::WriteAt(path, _, _) => self.file_refusal(path.as_slice()),
            Call::Cut(path, _) => self.file_refusal(path.as_slice()),
            Call::Sync(path) => self.file_refusal(path.as_slice()),
            Call::Rename(from, to) => self.rename_refusal(from.as_slice(), to.as_slice()),
            Call::Remove(path) => self.file_refusal(path.as_slice()),
            Call::SyncDir(dir) => self.folder_refusal(dir.as_slice()),
            Call::MakeDir(path) => self.make_refusal(path.as_slice()),
        }
    }
}
