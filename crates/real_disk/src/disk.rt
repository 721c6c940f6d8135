//! The file system of the machine as a disk.

ghost use Rattle.std.specs.Prelude.{◌≡◌, ◌≤◌, length, IfOk};
ghost use Rattle.disk_model.specs.Answers.{AreText, IsPlainStat, IsWhole, LeavesFront};
ghost use Rattle.disk_model.specs.Journal.{ListDir, StatPath, ReadFront, ReadAll, Create, WriteAt};
ghost use Rattle.disk_model.specs.Journal.{Cut, Sync};
ghost use Rattle.disk_model.specs.Journal.{Rename, Remove, SyncDir, MakeDir};
ghost use Rattle.disk_model.specs.Judge.{Counted, DoesStep, MakesStep, front_length, front_of};
ghost use Rattle.disk_model.specs.Judge.{list_of, plain_front};
ghost use Rattle.disk_model.specs.Judge.{plain_list, plain_read, read_length, read_of, stat_of};
ghost use Rattle.disk_model.specs.Looking.{LooksOnly};
ghost use Rattle.real_disk.specs.Real.{CountsCall, untold};

use crate::folders::{list_at, make_dir_at, sync_dir_at};
use crate::reading::{read_all_at, read_front_at};
use crate::system::{name_of, stat_at};
use crate::writing::{create_at, cut_at, remove_at, rename_at, sync_at, write_bytes_at};
use disk_model::{Disk, DiskError, FileRead, Fill, Stat, Tree};
use mail_base::{Names, NoMemory};
use std::alloc::Global;
use std::marker::Model;
use std::rt::Runtime;

/// The file system. It tells no tree and no journal. A stamp is the time of modification in
/// nanoseconds since 1970, or 0 where that is earlier; the empty path is read as `.`. A link counts
/// as what it leads to, and what is neither a file nor a folder, as a pipe or a device, is a fault,
/// but that `read_all` reads the device `/dev/null` as no bytes.
#[derive(Drop)]
pub struct RealDisk<R> {
    rt: R,
    marks: u64,
    faults: u64,
}

impl<R> Model for RealDisk<R> {
    ghost use Rattle.real_disk.specs.Real.{Tally};

    ghost Value = { Tally };

    ghost view = { λ d. record { marks = d.marks; faults = d.faults } };
}

impl<R: Runtime> RealDisk<R> {
    pub fn new(rt: R) -> Self
        ensures marks { result.marks ≡ 0 }
        ensures faults { result.faults ≡ 0 }
    {
        RealDisk {
            rt,
            marks: 0,
            faults: 0,
        }
    }

    /// Counts a call that was answered so.
    fn count<T>(&mut self, answer: &Result<T, DiskError>)
        ensures tally { CountsCall answer.now self.old self.new }
        ensures counts { Counted answer.now (untold self.old) (untold self.new) }
    {
        match answer {
            Err(DiskError::NoMemory) => {}
            Err(DiskError::Fault) => {
                self.marks = self.marks.saturating_add(1);
                self.faults = self.faults.saturating_add(1);
            }
            _ => self.marks = self.marks.saturating_add(1),
        }
    }
}

impl<R: Runtime> Disk for RealDisk<R> {
    ghost seen = { untold };

    fn mark(&self) -> u64 {
        self.marks
    }

    fn faults(&self) -> u64 {
        self.faults
    }

    fn image(&self, _alloc: Global, _names: u64, _fill: Fill) -> Result<Option<Tree>, NoMemory> {
        Ok(None)
    }

    fn list(&mut self, alloc: Global, dir: &str) -> Result<Names, DiskError>
        ensures step { MakesStep (plain_list result) (ListDir dir.now)
            (λ tree. list_of tree dir.now) 0
            (untold self.old) (untold self.new) }
        ensures looks { LooksOnly (untold self.old).told (untold self.new).told }
        ensures text { IfOk result (λ names. AreText names.items) }
        ensures counts { CountsCall result self.old self.new }
    {
        let answer = list_at(&self.rt, alloc, name_of(dir));
        self.count(&answer);
        answer
    }

    fn stat(&mut self, path: &str) -> Result<Stat, DiskError>
        ensures step { MakesStep result (StatPath path.now) (λ tree. stat_of tree path.now) 0
            (untold self.old) (untold self.new) }
        ensures looks { LooksOnly (untold self.old).told (untold self.new).told }
        ensures plain { IfOk result IsPlainStat }
        ensures counts { CountsCall result self.old self.new }
    {
        let answer = stat_at(&self.rt, name_of(path));
        self.count(&answer);
        answer
    }

    fn read_front(&mut self, path: &str, into: &mut [u8]) -> Result<usize, DiskError>
        ensures step { MakesStep (plain_front result into.new)
            (ReadFront path.now (length into.old))
            (λ tree. front_of tree path.now (length into.old)) (front_length result)
            (untold self.old) (untold self.new) }
        ensures looks { LooksOnly (untold self.old).told (untold self.new).told }
        ensures front { LeavesFront result into.old into.new }
        ensures counts { CountsCall result self.old self.new }
    {
        let answer = read_front_at(&self.rt, name_of(path), into);
        self.count(&answer);
        answer
    }

    fn read_all(&mut self, alloc: Global, path: &str, limit: u64) -> Result<FileRead, DiskError>
        ensures step { MakesStep (plain_read result) (ReadAll path.now limit)
            (λ tree. read_of tree path.now limit)
            (read_length result) (untold self.old) (untold self.new) }
        ensures looks { LooksOnly (untold self.old).told (untold self.new).told }
        ensures whole { IfOk result (IsWhole limit) }
        ensures counts { CountsCall result self.old self.new }
    {
        let answer = read_all_at(&self.rt, alloc, name_of(path), limit);
        self.count(&answer);
        answer
    }

    fn create(&mut self, _alloc: Global, path: &str) -> Result<(), DiskError>
        ensures step { DoesStep result (Create path.now) (untold self.old) (untold self.new) }
        ensures counts { CountsCall result self.old self.new }
    {
        let answer = create_at(&self.rt, name_of(path));
        self.count(&answer);
        answer
    }

    fn write_at(
        &mut self,
        _alloc: Global,
        path: &str,
        at: u64,
        bytes: &[u8],
    ) -> Result<(), DiskError>
        ensures step { DoesStep result (WriteAt path.now at bytes.now) (untold self.old)
            (untold self.new) }
        ensures counts { CountsCall result self.old self.new }
    {
        let answer = write_bytes_at(&self.rt, name_of(path), at, bytes);
        self.count(&answer);
        answer
    }

    fn cut(&mut self, _alloc: Global, path: &str, length: u64) -> Result<(), DiskError>
        ensures step { DoesStep result (Cut path.now length) (untold self.old) (untold self.new) }
        ensures counts { CountsCall result self.old self.new }
    {
        let answer = cut_at(&self.rt, name_of(path), length);
        self.count(&answer);
        answer
    }

    fn sync(&mut self, _alloc: Global, path: &str) -> Result<(), DiskError>
        ensures step { DoesStep result (Sync path.now) (untold self.old) (untold self.new) }
        ensures counts { CountsCall result self.old self.new }
    {
        let answer = sync_at(&self.rt, name_of(path));
        self.count(&answer);
        answer
    }

    fn rename(&mut self, _alloc: Global, from: &str, to: &str) -> Result<(), DiskError>
        ensures step { DoesStep result (Rename from.now to.now)
            (untold self.old) (untold self.new) }
        ensures counts { CountsCall result self.old self.new }
    {
        let answer = rename_at(&self.rt, name_of(from), name_of(to));
        self.count(&answer);
        answer
    }

    fn remove(&mut self, _alloc: Global, path: &str) -> Result<(), DiskError>
        ensures step { DoesStep result (Remove path.now) (untold self.old) (untold self.new) }
        ensures counts { CountsCall result self.old self.new }
    {
        let answer = remove_at(&self.rt, name_of(path));
        self.count(&answer);
        answer
    }

    fn sync_dir(&mut self, _alloc: Global, dir: &str) -> Result<(), DiskError>
        ensures step { DoesStep result (SyncDir dir.now) (untold self.old) (untold self.new) }
        ensures counts { CountsCall result self.old self.new }
    {
        let answer = sync_dir_at(&self.rt, name_of(dir));
        self.count(&answer);
        answer
    }

    fn make_dir(&mut self, _alloc: Global, path: &str) -> Result<(), DiskError>
        ensures step { DoesStep result (MakeDir path.now) (untold self.old) (untold self.new) }
        ensures counts { CountsCall result self.old self.new }
    {
        let answer = make_dir_at(&self.rt, name_of(path));
        self.count(&answer);
        answer
    }
}
