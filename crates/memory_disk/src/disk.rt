//! A disk in memory.

ghost use Rattle.std.specs.Prelude.{◌≡◌, ◌≤◌, ◌↔◌, true, false, length, map};
ghost use Rattle.std.specs.Prelude.{IsTrue, IfOk, OnOk, OnErr, if◌then◌else◌};
ghost use Rattle.mail_base.specs.Faults.{Rose};
ghost use Rattle.disk_model.specs.Answers.{AreText, IsPlainStat, IsWhole, LeavesFront};
ghost use Rattle.disk_model.specs.Journal.{ListDir, StatPath, ReadFront, ReadAll, Create, WriteAt};
ghost use Rattle.disk_model.specs.Journal.{Cut, Sync, Rename, Remove, SyncDir, MakeDir};
ghost use Rattle.disk_model.specs.Judge.{DoesStep, MakesStep, front_length, front_of, list_of};
ghost use Rattle.disk_model.specs.Judge.{plain_front, plain_list, plain_read, read_length};
ghost use Rattle.disk_model.specs.Judge.{read_of, stat_of};
ghost use Rattle.disk_model.specs.Lawful.{IsAllowed, is_text};
ghost use Rattle.disk_model.specs.Looking.{LooksOnly, is_look};
ghost use Rattle.disk_model.specs.Node.{plain_node};
ghost use Rattle.disk_model.specs.Refusals.{refusal};
ghost use Rattle.disk_model.specs.Tree.{is_tree};
ghost use Rattle.disk_model.specs.declared.answers.DiskError.TheVariants.{Fault};
ghost use Rattle.disk_state.specs.Plain.{answer_by_refusal, plain_call};
ghost use Rattle.memory_disk.specs.Plain.{plain_asked, plain_planned};
ghost use Rattle.memory_disk.specs.Remembered.{Faces, IsFaulty, IsMeeting, IsStopped, Plays};
ghost use Rattle.memory_disk.specs.Remembered.{Settles, begun, entered, faults_by, met, new_disk};
ghost use Rattle.memory_disk.specs.Remembered.{seen_of, tree_now};

use crate::asked::{Asked, kept_call};
use crate::entering::{act, enter};
use crate::front::put_front;
use crate::plan::plan_of;
use crate::{Foreign, Script};
use disk_model::{Disk, DiskError, FileRead, Fill, Stat, Tree};
use disk_state::{Action, Call, Entry, First, State};
use mail_base::{Names, NoMemory, Numbers};
use std::alloc::Global;
use std::marker::Model;

/// A disk in memory, on which others act by a script, and of which the calls with given numbers
/// fail and all from one on. Calls are numbered from 0, and each counts, also one that memory runs
/// out in; then those of others who were due wait for the next one. A failed write has written
/// nothing.
#[derive(Drop)]
pub struct MemoryDisk {
    alloc: Global,
    first: First,
    journal: Vec<Entry>,
    waiting: Vec<Action>,
    state: State,
    plan: Vec<Foreign>,
    fails: Numbers,
    stop: Option<u64>,
    calls: u64,
    faults: u64,
}

impl Model for MemoryDisk {
    ghost use Rattle.std.specs.Prelude.{map};
    ghost use Rattle.disk_state.specs.Plain.{plain_action, plain_entry, plain_first, plain_state};
    ghost use Rattle.memory_disk.specs.Plain.{plain_planned};
    ghost use Rattle.memory_disk.specs.Remembered.{IsSound, Remembered};

    ghost Value = { Remembered };

    ghost view = { λ d. record {
      past = record {
        first = plain_first d.first;
        journal = map plain_entry d.journal.items;
      };
      waiting = map plain_action d.waiting.items;
      plan = map plain_planned d.plan.items;
      fails = d.fails.items;
      stop = d.stop;
      calls = d.calls;
      faults = d.faults;
    } };

    ghost invariant = { λ d. IsSound (plain_first d.first) d.first.clock
        (map plain_entry d.journal.items) (map plain_action d.waiting.items)
        (plain_state d.state) };
}

/// A call that has met others.
#[derive(Drop)]
struct Turn {
    call: Call,
    is_faulty: bool,
}

impl MemoryDisk {
    /// A disk with this tree, on which others do what the script says, and the calls with the
    /// numbers in `fails` and all from call `stop` on fail.
    pub fn new(
        alloc: Global,
        tree: Tree,
        script: Script,
        fails: Numbers,
        stop: Option<u64>,
    ) -> Result<Self, NoMemory>
        requires { is_tree (map plain_node tree.items) ≡ true }
        ensures { IfOk result (λ disk. disk ≡ new_disk (map plain_node tree.items)
            (map plain_planned script.items) fails.items stop) }
    {
        let first = First::new(alloc, tree.as_slice())?;
        let state = first.state(alloc)?;
        Ok(MemoryDisk {
            alloc,
            first,
            journal: Vec::new(alloc),
            waiting: Vec::new(alloc),
            state,
            plan: plan_of(alloc, script.as_slice())?,
            fails,
            stop,
            calls: 0,
            faults: 0,
        })
    }

    /// Counts the call that begins, and tells whether it fails.
    fn begin(&mut self) -> bool
        ensures begun { self.new ≡ begun self.old }
        ensures faulty { IsTrue result ↔ IsFaulty self.old }
    {
        let call = self.calls;
        self.calls = call.saturating_add(1);
        self.fails.as_slice().contains(&call) || is_stopped(self.stop, call)
    }

    /// Lets others act who are due at a call.
    fn meet(&mut self, call: u64) -> Result<(), NoMemory>
        ensures ok { OnOk result (self.new ≡ met call self.old) }
        ensures err { OnErr result (IsMeeting call self.old self.new) }
    {
        act(
            self.alloc,
            &mut self.state,
            &mut self.waiting,
            &mut self.plan,
            call,
        )
    }

    /// Begins a call, and lets others act before it.
    fn face(&mut self, asked: Asked<'_>) -> Result<Turn, NoMemory>
        ensures ok { IfOk result (λ turn. Faces (plain_asked asked.entry) (plain_call turn.call)
            turn.is_faulty self.old self.new) }
        ensures err { OnErr result (IsMeeting self.old.calls (begun self.old) self.new) }
    {
        let number = self.calls;
        let is_faulty = self.begin();
        let call = kept_call(self.alloc, asked)?;
        self.meet(number)?;
        Ok(Turn { call, is_faulty })
    }

    /// Answers a call by the state and makes its entry, and tells why it is refused, where it is.
    fn settle(&mut self, turn: Turn) -> Result<Option<DiskError>, NoMemory>
        requires { is_text (plain_call turn.call) ≡ true }
        ensures ok { IfOk result (λ refused. Settles refused turn.is_faulty (plain_call turn.call)
            self.old self.new) }
        ensures err { OnErr result (self.new ≡ self.old) }
    {
        let refused = self.why(&turn);
        self.enter(turn.call, refused)?;
        Ok(refused)
    }

    /// Why a call is refused, where it is.
    fn why(&self, turn: &Turn) -> Option<DiskError>
        ensures { result ≡ (if turn.now.is_faulty then Some Fault
            else refusal (plain_call turn.now.call) (tree_now self.now)) }
    {
        if turn.is_faulty {
            return Some(DiskError::Fault);
        }
        self.state.refusal(&turn.call)
    }

    /// Makes the entry of a call.
    fn enter(&mut self, call: Call, refused: Option<DiskError>) -> Result<(), NoMemory>
        requires text { is_text (plain_call call) ≡ true }
        requires allowed { IsAllowed (plain_call call) (answer_by_refusal refused)
            (tree_now self.old) }
        ensures ok { OnOk result (self.new ≡ entered refused (plain_call call) self.old) }
        ensures err { OnErr result (self.new ≡ self.old) }
        ensures faults { self.old.faults ≤ self.new.faults }
        ensures cause { OnOk result (refused ≡ Some Fault → Rose self.old.faults self.new.faults) }
    {
        enter(
            self.alloc,
            &mut self.state,
            &mut self.waiting,
            &mut self.journal,
            call,
            refused,
        )?;
        self.faults = faults_after(self.faults, refused);
        Ok(())
    }

    /// A call that gives nothing.
    fn change(&mut self, asked: Asked<'_>) -> Result<(), DiskError>
        requires { is_look (plain_asked asked) ≡ false }
        ensures step { DoesStep result (plain_asked asked.entry) (seen_of self.old)
            (seen_of self.new) }
        ensures plays { Plays result (plain_asked asked.entry) self.old self.new }
    {
        let Ok(turn) = self.face(asked) else {
            return Err(DiskError::NoMemory);
        };
        match self.settle(turn) {
            Ok(None) => Ok(()),
            Ok(Some(why)) => Err(why),
            Err(_) => Err(DiskError::NoMemory),
        }
    }
}

/// The faults behind a call that was refused so, or not.
fn faults_after(faults: u64, refused: Option<DiskError>) -> u64
    ensures faults { result ≡ faults_by refused faults }
    ensures later { faults ≤ result }
    ensures cause { refused ≡ Some Fault → Rose faults result }
{
    match refused {
        Some(DiskError::Fault) => faults.saturating_add(1),
        _ => faults,
    }
}

/// All calls from the one of that number on fail.
fn is_stopped(stop: Option<u64>, call: u64) -> bool
    ensures { IsTrue result ↔ IsStopped stop call }
{
    match stop {
        Some(stop) => stop <= call,
        None => false,
    }
}

impl Disk for MemoryDisk {
    ghost seen = { seen_of };

    fn mark(&self) -> u64 {
        self.journal.len() as u64
    }

    fn faults(&self) -> u64 {
        self.faults
    }

    fn image(&self, alloc: Global, names: u64, fill: Fill) -> Result<Option<Tree>, NoMemory> {
        let mut state = self.first.state(alloc)?;
        state.replay(alloc, self.journal.as_slice())?;
        Ok(Some(state.image(alloc, names, fill)?))
    }

    fn list(&mut self, alloc: Global, dir: &str) -> Result<Names, DiskError>
        ensures step { MakesStep (plain_list result) (ListDir dir.now)
            (λ tree. list_of tree dir.now) 0
            (seen_of self.old) (seen_of self.new) }
        ensures looks { LooksOnly (seen_of self.old).told (seen_of self.new).told }
        ensures text { IfOk result (λ names. AreText names.items) }
        ensures plays { Plays result (ListDir dir.now) self.old self.new }
    {
        let Ok(turn) = self.face(Asked::ListDir(dir)) else {
            return Err(DiskError::NoMemory);
        };
        let Ok(names) = self.state.names_in(alloc, dir) else {
            return Err(DiskError::NoMemory);
        };
        match self.settle(turn) {
            Ok(None) => Ok(names),
            Ok(Some(why)) => Err(why),
            Err(_) => Err(DiskError::NoMemory),
        }
    }

    fn stat(&mut self, path: &str) -> Result<Stat, DiskError>
        ensures step { MakesStep result (StatPath path.now) (λ tree. stat_of tree path.now) 0
            (seen_of self.old) (seen_of self.new) }
        ensures looks { LooksOnly (seen_of self.old).told (seen_of self.new).told }
        ensures plain { IfOk result IsPlainStat }
        ensures plays { Plays result (StatPath path.now) self.old self.new }
    {
        let Ok(turn) = self.face(Asked::StatPath(path)) else {
            return Err(DiskError::NoMemory);
        };
        let answer = self.state.stat(path);
        match self.settle(turn) {
            Ok(None) => answer,
            Ok(Some(why)) => Err(why),
            Err(_) => Err(DiskError::NoMemory),
        }
    }

    fn read_front(&mut self, path: &str, into: &mut [u8]) -> Result<usize, DiskError>
        ensures step { MakesStep (plain_front result into.new)
            (ReadFront path.now (length into.old))
            (λ tree. front_of tree path.now (length into.old)) (front_length result)
            (seen_of self.old) (seen_of self.new) }
        ensures looks { LooksOnly (seen_of self.old).told (seen_of self.new).told }
        ensures front { LeavesFront result into.old into.new }
        ensures plays { Plays result (ReadFront path.now (length into.old)) self.old self.new }
    {
        let Ok(turn) = self.face(Asked::ReadFront(path, into.len())) else {
            return Err(DiskError::NoMemory);
        };
        match self.settle(turn) {
            Ok(None) => {}
            Ok(Some(why)) => return Err(why),
            Err(_) => return Err(DiskError::NoMemory),
        }
        let count = put_front(self.state.bytes_at(path), into);
        Ok(count)
    }

    fn read_all(&mut self, alloc: Global, path: &str, limit: u64) -> Result<FileRead, DiskError>
        ensures step { MakesStep (plain_read result) (ReadAll path.now limit)
            (λ tree. read_of tree path.now limit)
            (read_length result) (seen_of self.old) (seen_of self.new) }
        ensures looks { LooksOnly (seen_of self.old).told (seen_of self.new).told }
        ensures whole { IfOk result (IsWhole limit) }
        ensures plays { Plays result (ReadAll path.now limit) self.old self.new }
    {
        let Ok(turn) = self.face(Asked::ReadAll(path, limit)) else {
            return Err(DiskError::NoMemory);
        };
        let Ok(answer) = self.state.read(alloc, path, limit) else {
            return Err(DiskError::NoMemory);
        };
        match self.settle(turn) {
            Ok(None) => answer,
            Ok(Some(why)) => Err(why),
            Err(_) => Err(DiskError::NoMemory),
        }
    }

    fn create(&mut self, _alloc: Global, path: &str) -> Result<(), DiskError>
        ensures step { DoesStep result (Create path.now) (seen_of self.old) (seen_of self.new) }
        ensures plays { Plays result (Create path.now) self.old self.new }
    {
        self.change(Asked::Create(path))
    }

    fn write_at(
        &mut self,
        alloc: Global,
        path: &str,
        at: u64,
        bytes: &[u8],
    ) -> Result<(), DiskError>
        ensures step { DoesStep result (WriteAt path.now at bytes.now) (seen_of self.old)
            (seen_of self.new) }
        ensures plays { Plays result (WriteAt path.now at bytes.now) self.old self.new }
    {
        self.change(Asked::WriteAt(path, at, bytes))
    }

    fn cut(&mut self, _alloc: Global, path: &str, length: u64) -> Result<(), DiskError>
        ensures step { DoesStep result (Cut path.now length) (seen_of self.old) (seen_of self.new) }
        ensures plays { Plays result (Cut path.now length) self.old self.new }
    {
        self.change(Asked::Cut(path, length))
    }

    fn sync(&mut self, _alloc: Global, path: &str) -> Result<(), DiskError>
        ensures step { DoesStep result (Sync path.now) (seen_of self.old) (seen_of self.new) }
        ensures plays { Plays result (Sync path.now) self.old self.new }
    {
        self.change(Asked::Sync(path))
    }

    fn rename(&mut self, _alloc: Global, from: &str, to: &str) -> Result<(), DiskError>
        ensures step { DoesStep result (Rename from.now to.now) (seen_of self.old)
            (seen_of self.new) }
        ensures plays { Plays result (Rename from.now to.now) self.old self.new }
    {
        self.change(Asked::Rename(from, to))
    }

    fn remove(&mut self, _alloc: Global, path: &str) -> Result<(), DiskError>
        ensures step { DoesStep result (Remove path.now) (seen_of self.old) (seen_of self.new) }
        ensures plays { Plays result (Remove path.now) self.old self.new }
    {
        self.change(Asked::Remove(path))
    }

    fn sync_dir(&mut self, _alloc: Global, dir: &str) -> Result<(), DiskError>
        ensures step { DoesStep result (SyncDir dir.now) (seen_of self.old) (seen_of self.new) }
        ensures plays { Plays result (SyncDir dir.now) self.old self.new }
    {
        self.change(Asked::SyncDir(dir))
    }

    fn make_dir(&mut self, _alloc: Global, path: &str) -> Result<(), DiskError>
        ensures step { DoesStep result (MakeDir path.now) (seen_of self.old) (seen_of self.new) }
        ensures plays { Plays result (MakeDir path.now) self.old self.new }
    {
        self.change(Asked::MakeDir(path))
    }
}
