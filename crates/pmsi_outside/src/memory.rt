//! Files, sinks and a gate in memory.
mod schedule;
mod shelf;

ghost use Rattle.std.specs.Prelude.{◌≡◌, ◌≤◌, ◌<◌, None, Ok, length};

use crate::{Failed, Files, Gate, Sink};
use schedule::Schedule;
use shelf::Shelf;
use std::marker::Model;

/// Files that give at most so many bytes a read, and whose calls of `open` and `read`, numbered together from 1, fail where
/// they are told to. An `open` of a name that isn't listed fails too.
#[derive(Debug, Drop)]
pub struct MemoryFiles {
    shelf: Shelf,
    schedule: Schedule,
    step: u32,
}

impl Model for MemoryFiles {
    ghost use Rattle.std.specs.Prelude.{◌≤◌};
    ghost use Rattle.pmsi_outside.specs.Memory.{MemoryFilesValue};

    ghost Value = { MemoryFilesValue };

    ghost view = { λ a. record { shelf = a.shelf; schedule = a.schedule; step = a.step } };

    ghost invariant = { λ a. 1 ≤ a.step };
}

impl MemoryFiles {
    ghost use Rattle.pmsi_outside.specs.Memory.{entries_of, new_files};

    /// Files by their names and bytes, which give `step` bytes a read at most, and of whose calls those fail that have one of
    /// the numbers `fails`. Of entries with one name the first counts.
    pub fn new(list: Vec<(String, Vec<u8>)>, step: u32, fails: Vec<u64>) -> MemoryFiles
        requires { 1 ≤ step }
        ensures { result ≡ new_files (entries_of list.items) fails.items step }
    {
        MemoryFiles {
            shelf: Shelf::new(list),
            schedule: Schedule::new(fails),
            step,
        }
    }
}

impl Files for MemoryFiles {
    ghost use Rattle.std.specs.Prelude.{◌≡◌, ◌↔◌, ◌≤◌, [], Some, false, IsOk, IfOk, OnOk, OnErr, IsSome, IfSome, IsSomeAnd, string_bytes};
    ghost use Rattle.pmsi_outside.specs.Memory.{contents_of, left_of, name_of, fails_next, after_found, after_failure, read_call, GivesStep};

    ghost contents = { λ m. Some (contents_of m.shelf.entries) };

    ghost left = { λ m. left_of m.shelf };

    ghost open_name = { λ m. name_of m.shelf };

    ghost blamed = { λ m. m.shelf.blamed };

    ghost faults = { λ m. m.shelf.faults };

    ghost steady = { λ m. m.schedule.fails ≡ [] };

    fn open(&mut self, name: String) -> Result<(), Failed>
        ensures answer { IsOk result ↔ ((fails_next self.old.schedule ≡ false) × IsSome (contents_of self.old.shelf.entries (string_bytes name))) }
        ensures failed { OnErr result (self.new ≡ after_failure self.old (string_bytes name)) }
        ensures opened { OnOk result (IfSome (contents_of self.old.shelf.entries (string_bytes name))
            (λ bytes. self.new ≡ after_found self.old (string_bytes name) bytes)) }
    {
        if self.schedule.next() {
            self.shelf.fail(name);
            return Err(Failed);
        }
        self.shelf.open(name)
    }

    fn read(&mut self, buf: &mut [u8]) -> Result<usize, Failed>
        requires { IsSome (name_of self.old.shelf) }
        ensures answer { IsOk result ↔ (fails_next self.old.schedule ≡ false) }
        ensures step { 1 ≤ self.old.step }
        ensures failed { OnErr result (IsSomeAnd (name_of self.old.shelf) (λ name. self.new ≡ after_failure self.old name)) }
        ensures given { IfOk result (λ count. IsSomeAnd self.old.shelf.file (GivesStep self.old self.new (read_call buf.old buf.new count))) }
    {
        if self.schedule.next() {
            self.shelf.fail_open();
            return Err(Failed);
        }
        Ok(self.shelf.read(self.step as usize, buf))
    }
}

/// Files that give as much as fits a read, and of which only an `open` of a name that isn't listed fails.
#[derive(Debug, Drop)]
pub struct SteadyFiles {
    shelf: Shelf,
}

impl Model for SteadyFiles {
    ghost use Rattle.pmsi_outside.specs.Memory.{ShelfValue};

    ghost Value = { ShelfValue };

    ghost view = { λ a. a.shelf };
}

impl SteadyFiles {
    ghost use Rattle.pmsi_outside.specs.Memory.{entries_of, new_shelf};

    /// Files by their names and bytes. Of entries with one name the first counts.
    pub fn new(list: Vec<(String, Vec<u8>)>) -> SteadyFiles
        ensures { result ≡ new_shelf (entries_of list.items) }
    {
        SteadyFiles {
            shelf: Shelf::new(list),
        }
    }
}

impl Files for SteadyFiles {
    ghost use Rattle.std.specs.Prelude.{◌≡◌, ◌↔◌, ⊤, Some, IsOk, IfOk, OnOk, OnErr, IsSome, IfSome, IsSomeAnd, length, string_bytes};
    ghost use Rattle.pmsi_outside.specs.Memory.{contents_of, left_of, name_of, opened, failed, read_call, Gives};

    ghost contents = { λ m. Some (contents_of m.entries) };

    ghost left = { left_of };

    ghost open_name = { name_of };

    ghost blamed = { λ m. m.blamed };

    ghost faults = { λ m. m.faults };

    ghost steady = { λ _. ⊤ };

    fn open(&mut self, name: String) -> Result<(), Failed>
        ensures answer { IsOk result ↔ IsSome (contents_of self.old.entries (string_bytes name)) }
        ensures failed { OnErr result (self.new ≡ failed self.old (string_bytes name)) }
        ensures opened { OnOk result (IfSome (contents_of self.old.entries (string_bytes name))
            (λ bytes. self.new ≡ opened self.old (string_bytes name) bytes)) }
    {
        self.shelf.open(name)
    }

    fn read(&mut self, buf: &mut [u8]) -> Result<usize, Failed>
        requires { IsSome (name_of self.old) }
        ensures answer { IsOk result }
        ensures given { IfOk result (λ count. IsSomeAnd self.old.file (Gives (length buf.old) self.old self.new (read_call buf.old buf.new count))) }
    {
        let most = buf.len();
        Ok(self.shelf.read(most, buf))
    }
}

/// A sink that fills the room that it is given from the front, at most so many bytes a call, and whose calls, numbered from
/// 1, fail where they are told to and where no room is left.
#[derive(Debug, Drop)]
pub struct MemorySink {
    room: Vec<u8>,
    held: usize,
    step: u32,
    schedule: Schedule,
    faults: u64,
}

impl Model for MemorySink {
    ghost use Rattle.std.specs.Prelude.{◌≤◌, ◌-◌, take, length};
    ghost use Rattle.pmsi_outside.specs.Memory.{MemorySinkValue};

    ghost Value = { MemorySinkValue };

    ghost view = { λ a. record {
      held = take a.held a.room.items;
      room = length a.room.items - a.held;
      step = a.step;
      schedule = a.schedule;
      faults = a.faults;
    } };

    ghost invariant = { λ a. (1 ≤ a.step) × (a.held ≤ length a.room.items) };
}

impl MemorySink {
    ghost use Rattle.std.specs.Prelude.{◌≡◌, ◌≤◌, length};
    ghost use Rattle.pmsi_outside.specs.Memory.{new_sink};

    /// A sink with this room, which takes `step` bytes a call at most, and of whose calls those fail that have one of the
    /// numbers `fails`. What the bytes of the room are doesn't matter.
    pub fn new(room: Vec<u8>, step: u32, fails: Vec<u64>) -> MemorySink
        requires { 1 ≤ step }
        ensures { result ≡ new_sink (length room.items) fails.items step }
    {
        MemorySink {
            room,
            held: 0,
            step,
            schedule: Schedule::new(fails),
            faults: 0,
        }
    }

    /// What it holds.
    pub fn bytes(&self) -> &[u8]
        ensures { result.now ≡ self.now.held }
    {
        &self.room[..self.held]
    }
}

impl Sink for MemorySink {
    ghost use Rattle.std.specs.Prelude.{◌≡◌, ◌↔◌, ◌⊎◌, ◌<◌, ◌≤◌, Some, true, IsErr, IfOk, OnErr, length};
    ghost use Rattle.pmsi_outside.specs.Memory.{fails_next, sink_failure, Takes};

    ghost held = { λ m. Some m.held };

    ghost faults = { λ m. m.faults };

    fn write(&mut self, piece: &[u8]) -> Result<usize, Failed>
        requires { 0 < length piece.now }
        ensures answer { IsErr result ↔ ((fails_next self.old.schedule ≡ true) ⊎ (self.old.room ≡ 0)) }
        ensures failed { OnErr result (self.new ≡ sink_failure self.old) }
        ensures taken { IfOk result (Takes self.old self.new piece.now) }
        ensures step { 1 ≤ self.old.step }
    {
        let room = self.room.len() - self.held;
        if self.schedule.next() || room == 0 {
            self.faults = self.faults.saturating_add(1);
            return Err(Failed);
        }
        let count = piece.len().min(self.step as usize).min(room);
        self.room[self.held..self.held + count].copy_from_slice(&piece[..count]);
        self.held += count;
        Ok(count)
    }
}

/// A sink that takes everything, keeps nothing and never fails.
#[derive(Clone, Copy, Debug, PartialEq, Eq)]
pub struct NullSink;

impl NullSink {
    /// Another such sink.
    pub fn new() -> NullSink {
        NullSink
    }
}

impl Sink for NullSink {
    ghost held = { λ _. None };

    ghost faults = { λ _. 0 };

    fn write(&mut self, piece: &[u8]) -> Result<usize, Failed>
        requires { 0 < length piece.now }
        ensures { result ≡ Ok (length piece.now) }
    {
        Ok(piece.len())
    }
}

/// A gate that lets each phase start at once.
#[derive(Clone, Copy, Debug, PartialEq, Eq)]
pub struct OpenGate;

impl OpenGate {
    /// Another such gate.
    pub fn new() -> OpenGate {
        OpenGate
    }
}

impl Gate for OpenGate {
    fn before(&self, _core: u32, _slot: u32) {}
}
