//! The simulator of a whole machine on one thread.
ghost use Rattle.std.specs.Prelude.{◌≡◌, ℕ, ◌+◌, ◌%◌, ◌<◌, ◌≤◌, ◌==◌, IfOk, length, slice_get, true};
ghost use Rattle.std.specs.List.{filter};
ghost use Rattle.pmsi_model.specs.declared.limits.TheConstants.{MAX_SLOTS};
ghost use Rattle.pmsi_model.specs.declared.Keep.{Keep};
ghost use Rattle.pmsi_model.specs.Geometry.{CanKeep, IsGeometry};
ghost use Rattle.pmsi_model.specs.Job.{JobValue};
ghost use Rattle.pmsi_model.specs.Named.{state_of};
ghost use Rattle.pmsi_model.specs.Phase.{bytes_from};
ghost use Rattle.pmsi_model.specs.Rows.{open_row_of, rows_of};
ghost use Rattle.pmsi_model.specs.Run.{machine_at};
ghost use Rattle.pmsi_model.specs.Parts.{IsBusPart};
ghost use Rattle.pmsi_model.specs.Shared.{IsLine};
ghost use Rattle.pmsi_model.specs.Words.{number_of};

use crate::cores::{copy_cores, take_slot};
use bus_core::Bus;
use core_unit::{Core, open_cores};
use pmsi_model::{BusPort, Geometry, Job, Keep, Mode, NoMemory, OpenRow, Row, State};
use std::alloc::Global;
use std::marker::Model;

/// A machine at a slot boundary: its cores, each with its cache, and their bus.
#[derive(Drop)]
pub struct Sim {
    cores: Vec<Core>,
    bus: Bus,
}

impl Model for Sim {
    ghost use Rattle.sim_serial.specs.Sims.{IsSim, SimValue};

    ghost Value = { SimValue };

    ghost view = { λ a. record { cores = a.cores.items; bus = a.bus } };

    ghost invariant = { λ a. IsSim (record { cores = a.cores.items; bus = a.bus }) };
}

impl Sim {
    ghost use Rattle.core_unit.specs.Parts.{IsPart, own_touches};
    ghost use Rattle.core_unit.specs.State.{core_of};
    ghost use Rattle.sim_serial.specs.Cores.{AreWith};
    ghost use Rattle.sim_serial.specs.Sims.{CanJoin, IsSim, IsSimOf, Keeps, shape_of, sim_with, slot_of};

    /// The machine of a job before its first slot. All room is taken here, also for the actions and the accesses that are
    /// to be kept; no later call but `copy` takes memory.
    pub fn open(alloc: Global, job: &Job, keep: Keep) -> Result<Sim, NoMemory>
        requires { CanKeep keep job.now.shape }
        ensures part { IfOk result (λ sim. IsSimOf job.now 0 sim) }
        ensures keeps { IfOk result (λ sim. Keeps keep sim) }
    {
        Ok(Sim {
            cores: open_cores(alloc, job, keep)?,
            bus: Bus::open(alloc, job, keep)?,
        })
    }

    /// The machine of these cores and this bus. It takes no memory.
    pub fn from_parts(cores: Vec<Core>, bus: Bus) -> Sim
        requires { CanJoin cores.items bus }
        ensures value { result ≡ sim_with cores.items bus }
        ensures of_job { (job : JobValue) (slot : ℕ) → AreWith job slot cores.items bus → IsSimOf job slot result }
        ensures keeps { (keep : Keep) → Keeps keep (sim_with cores.items bus) → Keeps keep result }
    {
        Sim { cores, bus }
    }

    /// An equal machine, with the same room taken.
    pub fn copy(&self, alloc: Global) -> Result<Sim, NoMemory>
        ensures { IfOk result (λ sim. sim ≡ self.now) }
    {
        Ok(Sim {
            cores: copy_cores(alloc, self.cores.as_slice())?,
            bus: self.bus.copy(alloc)?,
        })
    }

    /// One slot. It takes no memory.
    pub fn step(&mut self)
        requires { slot_of self.old < (shape_of self.old).slots }
        ensures machine { (job : JobValue) (slot : ℕ) → IsSimOf job slot self.old → IsSimOf job (slot + 1) self.new }
        ensures slot { slot_of self.new ≡ slot_of self.old + 1 }
        ensures shape { shape_of self.new ≡ shape_of self.old }
        ensures keeps { (keep : Keep) → Keeps keep self.old → Keeps keep self.new }
    {
        take_slot(&mut self.cores, &mut self.bus);
    }

    /// The slots that are left. It takes no memory.
    pub fn run(&mut self)
        ensures machine { (job : JobValue) (slot : ℕ) → IsSimOf job slot self.old → IsSimOf job job.shape.slots self.new }
        ensures slot { slot_of self.new ≡ (shape_of self.new).slots }
        ensures shape { shape_of self.new ≡ shape_of self.old }
        ensures keeps { (keep : Keep) → Keeps keep self.old → Keeps keep self.new }
    {
        for _slot in self.slot()..self.shape().slots {
            self.step();
        }
    }

    /// The slots that were taken.
    pub fn slot(&self) -> u32
        ensures value { result ≡ slot_of self.now }
        ensures within { result ≤ (shape_of self.now).slots }
        ensures machine { (job : JobValue) (slot : ℕ) → IsSimOf job slot self.now → result ≡ slot }
    {
        self.bus.slot()
    }

    /// The job's shape.
    pub fn shape(&self) -> Geometry
        ensures value { result ≡ shape_of self.now }
        ensures within { IsGeometry result }
        ensures machine { (job : JobValue) (slot : ℕ) → IsSimOf job slot self.now → result ≡ job.shape }
    {
        self.bus.memory().shape()
    }

    /// A core, with its cache and its side of the bus.
    pub fn core(&self, c: u32) -> &Core
        requires { c < (shape_of self.now).cores }
        ensures part { (job : JobValue) (slot : ℕ) → IsSimOf job slot self.now → IsPart job slot c result.now }
        ensures machine { (job : JobValue) (slot : ℕ) → IsSimOf job slot self.now → core_of result.now ≡ (machine_at job slot).cores c }
        ensures rows { (job : JobValue) (slot : ℕ) → IsSimOf job slot self.now → result.now.rows.items ≡ filter (λ row. row.core == c) (rows_of job slot) }
        ensures few { length result.now.rows.items ≤ MAX_SLOTS }
        ensures touches { (job : JobValue) (slot : ℕ) → IsSimOf job slot self.now → result.now.keeps ≡ true →
            result.now.touches.items ≡ own_touches job slot c }
        ensures keeps { (keep : Keep) → Keeps keep self.now → result.now.keeps ≡ keep.touches }
        ensures sim { IsSim self.now }
    {
        &self.cores[c as usize]
    }

    /// The bus, with shared memory.
    pub fn bus(&self) -> &Bus
        ensures value { result.now ≡ self.now.bus }
        ensures part { (job : JobValue) (slot : ℕ) → IsSimOf job slot self.now → IsBusPart job slot result.now }
        ensures keeps { (keep : Keep) → Keeps keep self.now → result.now.keeps ≡ keep.trace }
        ensures sim { IsSim self.now }
    {
        &self.bus
    }

    /// The word at an address of the flat memory: the copy of the line's owner where there is one, else that of shared
    /// memory.
    pub fn word(&self, address: u32) -> u32
        requires aligned { address % 4 ≡ 0 }
        requires within { address < (shape_of self.now).memory }
        ensures { (job : JobValue) (slot : ℕ) → IsSimOf job slot self.now → result ≡ number_of (bytes_from address 4 (machine_at job slot).memory) }
    {
        let memory = self.bus.memory();
        match memory.owner(memory.shape().line_of(address)) {
            Some(owner) => self.core(owner).cache().read_word(address),
            None => memory.word(address),
        }
    }

    /// The named state of a line in a core.
    pub fn state_name(&self, c: u32, line: u32) -> State
        requires core { c < (shape_of self.now).cores }
        requires line { IsLine (shape_of self.now) line }
        ensures { (job : JobValue) (slot : ℕ) → IsSimOf job slot self.now → result ≡ state_of (machine_at job slot) c line }
    {
        self.core(c).state_name(line)
    }

    /// The line at a place of a core's held list, the most recently used at 0.
    pub fn held(&self, c: u32, place: u32) -> Option<(u32, Mode)>
        requires { c < (shape_of self.now).cores }
        ensures { (job : JobValue) (slot : ℕ) → IsSimOf job slot self.now → result ≡ slice_get ((machine_at job slot).cores c).held place }
    {
        self.core(c).cache().held(place)
    }

    /// The requests of a core that were served, by the slot of their fill: at most one a slot.
    pub fn rows(&self, c: u32) -> &[Row]
        requires { c < (shape_of self.now).cores }
        ensures own { (job : JobValue) (slot : ℕ) → IsSimOf job slot self.now → result.now ≡ filter (λ row. row.core == c) (rows_of job slot) }
        ensures few { length result.now ≤ MAX_SLOTS }
    {
        self.core(c).rows()
    }

    /// The request of a core that is open.
    pub fn open_row(&self, c: u32) -> Option<OpenRow>
        requires { c < (shape_of self.now).cores }
        ensures { (job : JobValue) (slot : ℕ) → IsSimOf job slot self.now → result ≡ open_row_of c ((machine_at job slot).cores c).want }
    {
        let want = self.core(c).pending().want()?;
        Some(OpenRow {
            core: c,
            line: want.line,
            kind: want.kind,
            issue: want.issue,
            post: want.post,
        })
    }
}
