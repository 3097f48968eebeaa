//! One core of the machine.
ghost use Rattle.std.specs.Prelude.{◌≡◌, ℕ, ◌<◌, false, IfOk};
ghost use Rattle.pmsi_model.specs.Effect.{reg_of};
ghost use Rattle.pmsi_model.specs.Geometry.{CanKeep, IsGeometry};
ghost use Rattle.pmsi_model.specs.Job.{JobValue};
ghost use Rattle.pmsi_model.specs.Named.{state_of};
ghost use Rattle.pmsi_model.specs.Parts.{IsBusPart};
ghost use Rattle.pmsi_model.specs.Phase.{phase};
ghost use Rattle.pmsi_model.specs.Run.{machine_at};

use crate::program::Program;
use crate::reserved::ReservedList;
use crate::state::State;
use cache_array::CacheArray;
use cache_ctrl::LineStates;
use pend_buffers::Pending;
use pmsi_model::{
    Action, BusPort, Geometry, Job, Keep, NoMemory, Reg, Row, SlotTable, State as LineName, Status,
    Touch,
};
use rv_exec::Regs;
use slot_plan::count_own;
use std::alloc::Global;
use std::marker::Model;

/// A core with its cache, in a slot.
#[derive(Drop)]
pub struct Core {
    state: State,
}

impl Model for Core {
    ghost use Rattle.core_unit.specs.declared.state.State.{State};
    ghost use Rattle.core_unit.specs.Parts.{IsCore};

    ghost Value = { State };

    ghost view = { λ a. a.state };

    ghost invariant = { λ a. IsCore a.state };
}

impl Core {
    ghost use Rattle.core_unit.specs.Acts.{IsActed, IsSnooped};
    ghost use Rattle.core_unit.specs.Parts.{CanAct, CanSnoop, IsPart, IsPartAfter};

    /// A core of a job before its first slot. Room is taken here for the rows, one for each own slot, and where accesses
    /// are to be kept for them, one for each instruction that the core can take; no later call but `copy` takes memory.
    pub fn open(alloc: Global, job: &Job, core: u32, keep: Keep) -> Result<Core, NoMemory>
        requires core { core < job.now.shape.cores }
        requires touches { CanKeep keep job.now.shape }
        ensures part { IfOk result (λ v. IsPart job.now 0 core v) }
        ensures keeps { IfOk result (λ v. v.keeps ≡ keep.touches) }
    {
        let shape = job.shape();
        let plan = SlotTable::plain(shape.cores);
        let text = Program::decoded(alloc, job.text(core).as_slice())?;
        let rows = count_own(&plan, core, shape.slots) as usize;
        let touches = if keep.touches {
            (shape.slots * shape.quantum) as usize
        } else {
            0
        };
        Ok(Core {
            state: State {
                number: core,
                shape,
                plan,
                text,
                slot: 0,
                phase_done: false,
                regs: Regs::start(core, shape.cores),
                pc: 0,
                status: Status::Running,
                retired: 0,
                cache: CacheArray::new(alloc, shape)?,
                pending: Pending::new(shape.cores),
                states: LineStates::new(),
                rows: ReservedList::with_room(alloc, rows)?,
                keeps: keep.touches,
                touches: ReservedList::with_room(alloc, touches)?,
            },
        })
    }

    /// An equal core, with the same room taken.
    pub fn copy(&self, alloc: Global) -> Result<Core, NoMemory>
        ensures { IfOk result (λ v. v ≡ self.now) }
    {
        Ok(Core {
            state: self.state.copy(alloc)?,
        })
    }

    /// The core's number, below the number of cores.
    pub fn number(&self) -> u32
        ensures { result ≡ self.now.number }
    {
        self.state.number
    }

    /// The job's shape.
    pub fn shape(&self) -> Geometry
        ensures value { result ≡ self.now.shape }
        ensures within { IsGeometry result }
    {
        self.state.shape
    }

    /// Whose slots they are.
    pub fn table(&self) -> &SlotTable
        ensures { result.now ≡ self.now.plan }
    {
        &self.state.plan
    }

    /// The slot in which the core is.
    pub fn slot(&self) -> u32
        ensures { result ≡ self.now.slot }
    {
        self.state.slot
    }

    /// Whether the phase of the slot is done.
    pub fn phase_done(&self) -> bool
        ensures { result ≡ self.now.phase_done }
    {
        self.state.phase_done
    }

    /// What a register holds; x0 holds 0.
    pub fn reg(&self, r: Reg) -> u32
        ensures { result ≡ reg_of self.now.regs r }
    {
        self.state.regs.get(r)
    }

    /// The 32 registers.
    pub fn regs(&self) -> &[u32]
        ensures { result.now ≡ self.now.regs }
    {
        self.state.regs.as_slice()
    }

    /// The address, in bytes, of the next instruction, or of the one that halted the core.
    pub fn pc(&self) -> u32
        ensures { result ≡ self.now.pc }
    {
        self.state.pc
    }

    /// Whether the core runs, or what halted it.
    pub fn status(&self) -> Status
        ensures { result ≡ self.now.status }
    {
        self.state.status
    }

    /// The instructions that were retired.
    pub fn retired(&self) -> u64
        ensures { result ≡ self.now.retired }
    {
        self.state.retired
    }

    /// The core's side of the bus.
    pub fn pending(&self) -> &Pending
        ensures { result.now ≡ self.now.pending }
    {
        &self.state.pending
    }

    /// The core's cache.
    pub fn cache(&self) -> &CacheArray
        ensures { result.now ≡ self.now.cache }
    {
        &self.state.cache
    }

    /// The state of a line, which is the machine's. A line that memory doesn't have is I.
    pub fn state_name(&self, line: u32) -> LineName
        ensures at { (job : JobValue) (slot c : ℕ) → IsPart job slot c self.now → result ≡ state_of (machine_at job slot) c line }
        ensures after { (job : JobValue) (slot c : ℕ) → IsPartAfter job slot c self.now → result ≡ state_of (phase job c (machine_at job slot)) c line }
    {
        self.state.state_name(line)
    }

    /// The requests of the core that were served, by the slot of their fill.
    pub fn rows(&self) -> &[Row]
        ensures { result.now ≡ self.now.rows.items }
    {
        self.state.rows.as_slice()
    }

    /// Whether the core keeps its accesses.
    pub fn keeps(&self) -> bool
        ensures { result ≡ self.now.keeps }
    {
        self.state.keeps
    }

    /// The core's accesses in the order in which they were done, where they are kept; else none.
    pub fn touches(&self) -> &[Touch]
        ensures { result.now ≡ self.now.touches.items }
    {
        self.state.touches.as_slice()
    }

    /// The phase of the slot.
    pub fn phase(&mut self)
        requires fresh { self.old.phase_done ≡ false }
        requires more { self.old.slot < self.old.shape.slots }
        ensures phased { (job : JobValue) (slot c : ℕ) → slot < job.shape.slots → IsPart job slot c self.old → IsPartAfter job slot c self.new }
        ensures keeps { self.new.keeps ≡ self.old.keeps }
    {
        self.state.phase();
    }

    /// The core's action in a slot of its own, which ends the slot.
    pub fn act<P: BusPort>(&mut self, bus: &mut P) -> Action
        requires { CanAct self.old (P.side bus.old) }
        ensures acted { (job : JobValue) (slot c : ℕ) → IsPartAfter job slot c self.old → IsBusPart job slot (P.side bus.old) →
            IsActed job slot c result self.new (P.side bus.new) }
        ensures keeps { self.new.keeps ≡ self.old.keeps }
        ensures bus_keeps { (P.side bus.new).keeps ≡ (P.side bus.old).keeps }
    {
        self.state.act(bus)
    }

    /// Snoops the action of another core, which owns the slot. It ends the slot.
    pub fn snoop(&mut self, by: u32, action: Action)
        requires { CanSnoop by action self.old }
        ensures snooped { IsSnooped by action self.old self.new }
        ensures keeps { self.new.keeps ≡ self.old.keeps }
    {
        self.state.snoop(action);
    }
}
