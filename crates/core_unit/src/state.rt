//! What a core has: registers, cache, and its side of the bus.
ghost use Rattle.std.specs.Prelude.{◌≡◌, IfOk};

use crate::program::Program;
use crate::reserved::ReservedList;
use cache_array::CacheArray;
use cache_ctrl::LineStates;
use pend_buffers::Pending;
use pmsi_model::{Geometry, NoMemory, Row, SlotTable, Status, Touch};
use rv_exec::Regs;
use std::alloc::Global;

/// A core, with what it has of the machine's run.
#[derive(Drop)]
pub struct State {
    pub number: u32,
    pub shape: Geometry,
    pub plan: SlotTable,
    pub text: Program,
    pub slot: u32,
    /// The phase of the slot is done, and the slot's action isn't done or snooped yet.
    pub phase_done: bool,
    pub regs: Regs,
    pub pc: u32,
    pub status: Status,
    pub retired: u64,
    pub cache: CacheArray,
    pub pending: Pending,
    /// The states of the lines that have something on their way.
    pub states: LineStates,
    /// The requests that were served, in a room for one in each own slot.
    pub rows: ReservedList<Row>,
    /// Whether accesses are kept.
    pub keeps: bool,
    /// The accesses that were done, where they are kept, in a room for one for each instruction of each slot.
    pub touches: ReservedList<Touch>,
}

impl State {
    /// An equal state, with the same room taken.
    pub fn copy(&self, alloc: Global) -> Result<State, NoMemory>
        ensures { IfOk result (λ v. v ≡ self.now) }
    {
        Ok(State {
            number: self.number,
            shape: self.shape,
            plan: self.plan.copy(),
            text: self.text.copy(alloc)?,
            slot: self.slot,
            phase_done: self.phase_done,
            regs: self.regs.copy(),
            pc: self.pc,
            status: self.status,
            retired: self.retired,
            cache: self.cache.copy(alloc)?,
            pending: self.pending.copy(),
            states: self.states.copy(),
            rows: self.rows.copy(alloc)?,
            keeps: self.keeps,
            touches: self.touches.copy(alloc)?,
        })
    }
}
