//! The bus of a machine.
ghost use Rattle.std.specs.Prelude.{◌≡◌, ℕ, ◌+◌, ◌<◌, ◌≤◌, [], ◌∷◌, ◌++◌, Option, Some, None, true, is_some, if◌then◌else◌, IfOk};
ghost use Rattle.std.specs.Vec.{vec_len, vec_capacity};
ghost use Rattle.pmsi_model.specs.Job.{JobValue};
ghost use Rattle.pmsi_model.specs.Shared.{owner_in, ended};
ghost use Rattle.pmsi_model.specs.Run.{record_at, records};
ghost use Rattle.pmsi_model.specs.Parts.{IsBusPart};
ghost use Rattle.pmsi_model.specs.Slots.{plan_of};
ghost use Rattle.bus_core.specs.Records.{IsBus, is_recent, recent_at, slots_kept};

use circular_buffer::HeapCircularBuffer;
use memory_lut::SharedMemory;
use pmsi_model::{
    Action, Behind, BusPort, Job, Keep, LineWords, Name, NoMemory, Posted, SlotTable,
};
use slot_plan::gap;
use std::alloc::Global;
use std::marker::Model;

/// The bus of a machine, at the boundary of a slot. All room is taken when it is opened.
#[derive(Drop)]
pub struct Bus {
    memory: SharedMemory,
    plan: SlotTable,
    slot: u32,
    /// The actions of the last slots, at most as many as lie between two own slots of a core.
    recent: HeapCircularBuffer<Action>,
    keeps: bool,
    /// The actions of all slots, where they are kept.
    trace: Vec<Action>,
}

impl Model for Bus {
    ghost use Rattle.std.specs.Prelude.{◌≡◌, ◌≤◌};
    ghost use Rattle.std.specs.Vec.{vec_capacity};
    ghost use Rattle.pmsi_model.specs.Shared.{BusSide};
    ghost use Rattle.bus_core.specs.Records.{IsBus, side_with, slots_kept};
    ghost use Rattle.pmsi_model.specs.Slots.{gap_of};

    ghost Value = { BusSide };

    ghost view = { λ a. side_with a.memory a.plan a.slot a.recent.items a.keeps a.trace.items };

    ghost invariant = { λ a.
        IsBus (side_with a.memory a.plan a.slot a.recent.items a.keeps a.trace.items)
        × (a.recent.capacity ≡ gap_of a.plan)
        × (slots_kept a.keeps a.memory.shape.slots ≤ vec_capacity a.trace) };
}

/// An empty list with room for a trace of so many slots, where it is kept.
fn trace_with_room(alloc: Global, keeps: bool, slots: u32) -> Result<Vec<Action>, NoMemory>
    ensures items { IfOk result (λ v. v.items ≡ []) }
    ensures room { IfOk result (λ v. slots_kept keeps slots ≤ vec_capacity v) }
{
    let room = if keeps { slots } else { 0 };
    Ok(Vec::with_capacity(alloc, room as usize)?)
}

/// An equal list, with room for a trace of so many slots, where it is kept.
fn trace_copy(
    alloc: Global,
    trace: &[Action],
    keeps: bool,
    slots: u32,
) -> Result<Vec<Action>, NoMemory>
    ensures items { IfOk result (λ v. v.items ≡ trace.now) }
    ensures room { IfOk result (λ v. slots_kept keeps slots ≤ vec_capacity v) }
{
    let mut copy = trace_with_room(alloc, keeps, slots)?;
    copy.extend_from_slice(trace)?;
    Ok(copy)
}

/// An equal buffer.
fn recent_copy(
    alloc: Global,
    recent: &HeapCircularBuffer<Action>,
) -> Result<HeapCircularBuffer<Action>, NoMemory>
    ensures { IfOk result (λ b. b ≡ recent.now) }
{
    let mut copy = HeapCircularBuffer::with_capacity(alloc, recent.capacity())?;
    let (front, back) = recent.as_slices();
    copy.extend_from_slice(front);
    copy.extend_from_slice(back);
    Ok(copy)
}

/// An action goes last, where they are kept.
fn note(trace: &mut Vec<Action>, keeps: bool, action: Action)
    requires { slots_kept keeps (vec_len trace.old + 1) ≤ vec_capacity trace.old }
    ensures items { trace.new.items ≡ (if keeps then trace.old.items ++ action ∷ [] else trace.old.items) }
    ensures capacity { vec_capacity trace.new ≡ vec_capacity trace.old }
{
    if keeps {
        trace.push_reserved(action);
    }
}

impl Bus {
    /// The bus of a job before its first slot. All room is taken here: no later call takes memory but `copy`.
    pub fn open(alloc: Global, job: &Job, keep: Keep) -> Result<Bus, NoMemory>
        ensures part { IfOk result (λ b. IsBusPart job.now 0 b) }
        ensures keeps { IfOk result (λ b. b.keeps ≡ keep.trace) }
        ensures posted { IfOk result (λ b. b.memory.posted ≡ []) }
        ensures owners { IfOk result (λ b. (line : ℕ) → owner_in b.memory line ≡ None) }
    {
        let shape = job.shape();
        let plan = SlotTable::plain(shape.cores);
        let recent = HeapCircularBuffer::with_capacity(alloc, gap(&plan) as usize)?;
        Ok(Bus {
            memory: SharedMemory::new(alloc, shape, job.start())?,
            plan,
            slot: 0,
            recent,
            keeps: keep.trace,
            trace: trace_with_room(alloc, keep.trace, shape.slots)?,
        })
    }

    /// The shared memory, with the posted requests and the owners of lines.
    pub fn memory(&self) -> &SharedMemory
        ensures memory { result.now ≡ self.now.memory }
        ensures bus { IsBus self.now }
    {
        &self.memory
    }

    /// Whose slots they are.
    pub fn table(&self) -> &SlotTable
        ensures table { result.now ≡ self.now.plan }
        ensures bus { IsBus self.now }
    {
        &self.plan
    }

    /// Whether the actions of all slots are kept.
    pub fn keeps(&self) -> bool
        ensures { result ≡ self.now.keeps }
    {
        self.keeps
    }

    fn recent_action(&self, slot: u32) -> Option<Action>
        ensures action { result ≡ recent_at slot self.now }
        ensures known { is_some result ≡ is_recent self.now.plan slot self.now.slot }
    {
        if slot >= self.slot {
            return None;
        }
        let back = self.slot - slot - 1;
        self.recent.nth_back(back as usize).copied()
    }

    /// The action of one of the last slots, as many as lie between two own slots of a core.
    pub fn record_at(&self, slot: u32) -> Option<Action>
        ensures recent { result ≡ recent_at slot self.now }
        ensures known { is_some result ≡ is_recent self.now.plan slot self.now.slot }
        ensures of_job { (job : JobValue) (s : ℕ) → IsBusPart job s self.now →
            result ≡ (if is_recent (plan_of job) slot s then Some (record_at job slot) else None) }
    {
        self.recent_action(slot)
    }

    /// The actions of all slots, where they are kept.
    pub fn trace(&self) -> &[Action]
        ensures trace { result.now ≡ self.now.trace }
        ensures of_job { (job : JobValue) (s : ℕ) → IsBusPart job s self.now → self.now.keeps ≡ true → result.now ≡ records job s }
    {
        self.trace.as_slice()
    }

    /// An equal bus, with all room that it will need.
    pub fn copy(&self, alloc: Global) -> Result<Bus, NoMemory>
        ensures { IfOk result (λ b. b ≡ self.now) }
    {
        let slots = self.memory.shape().slots;
        Ok(Bus {
            memory: self.memory.copy(alloc)?,
            plan: self.plan.copy(),
            slot: self.slot,
            recent: recent_copy(alloc, &self.recent)?,
            keeps: self.keeps,
            trace: trace_copy(alloc, self.trace.as_slice(), self.keeps, slots)?,
        })
    }

    /// Ends the slot with an action.
    fn end(&mut self, action: Action)
        requires { self.old.slot < self.old.memory.shape.slots }
        ensures { self.new ≡ ended action self.old.memory self.old }
    {
        self.recent.push_back(action);
        note(&mut self.trace, self.keeps, action);
        self.slot += 1;
    }
}

impl BusPort for Bus {
    ghost side = { λ b. b };

    fn slot(&self) -> u32 {
        self.slot
    }

    fn ready(&self, core: u32) -> bool {
        self.memory.ready(core)
    }

    fn post(&mut self, core: u32, line: u32, name: Name, words: &mut LineWords) -> Posted {
        self.memory.post(core, line, name.kind());
        if self.memory.ready(core) {
            self.memory.fill(core, words);
            self.end(Action::PostFill(name, line));
            Posted::Filled
        } else {
            self.end(Action::Post(name, line));
            Posted::Queued
        }
    }

    fn fill(&mut self, core: u32, line: u32, words: &mut LineWords) -> Behind {
        let behind = self.memory.fill(core, words);
        self.end(Action::Fill(line));
        behind
    }

    fn back(&mut self, core: u32, line: u32, words: &[u32], keep: bool) {
        self.memory.write_back(core, line, words);
        self.end(Action::Back(line, keep));
    }

    fn idle(&mut self, _core: u32) {
        self.end(Action::Idle);
    }
}
