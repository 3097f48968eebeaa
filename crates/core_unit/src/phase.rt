//! A core's phase of a slot: at most a quantum of instructions.
ghost use Rattle.std.specs.Prelude.{◌≡◌, ℕ, ◌+◌, ◌%◌, ◌^◌, ◌<◌, true, IfSome, Some, None, is_some};
ghost use Rattle.pmsi_model.specs.Access.{width_of};
ghost use Rattle.pmsi_model.specs.Effect.{Memory as MemoryEffect};
ghost use Rattle.pmsi_model.specs.Geometry.{IsGeometry, line_of};
ghost use Rattle.pmsi_model.specs.Instruction.{instr_of};
ghost use Rattle.pmsi_model.specs.Job.{JobValue};
ghost use Rattle.pmsi_model.specs.Machine.{mode_of};
ghost use Rattle.pmsi_model.specs.Phase.{can_run, effect_of_word, permits, victim_of};
ghost use Rattle.cache_array.specs.Cache.{IsCache, held_of, place_of};
ghost use Rattle.rv_exec.specs.Effects.{IsAccessTo};
ghost use Rattle.core_unit.specs.State.{KeepsWays, core_of, gone_for, lines_left, performed, wanting, with_lines, with_room};
ghost use Rattle.core_unit.specs.Stands.{CanExecute, CanMakeRoom, HasTouchRoom, SameRun, StandsAfter, StandsNext, TouchesAfter, TouchesNext};
ghost use Rattle.core_unit.specs.Parts.{CanPhase, IsPart, IsPartAfter};
ghost use Rattle.core_unit.specs.Phases.{IsInPhase};

use crate::program::Fetched;
use crate::state::State;
use cache_array::line_of;
use cache_ctrl::Event;
use pmsi_model::{Access, AccessOp, Halt, Kind, Mode, State as LineName, Status, Want};
use rv_exec::{Effect, exec};

impl State {
    fn can_run(&self) -> bool
        ensures { result ≡ can_run (core_of self.now) }
    {
        match self.status {
            Status::Running => !self.pending.has_want(),
            Status::Halted(_) => false,
        }
    }

    /// Leaves a word in the cache after an access to it: a store or an atomic operation writes it, a load leaves it as it is.
    fn leave(&mut self, op: AccessOp, place: usize, address: u32, word: u32)
        requires aligned { address % 4 ≡ 0 }
        requires place { place_of (line_of self.old.cache.shape address) self.old.cache ≡ Some place }
        ensures after { self.new ≡ with_lines (lines_left op address word self.old.cache) self.old }
        ensures ways { KeepsWays self.old.cache.lines self.new.cache.lines }
    {
        match op {
            AccessOp::Load(_) => {}
            AccessOp::Store(_) | AccessOp::Amo(_) => {
                self.cache.write_word_at(place, address, word);
            }
        }
    }

    /// Does an access on the word of the cached line, and retires its instruction.
    fn perform(&mut self, access: Access, place: usize)
        requires aligned { access.address % width_of access.op ≡ 0 }
        requires shape { IsGeometry self.old.cache.shape }
        requires place { place_of (line_of self.old.cache.shape access.address) self.old.cache ≡ Some place }
        requires retires { self.old.retired + 1 < 2 ^ 64 }
        requires room { HasTouchRoom self.old }
        ensures after { self.new ≡ performed access self.old }
        ensures ways { KeepsWays self.old.cache.lines self.new.cache.lines }
    {
        let Access { op, address, .. } = access;
        let aligned = address - address % 4;
        let met = self.cache.read_word_at(place, aligned);
        let left = self.retire(access, met);
        self.leave(op, place, aligned, left);
    }

    /// The place of a line for which an access of this kind has permission; none where it has to wait.
    fn permitted_place(&self, kind: Kind, line: u32) -> Option<usize>
        ensures permits { is_some result ≡ permits kind (mode_of line (held_of self.now.cache.lines)) }
        ensures place { IfSome result (λ place. place_of line self.now.cache ≡ Some place) }
        ensures cache { IsCache self.now.cache }
    {
        let found = self.cache.look_up(line)?;
        match (kind, found.mode) {
            (Kind::Read, _) | (Kind::Write, Mode::Modified) => Some(found.place),
            (Kind::Write, Mode::Shared) => None,
        }
    }

    /// Makes room where the set is full: a shared line is dropped at once, a modified one is to be written back first, and
    /// is given.
    fn evict(&mut self, line: u32) -> Option<u32>
        requires { CanMakeRoom line self.old }
        ensures victim { result ≡ victim_of (gone_for line self.old) }
        ensures after { self.new ≡ with_room line self.old }
    {
        let victim = self.cache.victim(line)?;
        match self.change(Event::Choose, victim) {
            LineName::I => None,
            _ => Some(victim),
        }
    }

    /// The core gets a want.
    fn miss(&mut self, access: Access, line: u32)
        requires room { CanMakeRoom line self.old }
        requires none { self.old.pending.want ≡ None }
        ensures { self.new ≡ wanting access line self.old }
    {
        let victim = self.evict(line);
        self.pending.set_want(Want {
            line,
            kind: access.op.kind(),
            issue: self.slot,
            post: None,
            victim,
            access,
        });
    }

    /// Does an access at once where it has permission; else the core gets a want. The answer is whether the core goes on.
    fn access(&mut self, access: Access) -> bool
        requires ready { CanExecute self.old }
        requires runs { can_run (core_of self.old) ≡ true }
        requires within { IsAccessTo self.old.shape.memory access }
        ensures goes_on { result ≡ can_run (core_of self.new) }
        ensures same { SameRun self.old self.new }
        ensures stands { StandsAfter (λ job. MemoryEffect access) self.old self.new }
        ensures touched { TouchesAfter (λ job. MemoryEffect access) self.old self.new }
    {
        let line = line_of(&self.shape, access.address);
        match self.permitted_place(access.op.kind(), line) {
            Some(place) => {
                self.perform(access, place);
                self.cache.touch_at(place, line);
                true
            }
            None => {
                self.miss(access, line);
                false
            }
        }
    }

    /// Executes a fetched word. The answer is whether the core goes on.
    fn execute(&mut self, fetched: Fetched) -> bool
        requires ready { CanExecute self.old }
        requires runs { can_run (core_of self.old) ≡ true }
        ensures goes_on { result ≡ can_run (core_of self.new) }
        ensures same { SameRun self.old self.new }
        ensures stands { StandsAfter (λ job. effect_of_word job.shape fetched (core_of self.old) (instr_of fetched)) self.old self.new }
        ensures touched { TouchesAfter (λ job. effect_of_word job.shape fetched (core_of self.old) (instr_of fetched)) self.old self.new }
    {
        let Some(instr) = fetched.instr() else {
            self.status = Status::Halted(Halt::Illegal(fetched.word()));
            return false;
        };
        match exec(instr, &mut self.regs, self.pc, self.shape.memory) {
            Effect::Next(pc) => {
                self.pc = pc;
                self.retired += 1;
                true
            }
            Effect::Stop(halt) => {
                self.status = Status::Halted(halt);
                false
            }
            Effect::Memory(access) => self.access(access),
        }
    }

    /// Takes the instruction at the pc. The answer is whether the core goes on.
    fn instruction(&mut self) -> bool
        requires ready { CanExecute self.old }
        requires runs { can_run (core_of self.old) ≡ true }
        ensures goes_on { result ≡ can_run (core_of self.new) }
        ensures same { SameRun self.old self.new }
        ensures stands { StandsNext self.old self.new }
        ensures touched { TouchesNext self.old self.new }
    {
        match self.text.fetch((self.pc / 4) as usize) {
            Some(fetched) => self.execute(fetched),
            None => {
                self.status = Status::Halted(Halt::FetchRange(self.pc));
                false
            }
        }
    }

    /// Takes at most a quantum of instructions.
    fn take_quantum(&mut self)
        requires { CanPhase self.old }
        ensures taken { (job : JobValue) (slot c : ℕ) → slot < job.shape.slots → IsPart job slot c self.old → IsInPhase job slot c job.shape.quantum self.new }
        ensures keeps { self.new.keeps ≡ self.old.keeps }
    {
        if !self.can_run() {
            return;
        }
        for _ in 0..self.shape.quantum {
            if !self.instruction() {
                return;
            }
        }
    }

    /// The phase of the slot.
    pub fn phase(&mut self)
        requires { CanPhase self.old }
        ensures phased { (job : JobValue) (slot c : ℕ) → slot < job.shape.slots → IsPart job slot c self.old → IsPartAfter job slot c self.new }
        ensures keeps { self.new.keeps ≡ self.old.keeps }
    {
        self.take_quantum();
        self.phase_done = true;
    }
}
