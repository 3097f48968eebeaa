//! A machine that commands move and print.

ghost use Rattle.std.specs.Prelude.{◌≡◌, ◌++◌, ◌<◌, ℕ, [], true, IfOk, OnOk};
ghost use Rattle.std.specs.List.{All};
ghost use Rattle.pmsi_model.specs.Job.{JobValue};
ghost use Rattle.core_unit.specs.State.{core_of};
ghost use Rattle.sim_serial.specs.Sims.{IsSimOf, shape_of};
ghost use Rattle.script_text.specs.Output.{Place, after, output_from, printed, regs_lines};
ghost use Rattle.script_text.specs.Script.{is_in_range};
ghost use Rattle.debugger.specs.Sessions.{HasCores, IsAt};

use crate::moves::{go, step};
use crate::printing::{push_left_line, push_slot_line, push_state_line, push_word_line};
use core_lines::{push_core_line, push_held_line, push_regs_line};
use core_unit::Core;
use latency::remaining;
use pmsi_model::{Job, Keep, NoMemory};
use script_text::{Breakpoint, Command};
use sim_serial::Sim;
use std::alloc::{AllocError, Global};

const KEEPS_NOTHING: Keep = Keep {
    trace: false,
    touches: false,
};

/// A job's machine, and the breaks so far.
#[derive(Drop)]
pub(crate) struct Session {
    sim: Sim,
    breaks: Vec<Breakpoint>,
}

impl Session {
    /// The machine before its first slot, with room for so many breaks.
    pub(crate) fn open(alloc: Global, job: &Job, breaks: usize) -> Result<Session, NoMemory>
        ensures at { IfOk result (λ session. IsAt job.now (record { slot = 0; breaks = [] }) session) }
        ensures shape { IfOk result (λ session. shape_of session.sim ≡ job.now.shape) }
        ensures cores { IfOk result (λ session. HasCores session) }
    {
        Ok(Session {
            sim: Sim::open(alloc, job, KEEPS_NOTHING)?,
            breaks: Vec::with_capacity(alloc, breaks)?,
        })
    }

    /// Obeys commands one after another, and appends what they print.
    pub(crate) fn run(&mut self, out: &mut Vec<u8>, commands: &[Command]) -> Result<(), AllocError>
        requires cores { HasCores self.old }
        requires range { All (λ command. is_in_range (shape_of self.old.sim) command ≡ true) commands.now }
        ensures { (job : JobValue) (place : Place) → IsAt job place self.old →
            OnOk result (out.new.items ≡ out.old.items ++ output_from job place commands.now) }
    {
        for command in commands {
            self.take(out, *command)?;
        }
        Ok(())
    }

    /// Obeys a command, and appends what it prints.
    fn take(&mut self, out: &mut Vec<u8>, command: Command) -> Result<(), AllocError>
        requires cores { HasCores self.old }
        requires range { is_in_range (shape_of self.old.sim) command ≡ true }
        ensures at { (job : JobValue) (place : Place) → IsAt job place self.old → OnOk result (IsAt job (after job place command) self.new) }
        ensures text { (job : JobValue) (place : Place) → IsAt job place self.old →
            OnOk result (out.new.items ≡ out.old.items ++ printed job (after job place command).slot command) }
        ensures shape { OnOk result (shape_of self.new.sim ≡ shape_of self.old.sim) }
        ensures cores { OnOk result (HasCores self.new) }
    {
        self.obey(command)?;
        self.print(out, command)
    }

    /// Moves the machine, or adds a break.
    #[tactic(auto, unfolding(script_text::specs::Output::after))]
    fn obey(&mut self, command: Command) -> Result<(), AllocError>
        requires cores { HasCores self.old }
        requires range { is_in_range (shape_of self.old.sim) command ≡ true }
        ensures at { (job : JobValue) (place : Place) → IsAt job place self.old → OnOk result (IsAt job (after job place command) self.new) }
        ensures shape { OnOk result (shape_of self.new.sim ≡ shape_of self.old.sim) }
        ensures cores { OnOk result (HasCores self.new) }
    {
        match command {
            Command::Step(slots) => {
                step(&mut self.sim, slots);
                Ok(())
            }
            Command::Break(at) => {
                self.breaks.push(at)?;
                Ok(())
            }
            Command::Go => {
                go(&mut self.sim, self.breaks.as_slice());
                Ok(())
            }
            _ => Ok(()),
        }
    }

    /// Appends what a command prints.
    #[tactic(auto, unfolding(script_text::specs::Output::printed))]
    fn print(&self, out: &mut Vec<u8>, command: Command) -> Result<(), AllocError>
        requires range { is_in_range (shape_of self.now.sim) command ≡ true }
        ensures { (job : JobValue) (slot : ℕ) → IsSimOf job slot self.now.sim → OnOk result (out.new.items ≡ out.old.items ++ printed job slot command) }
    {
        let sim = &self.sim;
        match command {
            Command::Step(_) | Command::Go => push_slot_line(out, sim.slot()),
            Command::Break(_) => Ok(()),
            Command::Regs(c) => push_regs_lines(out, c, sim.core(c)),
            Command::Held(c) => push_held_line(out, sim.core(c).cache()),
            Command::Word(address) => push_word_line(out, address, sim.word(address)),
            Command::State(c, line) => push_state_line(out, c, line, sim.state_name(c, line)),
            Command::Left(c) => push_left_line(out, c, remaining(sim, c)),
        }
    }
}

/// Appends the first two lines of a core.
fn push_regs_lines(out: &mut Vec<u8>, c: u32, core: &Core) -> Result<(), AllocError>
    ensures { OnOk result (out.new.items ≡ out.old.items ++ regs_lines c (core_of core.now)) }
{
    push_core_line(out, c, core.pc(), core.retired(), core.status())?;
    push_regs_line(out, core.regs())
}
