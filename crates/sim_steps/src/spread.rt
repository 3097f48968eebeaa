//! Cores and their bus, whose steps may come in any order.
ghost use Rattle.std.specs.Prelude.{◌≡◌, ◌≢◌, ◌<◌, List, [], IfOk, length, true};
ghost use Rattle.pmsi_model.specs.declared.step.Step.{Step};
ghost use Rattle.pmsi_model.specs.Job.{JobValue};
ghost use Rattle.pmsi_model.specs.Parts.{IsBusPart};
ghost use Rattle.pmsi_model.specs.Spreads.{core_in, counts_after};
ghost use Rattle.sim_steps.specs.declared.took.Took.TheVariants.{Done};
ghost use Rattle.sim_steps.specs.Spreads.{IsSpread, IsSpreadOf};
ghost use Rattle.sim_steps.specs.Steps.{CanStep, GoesOn, Takes, TookByCounts};

use crate::core_step::{meet_step, phase_step};
use crate::took::Took;
use bus_core::Bus;
use core_unit::{Core, open_cores};
use pmsi_model::{Geometry, Job, Keep, NoMemory, Step};
use std::alloc::Global;
use std::marker::Model;

/// The cores of a machine and their bus, each at a slot of its own.
#[derive(Drop)]
pub struct Spread {
    cores: Vec<Core>,
    bus: Bus,
}

impl Model for Spread {
    ghost use Rattle.sim_steps.specs.Spreads.{IsSpread, SpreadValue};

    ghost Value = { SpreadValue };

    ghost view = { λ a. record { cores = a.cores.items; bus = a.bus } };

    ghost invariant = { λ a. IsSpread (record { cores = a.cores.items; bus = a.bus }) };
}

/// Takes a step at counts that fit.
fn step_at(cores: &mut [Core], bus: &mut Bus, step: Step) -> Took
    requires { CanStep step (record { cores = cores.old; bus = bus.old }) }
    ensures { Takes step (record { cores = cores.old; bus = bus.old }) (record { cores = cores.new; bus = bus.new }) result }
{
    match step {
        Step::Phase(c) => phase_step(&mut cores[c as usize]),
        Step::Meet(c) => meet_step(&mut cores[c as usize], bus),
    }
}

/// Takes a step after others.
fn take_step(cores: &mut [Core], bus: &mut Bus, step: Step) -> Took
    requires spread { IsSpread (record { cores = cores.old; bus = bus.old }) }
    requires core { core_in step < length cores.old }
    ensures spread { GoesOn step (record { cores = cores.old; bus = bus.old }) (record { cores = cores.new; bus = bus.new }) }
    ensures took { TookByCounts step (record { cores = cores.old; bus = bus.old }) result }
    ensures same { result ≢ Done → (cores.new ≡ cores.old) × (bus.new ≡ bus.old) }
    ensures next { IsSpread (record { cores = cores.new; bus = bus.new }) }
{
    step_at(cores, bus, step)
}

impl Spread {
    ghost use Rattle.sim_steps.specs.Cores.{IsAt};

    /// The machine of a job before its first slot. It keeps the actions of all slots and no accesses.
    pub fn open(alloc: Global, job: &Job) -> Result<Spread, NoMemory>
        ensures { IfOk result (λ v. IsSpreadOf job.now [] v) }
    {
        let keep = Keep {
            trace: true,
            touches: false,
        };
        Ok(Spread {
            cores: open_cores(alloc, job, keep)?,
            bus: Bus::open(alloc, job, keep)?,
        })
    }

    /// Takes a step, where it is in its order and the bus has come far enough. It takes no memory.
    pub fn take(&mut self, step: Step) -> Took
        requires { core_in step < length self.old.cores }
        ensures spread { GoesOn step self.old self.new }
        ensures took { TookByCounts step self.old result }
        ensures same { result ≢ Done → self.new ≡ self.old }
        ensures cores { length self.new.cores ≡ length self.old.cores }
    {
        take_step(&mut self.cores, &mut self.bus, step)
    }

    /// The shape of the machine's job.
    pub fn shape(&self) -> Geometry
        ensures cores { result.cores ≡ length self.now.cores }
        ensures of_job { (job : JobValue) (steps : List Step) → IsSpreadOf job steps self.now → result ≡ job.shape }
    {
        self.bus.memory().shape()
    }

    /// A core, in its slot.
    pub fn core(&self, c: u32) -> &Core
        requires { c < length self.now.cores }
        ensures at { (job : JobValue) (steps : List Step) → IsSpreadOf job steps self.now →
            IsAt job ((counts_after job steps).count c) c ((counts_after job steps).marked c) result.now }
        ensures spread { IsSpread self.now }
    {
        &self.cores[c as usize]
    }

    /// The bus, in its slot. It keeps the actions of all slots.
    pub fn bus(&self) -> &Bus
        ensures part { (job : JobValue) (steps : List Step) → IsSpreadOf job steps self.now → IsBusPart job (counts_after job steps).turn result.now }
        ensures keeps { result.now.keeps ≡ true }
        ensures spread { IsSpread self.now }
    {
        &self.bus
    }
}
