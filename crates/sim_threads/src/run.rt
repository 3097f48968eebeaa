//! The run of a job on threads.
ghost use Rattle.std.specs.Prelude.{◌≤◌, ◌<◌, IfOk};
ghost use Rattle.pmsi_model.specs.declared.limits.TheConstants.{MAX_WORKERS};
ghost use Rattle.pmsi_model.specs.Geometry.{CanKeep};
ghost use Rattle.sim_serial.specs.Sims.{IsSimOf, Keeps};
ghost use Rattle.core_worker.specs.Members.{AreMembers, AreOver, GoOn};

use bus_core::Bus;
use core_unit::open_cores;
use core_worker::{Member, members_of, parted, work};
use pmsi_model::{Job, Keep, NoMemory};
use pmsi_outside::Gate;
use sim_serial::Sim;
use std::alloc::Global;
use std::sync::Wait;
use std::thread;
use std::thread::Threads;
use turn_bus::TurnBus;

/// Works groups of so many members at the same time, the last perhaps smaller.
fn work_groups<R: Threads + Wait + Sync, G: Gate + Sync>(
    rt: &R,
    bus: &TurnBus,
    members: &mut [Member],
    size: usize,
    gate: &G,
)
    requires size { 0 < size }
    requires members { AreMembers bus.now members.old }
    ensures members { GoOn bus.now members.old members.new }
    ensures over { AreOver members.new }
{
    thread::for_each_chunk_mut(rt, members, size, &|_, group| work(rt, bus, group, gate));
}

/// The members of each group, where so many workers share so many cores.
fn group_size(cores: u32, workers: u32) -> usize
    requires cores { 1 ≤ cores }
    requires workers { 1 ≤ workers }
    ensures { 0 < result }
{
    cores.div_ceil(workers.min(cores)) as usize
}

/// The machine of a job after its last slot, by so many workers, each on a thread of its own where one can be made, or by
/// one a core if there are fewer cores. The gate is told once before each phase of each core. All memory is taken before
/// the first slot.
pub fn run_threads<R: Threads + Wait + Sync, G: Gate + Sync>(
    rt: &R,
    alloc: Global,
    job: &Job,
    keep: Keep,
    workers: u32,
    gate: &G,
) -> Result<Sim, NoMemory>
    requires workers { (1 ≤ workers) × (workers ≤ MAX_WORKERS) }
    requires touches { CanKeep keep job.now.shape }
    ensures machine { IfOk result (λ sim. IsSimOf job.now job.now.shape.slots sim) }
    ensures keeps { IfOk result (λ sim. Keeps keep sim) }
{
    let size = group_size(job.shape().cores, workers);
    let cores = open_cores(alloc, job, keep)?;
    let bus = Bus::open(alloc, job, keep)?;
    let (shared, seats) = TurnBus::open(alloc, bus, job)?;
    let count = cores.len();
    let mut members = members_of(alloc, cores, seats)?;
    let mut cores = Vec::with_capacity(alloc, count)?;
    let mut seats = Vec::with_capacity(alloc, count)?;
    work_groups(rt, &shared, &mut members, size, gate);
    parted(members, &mut cores, &mut seats);
    let bus = shared.close(seats);
    Ok(Sim::from_parts(cores, bus))
}
