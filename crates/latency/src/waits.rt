//! What is left of a request's wait, in slots.
ghost use Rattle.std.specs.Prelude.{◌≡◌, ℕ, ◌+◌, ◌<◌, ◌≤◌, ◌^◌, IfSome, Option};
ghost use Rattle.pmsi_model.specs.declared.limits.TheConstants.{MAX_CORES};
ghost use Rattle.pmsi_model.specs.Job.{JobValue};
ghost use Rattle.pmsi_model.specs.Machine.{owner_of};
ghost use Rattle.pmsi_model.specs.Run.{machine_at};
ghost use Rattle.pmsi_model.specs.Slots.{distance as distance_to_own, gap_of, plan_of};
ghost use Rattle.pmsi_model.specs.Waiting.{
  back_delay,
  back_slots,
  place_of,
  posted_left,
  queue_slots,
  request_delay,
  request_slots,
  unposted_left,
};
ghost use Rattle.sim_serial.specs.Sims.{IsSimOf, shape_of};
ghost use Rattle.latency.specs.Waits.{HasPosted, HasToWriteBack};

use pmsi_model::Turn;
use sim_serial::Sim;
use slot_plan::{distance, gap};

/// The greatest number of slots from an own slot of a core to its next one.
fn gap_slots(sim: &Sim) -> u64
    ensures value { (job : JobValue) (slot : ℕ) → IsSimOf job slot sim.now → result ≡ gap_of (plan_of job) }
    ensures small { result ≤ MAX_CORES }
{
    u64::from(gap(sim.bus().table()))
}

/// The slots up to and including the next own one of a core.
fn own_slots(sim: &Sim, c: u32) -> u64
    requires { c < (shape_of sim.now).cores }
    ensures value { (job : JobValue) (slot : ℕ) → IsSimOf job slot sim.now → result ≡ distance_to_own (plan_of job) c (machine_at job slot).slot }
    ensures small { result ≤ MAX_CORES }
{
    u64::from(distance(sim.bus().table(), c, sim.slot()))
}

/// 1 where the turn keeps a core from a write-back in its next own slot.
fn back_delay(turn: Turn) -> u64
    ensures { result ≡ back_delay turn }
{
    match turn {
        Turn::Request => 1,
        Turn::WriteBack => 0,
    }
}

/// 1 where the turn keeps a core from its request in its next own slot.
fn request_delay(turn: Turn) -> u64
    ensures { result ≡ request_delay turn }
{
    match turn {
        Turn::Request => 0,
        Turn::WriteBack => 1,
    }
}

/// The slots at most until a core writes a line back that it has to.
fn back_slots(sim: &Sim, c: u32, line: u32) -> u64
    requires core { c < (shape_of sim.now).cores }
    requires waits { HasToWriteBack c line sim.now }
    ensures value { (job : JobValue) (slot : ℕ) → IsSimOf job slot sim.now →
        result ≡ back_slots (plan_of job) (machine_at job slot) c (place_of line ((machine_at job slot).cores c).write_backs) }
    ensures small { result ≤ 2 ^ 40 }
{
    let pending = sim.core(c).pending();
    let Some(place) = pending.place(line) else {
        unreachable!()
    };
    own_slots(sim, c) + gap_slots(sim) * (2 * u64::from(place) + back_delay(pending.turn()))
}

/// The slots at most until a core does its request, where that is possible.
fn request_slots(sim: &Sim, c: u32) -> u64
    requires { c < (shape_of sim.now).cores }
    ensures value { (job : JobValue) (slot : ℕ) → IsSimOf job slot sim.now → result ≡ request_slots (plan_of job) (machine_at job slot) c }
    ensures small { result ≤ 2 ^ 40 }
{
    own_slots(sim, c) + gap_slots(sim) * request_delay(sim.core(c).pending().turn())
}

/// The slots at most for each request that is ahead in a queue.
fn queue_slots(sim: &Sim) -> u64
    ensures value { (job : JobValue) (slot : ℕ) → IsSimOf job slot sim.now → result ≡ queue_slots (plan_of job) }
    ensures small { result ≤ 2 ^ 10 }
{
    let gap = gap_slots(sim);
    2 * gap * u64::from(sim.shape().cores) + 2 * gap
}

/// The slots at most until a posted request of a core for a line is served.
pub fn posted_left(sim: &Sim, c: u32, line: u32) -> u64
    requires core { c < (shape_of sim.now).cores }
    requires posted { HasPosted c line sim.now }
    ensures { (job : JobValue) (slot : ℕ) → IsSimOf job slot sim.now →
        result ≡ posted_left (plan_of job) (machine_at job slot) c line (owner_of (machine_at job slot) (plan_of job).cores line) }
{
    let memory = sim.bus().memory();
    let Some(ahead) = memory.ahead(c) else {
        unreachable!()
    };
    let first = match memory.owner(line) {
        Some(owner) => back_slots(sim, owner, line) + 2 * gap_slots(sim),
        None => request_slots(sim, memory.first(line).unwrap_or(c)),
    };
    first + u64::from(ahead) * queue_slots(sim)
}

/// The slots at most until a request of a core that isn't posted is served. Its victim, where there is one, is written back
/// first.
pub fn unposted_left(sim: &Sim, c: u32, victim: Option<u32>) -> u64
    requires core { c < (shape_of sim.now).cores }
    requires victim { IfSome victim (λ line. HasToWriteBack c line sim.now) }
    ensures { (job : JobValue) (slot : ℕ) → IsSimOf job slot sim.now → result ≡ unposted_left (plan_of job) (machine_at job slot) c victim }
{
    let first = match victim {
        Some(victim) => back_slots(sim, c, victim) + 2 * gap_slots(sim),
        None => request_slots(sim, c),
    };
    first + u64::from(sim.shape().cores) * queue_slots(sim)
}
