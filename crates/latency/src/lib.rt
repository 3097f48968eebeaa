//! How long a request can wait: the bound on its latency, and the slots at most that are left for it.
#![tactic(auto)]

ghost use Rattle.std.specs.Prelude.{◌≡◌, ℕ, ◌<◌};
ghost use Rattle.pmsi_model.specs.Job.{JobValue};
ghost use Rattle.pmsi_model.specs.Run.{machine_at};
ghost use Rattle.pmsi_model.specs.Slots.{bound_of, plan_of};
ghost use Rattle.pmsi_model.specs.Waiting.{slots_left};
ghost use Rattle.sim_serial.specs.Sims.{IsSimOf, shape_of};

mod waits;

use crate::waits::{posted_left, unposted_left};
use pmsi_model::SlotTable;
use sim_serial::Sim;
use slot_plan::gap;

/// The bound on a request's latency in slots, that of the miss and that of the fill counted: with N cores and a gap of G
/// slots `2G(N + 1)^2`.
pub fn bound(table: &SlotTable) -> u64
    ensures { result ≡ bound_of table.now }
{
    let cores = u64::from(table.cores());
    2 * u64::from(gap(table)) * (cores + 1).pow(2)
}

/// The slots at most until what a core wants is served, from the boundary at which the machine is: nothing where the core
/// wants nothing. The slots since the miss aren't counted.
pub fn remaining(sim: &Sim, c: u32) -> Option<u64>
    requires { c < (shape_of sim.now).cores }
    ensures { (job : JobValue) (slot : ℕ) → IsSimOf job slot sim.now → result ≡ slots_left (plan_of job) (machine_at job slot) c }
{
    let want = sim.core(c).pending().want()?;
    Some(match want.post {
        Some(_) => posted_left(sim, c, want.line),
        None => unposted_left(sim, c, want.victim),
    })
}
