//! A step of one core.
ghost use Rattle.std.specs.Prelude.{◌≡◌, nat_le};
ghost use Rattle.sim_steps.specs.Cores.{CanTake, TakesMeet, TakesPhase};
ghost use Rattle.sim_steps.specs.Meetings.{pair};

use crate::meeting::meet;
use crate::took::Took;
use bus_core::Bus;
use core_unit::Core;
use pmsi_model::BusPort;

/// Whether the core's slots are over.
fn is_over(core: &Core) -> bool
    ensures { result ≡ nat_le core.now.shape.slots core.now.slot }
{
    core.slot() >= core.shape().slots
}

pub(crate) fn phase_step(core: &mut Core) -> Took
    ensures { TakesPhase core.old core.new result }
{
    if is_over(core) {
        return Took::Over;
    }
    if core.phase_done() {
        return Took::Again;
    }
    core.phase();
    Took::Done
}

pub(crate) fn meet_step(core: &mut Core, bus: &mut Bus) -> Took
    requires { CanTake (pair core.old bus.old) }
    ensures { TakesMeet (pair core.old bus.old) (pair core.new bus.new) result }
{
    if is_over(core) {
        return Took::Over;
    }
    if !core.phase_done() {
        return Took::Again;
    }
    match meet(core, bus) {
        Some(_) => Took::Done,
        None => Took::NotYet(bus.slot()),
    }
}
