//! The meeting of a core with its bus.
ghost use Rattle.sim_steps.specs.Meetings.{CanMeet, Meets, pair};

use bus_core::Bus;
use core_unit::Core;
use pmsi_model::Action;
use slot_plan::owner;

/// Ends the slot of a core whose phase is done. The slot's owner acts; another core snoops what the owner did in the slot.
/// The answer is this action, or None where the bus hasn't passed another core's slot. It takes no memory.
pub fn meet(core: &mut Core, bus: &mut Bus) -> Option<Action>
    requires { CanMeet (pair core.old bus.old) }
    ensures { Meets (pair core.old bus.old) (pair core.new bus.new) result }
{
    let slot = core.slot();
    let owner = owner(core.table(), slot);
    if owner == core.number() {
        return Some(core.act(bus));
    }
    let action = bus.record_at(slot)?;
    core.snoop(owner, action);
    Some(action)
}
