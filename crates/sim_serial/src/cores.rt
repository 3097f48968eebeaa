//! The cores of a machine: in a slot, and copied.
ghost use Rattle.std.specs.Prelude.{◌≡◌, ℕ, ◌+◌, ◌<◌, Bool, IfOk};
ghost use Rattle.pmsi_model.specs.declared.Keep.{Keep};
ghost use Rattle.pmsi_model.specs.Job.{JobValue};
ghost use Rattle.sim_serial.specs.Cores.{AreInNotes, AreParts, ArePhased, AreWith, CanDoPhases, CanNote, CanTakeSlot, CoresKeep};
ghost use Rattle.sim_serial.specs.Sims.{Keeps, sim_with};

use bus_core::Bus;
use core_unit::Core;
use pmsi_model::{Action, BusPort, NoMemory};
use slot_plan::owner;
use std::alloc::Global;

/// Each core does its phase of the slot.
fn do_phases(cores: &mut [Core])
    requires { CanDoPhases cores.old }
    ensures machine { (job : JobValue) (slot : ℕ) → slot < job.shape.slots → AreParts job slot cores.old → ArePhased job slot cores.new }
    ensures keeps { (keeps : Bool) → CoresKeep keeps cores.old → CoresKeep keeps cores.new }
{
    for c in 0..cores.len() {
        cores[c].phase();
    }
}

/// Each core but the slot's owner notes the owner's action.
fn note_action(cores: &mut [Core], owner: u32, action: Action)
    requires { CanNote owner action cores.old }
    ensures machine { (job : JobValue) (slot : ℕ) → AreInNotes job slot owner action 0 cores.old → AreParts job (slot + 1) cores.new }
    ensures keeps { (keeps : Bool) → CoresKeep keeps cores.old → CoresKeep keeps cores.new }
{
    for c in 0..cores.len() {
        if c as u32 != owner {
            cores[c].snoop(owner, action);
        }
    }
}

/// One slot: the phases, the owner's action, and the notes of the others.
pub fn take_slot(cores: &mut [Core], bus: &mut Bus)
    requires { CanTakeSlot cores.old bus.old }
    ensures machine { (job : JobValue) (slot : ℕ) → slot < job.shape.slots → AreWith job slot cores.old bus.old → AreWith job (slot + 1) cores.new bus.new }
    ensures keeps { (keep : Keep) → Keeps keep (sim_with cores.old bus.old) → Keeps keep (sim_with cores.new bus.new) }
{
    let owner = owner(bus.table(), bus.slot());
    do_phases(cores);
    let action = cores[owner as usize].act(bus);
    note_action(cores, owner, action);
}

/// Equal cores, in the same order.
pub fn copy_cores(alloc: Global, cores: &[Core]) -> Result<Vec<Core>, NoMemory>
    ensures { IfOk result (λ v. v.items ≡ cores.now) }
{
    let mut copies = Vec::with_capacity(alloc, cores.len())?;
    for core in cores {
        copies.push_reserved(core.copy(alloc)?);
    }
    Ok(copies)
}
